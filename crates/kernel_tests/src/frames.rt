//! Tests of `frame_pool`: frames that are taken, written and given back.

ghost use Rattle.std.specs.Prelude.{◌≡◌, ◌≢◌, ◌<◌, ℕ};
ghost use Rattle.frame_pool.specs.Pool.{IsTaken};

use frame_pool::{Frame, FramePool};
use std::process::Abort;
use std::test::Fail;

/// A frame of the pool, which has a free one.
fn taken(rt: &impl Abort, pool: &mut FramePool) -> Frame
    ensures held { IsTaken pool.new result }
    ensures kept { (n : ℕ) → IsTaken pool.old n → IsTaken pool.new n }
    ensures apart { (n : ℕ) → IsTaken pool.old n → n ≢ result }
{
    pool.take().expect(rt, "a frame is free")
}

/// Gives a frame back.
fn give(pool: &mut FramePool, frame: Frame)
    requires { IsTaken pool.old frame }
    ensures { (n : ℕ) → n ≢ frame → IsTaken pool.old n → IsTaken pool.new n }
{
    pool.give(frame);
}

/// Whether no frame is free.
fn is_used_up(pool: &mut FramePool) -> bool
    ensures { pool.new ≡ pool.old }
{
    match pool.take() {
        None => true,
        Some(frame) => {
            pool.give(frame);
            false
        }
    }
}

/// Writes a byte at both ends of a frame.
fn mark(pool: &mut FramePool, frame: &Frame, byte: u8)
    requires { IsTaken pool.old frame.now }
    ensures { (n : ℕ) → IsTaken pool.old n → IsTaken pool.new n }
{
    let bytes = pool.bytes_mut(frame);
    bytes[0] = byte;
    bytes[4095] = byte;
}

/// The frame has this byte at both ends, and zero bytes between.
fn shows(rt: &impl Abort, pool: &FramePool, frame: &Frame, byte: u8)
    requires { IsTaken pool.now frame.now }
{
    let bytes = pool.bytes(frame);
    assert!(rt; bytes[0] == byte);
    assert!(rt; bytes[4095] == byte);
    for between in &bytes[1..4095] {
        assert!(rt; *between == 0);
    }
}

#[test]
fn frame_that_is_taken_again_is_zero(rt: HostRuntime) -> Result<(), Fail> {
    let mut pool = FramePool::new(rt.alloc(), 1)?;
    assert!(rt; pool.free() == 1);
    let frame = taken(&rt, &mut pool);
    assert!(rt; pool.free() == 0);
    assert!(rt; is_used_up(&mut pool));
    shows(&rt, &pool, &frame, 0);
    mark(&mut pool, &frame, 0x5a);
    shows(&rt, &pool, &frame, 0x5a);
    give(&mut pool, frame);
    assert!(rt; pool.free() == 1);
    let again = taken(&rt, &mut pool);
    shows(&rt, &pool, &again, 0);
    give(&mut pool, again);
    Ok(())
}

#[test]
fn frames_are_apart(rt: HostRuntime) -> Result<(), Fail> {
    let mut pool = FramePool::new(rt.alloc(), 2)?;
    let first = taken(&rt, &mut pool);
    let second = taken(&rt, &mut pool);
    assert!(rt; is_used_up(&mut pool));
    mark(&mut pool, &first, 1);
    shows(&rt, &pool, &second, 0);
    mark(&mut pool, &second, 2);
    shows(&rt, &pool, &first, 1);
    give(&mut pool, first);
    assert!(rt; pool.free() == 1);
    shows(&rt, &pool, &second, 2);
    give(&mut pool, second);
    assert!(rt; pool.free() == 2);
    Ok(())
}
