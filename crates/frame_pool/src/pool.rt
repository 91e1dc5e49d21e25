//! The pool.

ghost use Rattle.std.specs.Prelude.{◌≡◌, ◌↔◌, ◌+◌, ◌<◌, ◌≤◌, true, length, replicate, slice_get, slice_set, vec_capacity, Option, Some, None, IfNone, IfOk, IfSome, IsNone};
ghost use Rattle.std.specs.Bool.{OnTrue};
ghost use Rattle.std.specs.Borrow.{sem};
ghost use Rattle.frame_pool.specs.Layout.{AreStored, bytes_shown, with_zeros};
ghost use Rattle.frame_pool.specs.Lending.{LendsFrame};
ghost use Rattle.frame_pool.specs.Pool.{IsTaken, free_count, fresh, zeroed};

use crate::frame::Frame;
use std::alloc::{AllocError, Global};
use std::marker::Model;

/// All frames of guest memory, by number: the bytes of each frame that is taken, and nothing for one that is
/// free.
///
/// The region has bytes for the first so many frames, as far as one was ever written. A frame is marked where
/// it was written since it was taken and since all were made zero. A taken frame without a mark has zero
/// bytes, whatever the region has in its place: so it costs next to nothing before it is written.
#[derive(Drop)]
pub struct FramePool {
    region: Vec<[u8; 4096]>,
    written: Vec<bool>,
    taken: Vec<bool>,
    free: Vec<u32>,
    frames: u32,
}

impl Model for FramePool {
    ghost use Rattle.std.specs.Prelude.{ℕ, List, Option};
    ghost use Rattle.std.specs.Vec.{vec_capacity};
    ghost use Rattle.frame_pool.specs.Layout.{AreStored, HasRoom, IsLaidOut, bytes_shown, pool_of};

    ghost Value = { List (Option (List ℕ)) };

    ghost view = { λ p. pool_of p.frames p.taken.items (bytes_shown p.written.items p.region.items) };

    ghost invariant = { λ p.
        IsLaidOut p.frames (bytes_shown p.written.items p.region.items) p.taken.items p.free.items
        × HasRoom p.frames (vec_capacity p.region) (vec_capacity p.written) (vec_capacity p.taken)
        (vec_capacity p.free)
        × AreStored p.written.items p.region.items };
}

impl FramePool {
    /// A pool of so many frames, all free. It has all the memory that it ever takes.
    pub fn new(alloc: Global, frames: u32) -> Result<FramePool, AllocError>
        ensures frames { IfOk result (λ p. p ≡ replicate frames None) }
        ensures free { IfOk result (λ p. free_count p ≡ frames) }
    {
        let count = frames as usize;
        Ok(FramePool {
            region: Vec::with_capacity(alloc, count)?,
            written: Vec::with_capacity(alloc, count)?,
            taken: Vec::with_capacity(alloc, count)?,
            free: Vec::with_capacity(alloc, count)?,
            frames,
        })
    }

    /// How many frames are free.
    pub fn free(&self) -> u32
        ensures { result ≡ free_count self.now }
    {
        let never_taken = self.frames - self.taken.len() as u32;
        never_taken + self.free.len() as u32
    }

    /// A free frame, which has zero bytes and is now taken; None exactly where none is free. It takes no
    /// memory.
    pub fn take(&mut self) -> Option<Frame>
        ensures none { IsNone result ↔ (free_count self.old ≡ 0) }
        ensures unchanged { IfNone result (self.new ≡ self.old) }
        ensures was_free { IfSome result (λ n. slice_get self.old n ≡ Some None) }
        ensures taken { IfSome result (λ n. self.new ≡ slice_set self.old n (Some fresh)) }
    {
        if let Some(number) = self.free.pop() {
            self.taken[number as usize] = true;
            self.written[number as usize] = false;
            return Some(Frame::new(number));
        }
        let number = self.taken.len() as u32;
        if number == self.frames {
            return None;
        }
        let _ = self.taken.push(true);
        let _ = self.written.push(false);
        Some(Frame::new(number))
    }

    /// Takes a frame back, which is then free.
    pub fn give(&mut self, frame: Frame)
        requires { IsTaken self.old frame }
        ensures { self.new ≡ slice_set self.old frame None }
    {
        let number = frame.into_number();
        self.taken[number as usize] = false;
        let _ = self.free.push(number);
    }

    /// Each frame that is taken has zero bytes again. It takes no memory.
    pub fn zero_taken(&mut self)
        ensures { self.new ≡ zeroed self.old }
    {
        self.written.fill(false);
    }

    /// Makes all bytes of a taken frame zero. No other frame changes. It takes no memory.
    pub fn zero_frame(&mut self, frame: &Frame)
        requires { IsTaken self.old frame.now }
        ensures { self.new ≡ slice_set self.old frame.now (Some fresh) }
    {
        let place = frame.place();
        self.written[place] = false;
    }

    /// Whether a taken frame has zero bytes because nothing has written it. It looks at none of its bytes,
    /// and is false of a frame that was written, with whatever bytes.
    pub fn is_fresh(&self, frame: &Frame) -> bool
        requires { IsTaken self.now frame.now }
        ensures { OnTrue result (slice_get self.now frame.now ≡ Some (Some fresh)) }
    {
        !self.written[frame.place()]
    }

    /// The 4,096 bytes of a taken frame.
    pub fn bytes(&self, frame: &Frame) -> &[u8]
        requires { IsTaken self.now frame.now }
        ensures bytes { slice_get self.now frame.now ≡ Some (Some result.now) }
        ensures size { length result.now ≡ 4096 }
    {
        let place = frame.place();
        if self.written[place] {
            &self.region[place]
        } else {
            no_bytes()
        }
    }

    /// The 4,096 bytes of a taken frame, to be written. No other frame changes.
    pub fn bytes_mut(&mut self, frame: &Frame) -> &mut [u8]
        requires { IsTaken self.old frame.now }
        ensures* writes_back { sem 𝓛 (LendsFrame self.entry frame.now result) }
        ensures bytes { slice_get self.old frame.now ≡ Some (Some result.now) }
        ensures size { length result.now ≡ 4096 }
    {
        prove!(self.bytes(frame).len() == 4096);
        let place = frame.place();
        own(&mut self.region, &mut self.written, place);
        self.region[place].as_mut_slice()
    }

    /// Gives a taken frame these bytes. No other frame changes. It takes no memory.
    pub fn fill(&mut self, frame: &Frame, bytes: &[u8])
        requires taken { IsTaken self.old frame.now }
        requires size { length bytes.now ≡ 4096 }
        ensures { self.new ≡ slice_set self.old frame.now (Some bytes.now) }
    {
        let place = frame.place();
        reach(&mut self.region, place);
        self.region[place].copy_from_slice(bytes);
        self.written[place] = true;
    }

    /// A taken frame has zero bytes again. No other frame changes. It takes no memory, and writes no byte of the
    /// frame.
    pub fn zero(&mut self, frame: &Frame)
        requires { IsTaken self.old frame.now }
        ensures { self.new ≡ slice_set self.old frame.now (Some fresh) }
    {
        let place = frame.place();
        self.written[place] = false;
    }
}

/// The bytes of a frame that was never written.
fn no_bytes() -> &'static [u8]
    ensures { result.now ≡ fresh }
{
    &[0; 4096]
}

/// Gives a frame that isn't marked bytes of its own, which are zero, and marks it.
fn own(region: &mut Vec<[u8; 4096]>, written: &mut Vec<bool>, place: usize)
    requires within { place < length written.old.items }
    requires room { place < vec_capacity region.old }
    requires stored { AreStored written.old.items region.old.items }
    ensures shown { bytes_shown written.new.items region.new.items
        ≡ bytes_shown written.old.items region.old.items }
    ensures stored { AreStored written.new.items region.new.items }
    ensures marked { slice_get written.new.items place ≡ Some true }
    ensures capacity { vec_capacity region.old ≤ vec_capacity region.new }
    ensures marks { vec_capacity written.old ≤ vec_capacity written.new }
{
    if written[place] {
        return;
    }
    clear(region, place);
    written[place] = true;
}

/// Makes the bytes at a place zero.
fn clear(region: &mut Vec<[u8; 4096]>, place: usize)
    requires { place < vec_capacity region.old }
    ensures items { region.new.items ≡ slice_set (with_zeros (place + 1) region.old.items) place fresh }
    ensures capacity { vec_capacity region.old ≤ vec_capacity region.new }
{
    reach(region, place);
    region[place] = zeros();
}

/// Appends frames of zero bytes, until one stands at a place.
fn reach(region: &mut Vec<[u8; 4096]>, place: usize)
    requires { place < vec_capacity region.old }
    ensures items { region.new.items ≡ with_zeros (place + 1) region.old.items }
    ensures capacity { vec_capacity region.old ≤ vec_capacity region.new }
{
    for _ in region.len()..place + 1 {
        let _ = region.push(zeros());
    }
}

/// The bytes of a frame that is taken.
fn zeros() -> [u8; 4096]
    ensures { result ≡ fresh }
{
    [0; 4096]
}
