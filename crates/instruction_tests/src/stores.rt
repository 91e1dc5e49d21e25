//! Tests of `store_buffers`: what a hart sees through its waiting stores, with values found by hand.

ghost use Rattle.std.specs.Prelude.{◌≡◌, ◌+◌, ◌≤◌, ◌<◌, length};
ghost use Rattle.mach_types.specs.Bytes.{IsAccessSize, word_at};

use mach_types::{Store, UserMem};
use std::process::Abort;
use std::test::Fail;
use store_buffers::StoreBuffer;

/// Memory that can be read from `first` to `last`, and not written: the byte at an address is the address's
/// lowest byte.
#[derive(Clone, Copy)]
struct Ramp {
    first: u64,
    last: u64,
}

impl UserMem for Ramp {
    ghost use Rattle.std.specs.Prelude.{◌%◌, ◌^◌, ◌&&◌, false, nat_le, nat_lt, if◌then◌else◌, Some, None};

    ghost byte = { λ m a. if nat_lt a (2 ^ 64) && (nat_le m.first a && nat_le a m.last) then Some (a % 256)
        else None };

    ghost can_write = { λ m a. false };

    ghost IsAlike = { λ m m'. m' ≡ m };

    fn get(&self, at: u64, size: u8) -> Option<u64> {
        self.word(at, size)
    }

    fn set(&mut self, _at: u64, _size: u8, _value: u64) -> bool {
        false
    }

    fn writable(&self, _at: u64, _size: u8) -> bool {
        false
    }

    ghost use Rattle.std.proofs.Common.{arith, refl};
    ghost use Rattle.std.proofs.lemmas.Bool.Decides.{nat_tests};

    ghost alike_itself = { λ m. refl };

    ghost alike_next = { λ a b c first second. Prim.cc };

    ghost writable_is_readable = { λ m a e. Prim.cc };

    ghost ends = { λ m a past. Prim.grind (arith, nat_tests) };

    ghost bytes_are_small = { λ m a b e. Prim.grind (arith, nat_tests) };
}

impl Ramp {
    fn byte(self, at: u64) -> Option<u64>
        ensures { result ≡ ⟦<Ramp as UserMem>⟧.byte self at }
    {
        if self.first <= at && at <= self.last {
            Some(at % 256)
        } else {
            None
        }
    }

    fn word(self, at: u64, size: u8) -> Option<u64>
        requires { size ≤ 8 }
        ensures { result ≡ word_at (⟦<Ramp as UserMem>⟧.byte self) at size }
    {
        if size == 0 {
            return Some(0);
        }
        let low = self.byte(at)?;
        if at == u64::MAX {
            return if size == 1 { Some(low) } else { None };
        }
        let high = self.word(at + 1, size - 1)?;
        Some(low + 256 * high)
    }
}

const WIDE: Ramp = Ramp {
    first: 0x1000,
    last: 0x2fff,
};

fn store(at: u64, size: u8, value: u64) -> Store
    ensures { result ≡ record { at = at; size = size; value = value } }
{
    Store { at, size, value }
}

/// An address, how many bytes a load there has, and what it sees.
type Seen = (u64, u8, u64);

/// What loads see of the wide memory.
fn sees(rt: &impl Abort, buffer: &StoreBuffer, rows: &[Seen]) {
    for (at, size, value) in rows {
        assert!(rt; *size == 1 || *size == 2 || *size == 4 || *size == 8);
        assert!(rt;
            buffer.look(&WIDE, *at, *size) == Some(*value),
            "{at:x} {size}"
        );
    }
}

/// Beside a store of 0xaabbccdd at 0x1010.
const BESIDE: [Seen; 13] = [
    (0x1010, 4, 0xaabb_ccdd),
    (0x1010, 1, 0xdd),
    (0x1013, 1, 0xaa),
    (0x1011, 2, 0xbbcc),
    (0x1010, 8, 0x1716_1514_aabb_ccdd),
    (0x100c, 8, 0xaabb_ccdd_0f0e_0d0c),
    (0x100e, 4, 0xccdd_0f0e),
    (0x1012, 4, 0x1514_aabb),
    (0x1014, 4, 0x1716_1514),
    (0x100c, 4, 0x0f0e_0d0c),
    (0x100f, 2, 0xdd0f),
    (0x1009, 8, 0xdd0f_0e0d_0c0b_0a09),
    (0x100e, 8, 0x1514_aabb_ccdd_0f0e),
];

#[test]
fn one_store_is_seen_where_it_lies(rt: HostRuntime) -> Result<(), Fail> {
    let mut buffer = StoreBuffer::new(rt.alloc())?;
    sees(&rt, &buffer, &[(0x1010, 4, 0x1312_1110)]);
    buffer.push(store(0x1010, 4, 0xaabb_ccdd));
    sees(&rt, &buffer, &BESIDE);
    Ok(())
}

/// Stores one over another: an address, a size, and a value.
const YOUNGER: [(u64, u8, u64); 4] = [
    (0x1020, 8, 0x1122_3344_5566_7788),
    (0x1022, 2, 0xabcd),
    (0x1023, 1, 0x1ee),
    (0x1023, 1, 0x99),
];

/// After the first three of them.
const AFTER_THREE: [Seen; 6] = [
    (0x1020, 8, 0x1122_3344_eecd_7788),
    (0x1022, 2, 0xeecd),
    (0x1023, 1, 0xee),
    (0x1021, 4, 0x44ee_cd77),
    (0x1024, 8, 0x2b2a_2928_1122_3344),
    (0x101e, 4, 0x7788_1f1e),
];

/// A store must be this.
fn is_store(rt: &impl Abort, found: Option<Store>, expected: &(u64, u8, u64)) {
    let (at, size, value) = *expected;
    assert!(rt; found == Some(Store { at, size, value }), "{at:x} {size}");
}

#[test]
fn youngest_store_wins(rt: HostRuntime) -> Result<(), Fail> {
    let mut buffer = StoreBuffer::new(rt.alloc())?;
    buffer.push(store(0x1020, 8, 0x1122_3344_5566_7788));
    buffer.push(store(0x1022, 2, 0xabcd));
    buffer.push(store(0x1023, 1, 0x1ee));
    sees(&rt, &buffer, &AFTER_THREE);
    buffer.push(store(0x1023, 1, 0x99));
    sees(&rt, &buffer, &[(0x1023, 1, 0x99)]);
    assert!(rt; buffer.len() == 4);
    is_store(&rt, buffer.get(1), &YOUNGER[1]);
    assert!(rt; buffer.get(4).is_none());
    is_store(&rt, buffer.oldest(), &YOUNGER[0]);
    is_store(&rt, buffer.pop(), &YOUNGER[0]);
    sees(&rt, &buffer, &[(0x1020, 8, 0x2726_2524_99cd_2120)]);
    for expected in &YOUNGER[1..] {
        is_store(&rt, buffer.pop(), expected);
    }
    assert!(rt; buffer.pop().is_none());
    assert!(rt; buffer.oldest().is_none());
    assert!(rt; buffer.is_empty());
    Ok(())
}

/// Beside a store of 0xdeadbeef at 0x1ffe, over two pages.
const ACROSS: [Seen; 4] = [
    (0x1ffc, 8, 0x0302_dead_beef_fdfc),
    (0x1fff, 2, 0xadbe),
    (0x2000, 1, 0xad),
    (0x2001, 8, 0x0807_0605_0403_02de),
];

/// A page, and whether that store touches it.
const TOUCHED: [(u64, bool); 4] = [(0, false), (1, true), (2, true), (3, false)];

/// The first of pages, how many they are, and whether that store touches one of them.
const TOUCHED_OF: [(u64, u64, bool); 5] = [
    (0, 1, false),
    (0, 2, true),
    (2, 1 << 26, true),
    (3, u64::MAX, false),
    (2, 0, false),
];

#[test]
fn stores_are_seen_across_pages(rt: HostRuntime) -> Result<(), Fail> {
    let mut buffer = StoreBuffer::new(rt.alloc())?;
    buffer.push(store(0x1ffe, 4, 0xdead_beef));
    sees(&rt, &buffer, &ACROSS);
    for (page, is_touched) in &TOUCHED {
        assert!(rt; buffer.touches(*page) == *is_touched, "page {page}");
    }
    for (first, count, is_touched) in &TOUCHED_OF {
        assert!(rt;
            buffer.touches_any(*first, *count) == *is_touched,
            "pages {first} {count}"
        );
    }
    Ok(())
}

/// What the last eight of twelve stores at 0x1000 and on leave to be seen.
const LAST_EIGHT: [Seen; 2] = [
    (0x1000, 8, 0x8786_8584_0302_0100),
    (0x1004, 8, 0x8b8a_8988_8786_8584),
];

#[test]
fn eight_stores_wait(rt: HostRuntime) -> Result<(), Fail> {
    let mut buffer = StoreBuffer::new(rt.alloc())?;
    for turn in 0..12u64 {
        if buffer.len() == 8 {
            assert!(rt; buffer.pop() == Some(store(0x0ff8 + turn, 1, 0x78 + turn)));
        }
        if buffer.len() < 8 {
            buffer.push(store(0x1000 + turn, 1, 0x80 + turn));
        }
    }
    assert!(rt; buffer.len() == 8);
    sees(&rt, &buffer, &LAST_EIGHT);
    Ok(())
}
