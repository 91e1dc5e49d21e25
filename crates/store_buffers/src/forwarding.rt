//! Waiting stores over a word of memory.

ghost use Rattle.std.specs.Prelude.{◌≡◌, ℕ, ◌+◌, ◌-◌, ◌*◌, ◌/◌, ◌%◌, ◌^◌, ◌<◌, ◌≤◌, ◌↔◌, ◌++◌, IsTrue};
ghost use Rattle.std.specs.List.{AllByRecursion, Any, list_any};
ghost use Rattle.mach_types.specs.Bytes.{IsAccessSize, byte_of, byte_over, overlay};
ghost use Rattle.store_buffers.specs.Pages.{HasByteAmong, is_among};
ghost use Rattle.store_buffers.specs.Words.{with_bytes};

use mach_types::Store;
use mach_types::address_space::PAGE_SIZE;

/// The weight of a word's byte `count`.
fn weight(count: u8) -> u64
    requires { count < 8 }
    ensures value { result ≡ 256 ^ count }
    ensures positive { 0 < result }
{
    1u64 << (8 * count)
}

/// The lowest `count` bytes of a word, and the word of those above them.
fn split(word: u64, count: u8) -> (u64, u64)
    requires { count ≤ 8 }
    ensures low { result.0 ≡ word % 256 ^ count }
    ensures high { result.1 ≡ word / 256 ^ count }
{
    if count == 8 {
        (word, 0)
    } else {
        (word % weight(count), word / weight(count))
    }
}

/// `count` low bytes, with the bytes of `high` above them.
fn join(low: u64, count: u8, high: u64) -> u64
    requires count { count ≤ 8 }
    requires fits { low + 256 ^ count * high < 2 ^ 64 }
    ensures { result ≡ low + 256 ^ count * high }
{
    if count == 8 {
        low
    } else {
        low + weight(count) * high
    }
}

/// The word with `count` of its bytes, from byte `skipped` on, replaced by the lowest ones of `bits`.
fn put(word: u64, skipped: u8, count: u8, bits: u64) -> u64
    requires { skipped + count ≤ 8 }
    ensures { result ≡ with_bytes word skipped count bits }
{
    let (low, rest) = split(word, skipped);
    let (_, high) = split(rest, count);
    let (middle, _) = split(bits, count);
    join(low, skipped, join(middle, count, high))
}

/// The `size` bytes of a word that stand in memory from `at` on, after a store.
fn after_store(word: u64, at: u64, size: u8, store: Store) -> u64
    requires size { size ≤ 8 }
    requires store { store.size ≤ 8 }
    requires fits { word < 256 ^ size }
    ensures fits { result < 256 ^ size }
    ensures bytes { (k : ℕ) → k < size → byte_of result k ≡ byte_over store (at + k) (byte_of word k) }
{
    if store.at <= at {
        let skipped = at - store.at;
        if skipped >= u64::from(store.size) {
            return word;
        }
        let skipped = skipped as u8;
        let (_, bits) = split(store.value, skipped);
        put(word, 0, size.min(store.size - skipped), bits)
    } else {
        let before = store.at - at;
        if before >= u64::from(size) {
            return word;
        }
        let before = before as u8;
        put(word, before, store.size.min(size - before), store.value)
    }
}

/// The `size` bytes of a word that stand in memory from `at` on, after these stores in order.
pub(crate) fn after_stores(word: u64, at: u64, size: u8, stores: &[Store]) -> u64
    requires size { size ≤ 8 }
    requires stores { AllByRecursion (λ s. IsAccessSize s.size) stores.now }
    requires fits { word < 256 ^ size }
    ensures fits { result < 256 ^ size }
    ensures bytes { (k : ℕ) → k < size → byte_of result k ≡ overlay stores.now (at + k) (byte_of word k) }
{
    let mut word = word;
    for store in stores {
        word = after_store(word, at, size, *store);
    }
    word
}

/// Whether a byte of the store lies in one of `count` pages, from page `first` on.
fn is_among(store: &Store, first: u64, count: u64) -> bool
    requires { IsAccessSize store.now.size }
    ensures { result ≡ is_among first count store.now }
{
    let lowest = store.at / PAGE_SIZE;
    let highest = lowest + (store.at % PAGE_SIZE + u64::from(store.size - 1)) / PAGE_SIZE;
    first <= highest && lowest.saturating_sub(first) < count
}

/// Whether a byte of some of the stores lies in one of `count` pages, from page `first` on.
fn touch(stores: &[Store], first: u64, count: u64) -> bool
    requires { AllByRecursion (λ s. IsAccessSize s.size) stores.now }
    ensures { result ≡ list_any (is_among first count) stores.now }
{
    for store in stores {
        if is_among(store, first, count) {
            return true;
        }
    }
    false
}

/// Whether some byte of these stores lies in one of `count` pages, from page `first` on.
pub(crate) fn touch_either(front: &[Store], back: &[Store], first: u64, count: u64) -> bool
    requires { AllByRecursion (λ s. IsAccessSize s.size) (front.now ++ back.now) }
    ensures { IsTrue result ↔ Any (HasByteAmong first count) (front.now ++ back.now) }
{
    let in_front = touch(front, first, count);
    let in_back = touch(back, first, count);
    in_front || in_back
}
