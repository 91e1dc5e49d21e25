//! What each block needs before its first word: free labels, and the immediates of its descriptor's address.

ghost use Rattle.std.specs.Prelude.{◌≡◌, ◌↔◌, ◌+◌, ◌^◌, ◌<◌, ◌≤◌, IsTrue, length};
ghost use Rattle.std.specs.Bool.{OnTrue};
ghost use Rattle.percpu_lib.specs.Lines.{HasRoom};
ghost use Rattle.percpu_lib.specs.Words.{lower, upper};

use rv_asm::Asm;

/// The immediate of the LUI that makes an address together with an ADDI.
pub fn upper_part(address: u64) -> i64
    requires { address < 0x7FFFF800 }
    ensures { result ≡ upper address }
{
    ((address + 2048) / 4096 * 4096) as i64
}

/// The immediate of that ADDI.
pub fn lower_part(address: u64) -> i64
    requires { address < 0x7FFFF800 }
    ensures { result ≡ lower address }
{
    address as i64 - upper_part(address)
}

/// Whether eight labels from `base` on are free.
pub fn has_room(asm: &Asm, base: u32) -> bool
    ensures exact { IsTrue result ↔ HasRoom asm.now.labels base }
    ensures within { OnTrue result (base + 8 ≤ length asm.now.labels) }
    ensures fits { OnTrue result (base + 8 < 2 ^ 32) }
{
    if asm.labels() < 8 || asm.labels() - 8 < base {
        return false;
    }
    for k in 0..8u32 {
        if asm.place(base + k).is_some() {
            return false;
        }
    }
    true
}
