//! What a run left on its console.

ghost use Rattle.std.specs.Prelude.{◌≡◌, IfOk};

use std::alloc::{AllocError, Global};
use std::marker::Model;

/// The bytes that a run left on its console.
#[derive(Drop)]
pub struct ConsoleBytes {
    bytes: Vec<u8>,
}

impl Model for ConsoleBytes {
    ghost use Rattle.std.specs.Prelude.{List, ℕ};

    ghost Value = { List ℕ };

    ghost view = { λ c. c.bytes.items };
}

impl ConsoleBytes {
    /// A copy of these bytes. Fails only where memory is short.
    pub fn copied(alloc: Global, bytes: &[u8]) -> Result<ConsoleBytes, AllocError>
        ensures { IfOk result (λ console. console ≡ bytes.now) }
    {
        let mut copy = Vec::with_capacity(alloc, bytes.len())?;
        copy.extend_from_slice(bytes)?;
        Ok(ConsoleBytes { bytes: copy })
    }

    /// The bytes.
    pub fn bytes(&self) -> &[u8]
        ensures { result.now ≡ self.now }
    {
        &self.bytes
    }
}
