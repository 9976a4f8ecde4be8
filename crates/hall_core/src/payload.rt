ghost use Rattle.std.specs.Prelude.{◌≡◌, [], length, IfOk};

use crate::no_memory::NoMemory;
use std::alloc::Global;
use std::marker::Model;

/// The bytes that come with a command, at most 65,536.
///
/// Contracts see the list of the bytes. docs/MACHINE.md, "The journal".
#[derive(Debug)]
pub struct Payload {
    bytes: Vec<u8>,
}

impl Model for Payload {
    ghost use Rattle.std.specs.Prelude.{ℕ, List};

    ghost Value = { List ℕ };

    ghost view = { λ p. p.bytes.items };
}

impl Drop for Payload {
    fn drop(self) {
        let Payload { bytes: _ } = self;
    }
}

impl Payload {
    /// No bytes, which takes no memory.
    pub fn none(alloc: Global) -> Payload
        ensures { result ≡ [] }
    {
        Payload {
            bytes: Vec::new(alloc),
        }
    }

    /// A copy of the bytes. `NoMemory` comes only for want of memory.
    pub fn copy_of(alloc: Global, bytes: &[u8]) -> Result<Payload, NoMemory>
        ensures bytes { IfOk result (λ p. p ≡ bytes.now) }
    {
        let mut copy = match Vec::with_capacity(alloc, bytes.len()) {
            Ok(copy) => copy,
            Err(_) => return Err(NoMemory),
        };
        match copy.extend_from_slice(bytes) {
            Ok(()) => Ok(Payload { bytes: copy }),
            Err(_) => Err(NoMemory),
        }
    }

    /// The bytes, in order.
    pub fn as_slice(&self) -> &[u8]
        ensures { result.now ≡ self.now }
    {
        self.bytes.as_slice()
    }

    /// How many bytes there are.
    pub fn len(&self) -> usize
        ensures { result ≡ length self.now }
    {
        self.bytes.len()
    }
}
