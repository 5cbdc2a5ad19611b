use pocsag_words::{DeviceFault, Sink};
use std::alloc::Global;

/// A writer that keeps all its bytes, and fails where there is no memory for them.
#[derive(Drop)]
pub struct Kept {
    bytes: Vec<u8>,
    calls: u64,
    failures: u64,
}

impl Kept {
    pub fn new(alloc: Global) -> Kept {
        Kept {
            bytes: Vec::new(alloc),
            calls: 0,
            failures: 0,
        }
    }

    pub fn bytes(&self) -> &[u8] {
        self.bytes.as_slice()
    }
}

impl Sink for Kept {
    ghost use Rattle.std.specs.Prelude.{[]};

    ghost is_known = { ⊥ };

    ghost taken = { λ _. [] };

    ghost calls = { λ s. s.calls };

    ghost failures = { λ s. s.failures };

    fn write(&mut self, piece: &[u8]) -> Result<usize, DeviceFault> {
        self.calls = self.calls.saturating_add(1);
        if self.bytes.extend_from_slice(piece).is_err() {
            self.failures = self.failures.saturating_add(1);
            return Err(DeviceFault);
        }
        Ok(piece.len())
    }
}
