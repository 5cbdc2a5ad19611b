use crate::device::{DeviceFault, Sink};
use std::alloc::Global;

/// A sink that keeps what it takes, and fails only where memory for it is refused.
#[derive(Drop)]
pub struct GrowingSink {
    bytes: Vec<u8>,
    calls: u64,
    failures: u64,
}

impl GrowingSink {
    ghost use Rattle.std.specs.Prelude.{◌≡◌, []};
    ghost use Rattle.pocsag_words.specs.GrowingSink.{growing_calls, growing_failures, kept_by};

    /// An empty sink.
    pub fn new(alloc: Global) -> GrowingSink
        ensures kept { kept_by result ≡ [] }
        ensures calls { growing_calls result ≡ 0 }
        ensures failures { growing_failures result ≡ 0 }
    {
        GrowingSink {
            bytes: Vec::new(alloc),
            calls: 0,
            failures: 0,
        }
    }

    /// The bytes that were taken.
    pub fn into_bytes(self) -> Vec<u8>
        ensures { result.items ≡ kept_by self }
    {
        self.bytes
    }
}

impl Sink for GrowingSink {
    ghost use Rattle.pocsag_words.specs.GrowingSink.{growing_calls, growing_failures, kept_by};

    ghost is_known = { Unit {0} };

    ghost taken = { kept_by };

    ghost calls = { growing_calls };

    ghost failures = { growing_failures };

    fn write(&mut self, piece: &[u8]) -> Result<usize, DeviceFault> {
        self.calls = self.calls.saturating_add(1);
        match self.bytes.extend_from_slice(piece) {
            Ok(()) => Ok(piece.len()),
            Err(_) => {
                self.failures = self.failures.saturating_add(1);
                Err(DeviceFault)
            }
        }
    }
}
