use crate::device::{DeviceFault, Source};

/// A source that holds the bytes of a slice. No call of it fails.
#[derive(Drop)]
pub struct SliceSource<'a> {
    rest: &'a [u8],
    calls: u64,
}

impl<'a> SliceSource<'a> {
    ghost use Rattle.std.specs.Prelude.{◌≡◌};
    ghost use Rattle.pocsag_words.specs.SliceSource.{rest_of, slice_calls};

    /// The source of these bytes.
    pub fn new(bytes: &'a [u8]) -> SliceSource<'a>
        ensures rest { rest_of result ≡ bytes.now }
        ensures calls { slice_calls result ≡ 0 }
    {
        SliceSource {
            rest: bytes,
            calls: 0,
        }
    }
}

impl<'a> Source for SliceSource<'a> {
    ghost use Rattle.std.specs.Prelude.{false};
    ghost use Rattle.pocsag_words.specs.SliceSource.{rest_of, slice_calls};

    ghost is_known = { Unit {0} };

    ghost held = { rest_of };

    ghost is_cut = { λ _. false };

    ghost calls = { slice_calls };

    ghost failures = { λ _. 0 };

    fn read(&mut self, buffer: &mut [u8]) -> Result<usize, DeviceFault> {
        self.calls = self.calls.saturating_add(1);
        let count = self.rest.len().min(buffer.len());
        buffer[..count].copy_from_slice(&self.rest[..count]);
        self.rest = &self.rest[count..];
        Ok(count)
    }

    fn lent(&self) -> Option<&[u8]> {
        Some(self.rest)
    }
}
