use pocsag_words::{DeviceFault, Source};

/// A page file of one page and empty lines.
#[derive(Drop)]
pub struct LongFile {
    text: &'static [u8],
    left: usize,
    calls: u64,
}

impl Source for LongFile {
    ghost use Rattle.std.specs.Prelude.{[], false};

    ghost is_known = { ⊥ };

    ghost held = { λ _. [] };

    ghost is_cut = { λ _. false };

    ghost calls = { λ s. s.calls };

    ghost failures = { λ _. 0 };

    fn read(&mut self, buffer: &mut [u8]) -> Result<usize, DeviceFault> {
        self.calls = self.calls.saturating_add(1);
        let mut count = self.left.min(buffer.len());
        if self.text.is_empty() {
            buffer[..count].fill(b'\n');
        } else {
            count = count.min(self.text.len());
            let (front, rest) = self.text.split_at(count);
            buffer[..count].copy_from_slice(front);
            self.text = rest;
        }
        self.left -= count;
        Ok(count)
    }
}

impl LongFile {
    pub fn new(length: usize) -> LongFile {
        LongFile {
            text: b"address,kind,message\n8,tone0,\n",
            left: length,
            calls: 0,
        }
    }
}
