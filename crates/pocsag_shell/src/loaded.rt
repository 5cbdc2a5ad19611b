ghost use Rattle.std.specs.Prelude.{◌≤◌, length};

use pocsag_words::{DeviceFault, Source};
use std::alloc::Global;
use std::mem;

/// What was read of a file or a stream, as a source over memory: its bytes up to its end, or, if the system refused to read
/// on, those before that place, at which every call fails.
#[derive(Drop)]
pub struct LoadedFile {
    alloc: Global,
    bytes: Vec<u8>,
    // How many of them were read.
    place: usize,
    is_cut: bool,
    calls: u64,
    failures: u64,
    ghost within: { place ≤ length bytes.items },
}

impl LoadedFile {
    ghost use Rattle.std.specs.Prelude.{◌≡◌};
    ghost use Rattle.pocsag_shell.specs.Loads.{left_in, loads_are_cut, loads_called, loads_failed};

    /// The source of these bytes, behind which the system refused to read on if it is cut.
    pub fn new(alloc: Global, bytes: Vec<u8>, is_cut: bool) -> LoadedFile
        ensures held { left_in result ≡ bytes.items }
        ensures cut { loads_are_cut result ≡ is_cut }
        ensures calls { loads_called result ≡ 0 }
        ensures failures { loads_failed result ≡ 0 }
    {
        LoadedFile {
            alloc,
            bytes,
            place: 0,
            is_cut,
            calls: 0,
            failures: 0,
        }
    }
}

impl Source for LoadedFile {
    ghost use Rattle.pocsag_shell.specs.Loads.{left_in, loads_are_cut, loads_called, loads_failed};

    ghost is_known = { Unit {0} };

    ghost held = { left_in };

    ghost is_cut = { loads_are_cut };

    ghost calls = { loads_called };

    ghost failures = { loads_failed };

    fn read(&mut self, buffer: &mut [u8]) -> Result<usize, DeviceFault> {
        self.calls = self.calls.saturating_add(1);
        let (_, rest) = self.bytes.as_slice().split_at(self.place);
        if rest.is_empty() && self.is_cut {
            self.failures = self.failures.saturating_add(1);
            return Err(DeviceFault);
        }
        let count = rest.len().min(buffer.len());
        buffer[..count].copy_from_slice(&rest[..count]);
        self.place += count;
        Ok(count)
    }

    fn lent(&self) -> Option<&[u8]> {
        if self.is_cut {
            return None;
        }
        Some(&self.bytes[self.place..])
    }

    fn take_all(&mut self) -> Option<Vec<u8>> {
        if self.is_cut || self.place > 0 {
            return None;
        }
        Some(mem::replace(&mut self.bytes, Vec::new(self.alloc)))
    }
}
