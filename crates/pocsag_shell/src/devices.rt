ghost use Rattle.std.specs.Prelude.{◌≡◌, [], false};

use crate::diagnostics::Diagnostics;
use crate::role::Role;
use pocsag_words::{DeviceFault, Sink, Source};
use std::io::{Read, Write};

/// A reader of the system as a `Source`, or a writer of the system as a `Sink`. It records each refused call in the diagnostics.
/// Every error counts as a failure, an interruption too, and so does a write that takes nothing of a non-empty piece. Contracts
/// know nothing of its bytes.
#[derive(Drop)]
pub struct SystemDevice<'a, T: Drop> {
    stream: T,
    /// What the file is to the command.
    pub(crate) role: Role,
    diagnostics: &'a Diagnostics,
    calls: u64,
    failures: u64,
}

impl<'a, T: Drop> SystemDevice<'a, T> {
    /// A device over the reader or the writer of a file with this role.
    pub fn new(stream: T, role: Role, diagnostics: &'a Diagnostics) -> SystemDevice<'a, T> {
        SystemDevice {
            stream,
            role,
            diagnostics,
            calls: 0,
            failures: 0,
        }
    }
}

impl<'a, R: Read + Drop> Source for SystemDevice<'a, R> {
    ghost is_known = { ⊥ };

    ghost held = { λ _. [] };

    ghost is_cut = { λ _. false };

    ghost calls = { λ s. s.calls };

    ghost failures = { λ s. s.failures };

    fn read(&mut self, buffer: &mut [u8]) -> Result<usize, DeviceFault> {
        self.calls = self.calls.saturating_add(1);
        match self.stream.read(buffer) {
            Ok(count) => Ok(count),
            Err(error) => {
                self.diagnostics
                    .note_system_error(self.role, error.raw_os_error());
                self.failures = self.failures.saturating_add(1);
                Err(DeviceFault)
            }
        }
    }
}

impl<'a, W: Write + Drop> Sink for SystemDevice<'a, W> {
    ghost is_known = { ⊥ };

    ghost taken = { λ _. [] };

    ghost calls = { λ s. s.calls };

    ghost failures = { λ s. s.failures };

    fn write(&mut self, piece: &[u8]) -> Result<usize, DeviceFault> {
        self.calls = self.calls.saturating_add(1);
        match self.stream.write(piece) {
            Ok(count) if count > 0 || piece.is_empty() => return Ok(count),
            Ok(_) => self.diagnostics.note_system_error(self.role, None),
            Err(error) => self
                .diagnostics
                .note_system_error(self.role, error.raw_os_error()),
        }
        self.failures = self.failures.saturating_add(1);
        Err(DeviceFault)
    }
}
