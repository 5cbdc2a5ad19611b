ghost use Rattle.std.specs.IoError.{error_kind};
ghost use Rattle.std.specs.Prelude.{◌≡◌, ◌≢◌, IfErr, IfOk, IsErrOf, Ok, OnErr};

use crate::devices::SystemDevice;
use crate::diagnostics::{Diagnostics, RefusalCause};
use crate::fault::{Failure, FileFault};
use crate::files::one_file;
use crate::lines::print_fault;
use crate::note::print_note;
use crate::role::{NamedFile, Role};
use crate::streams::TextOutput;
use pocsag_pages::FILE_LIMIT;
use std::alloc::{AllocError, Global};
use std::fmt::Display;
use std::io::{self, ErrorKind, Stderr};

/// What each step of a command needs: the runtime, the allocator, and the diagnostics for `--verbose`.
#[derive(Clone, Copy)]
pub struct Context<'a> {
    pub rt: &'a HostRuntime,
    pub alloc: Global,
    pub diagnostics: &'a Diagnostics,
}

impl<'a> Context<'a> {
    /// The result of opening or making a file, as a fault of the command if the system refused it.
    pub fn opened<T: Drop>(&self, role: Role, found: io::Result<T>) -> Result<T, FileFault>
        ensures kept { IfOk found (λ file. result ≡ Ok file) }
        ensures memory { IfErr found (λ error. error_kind error ≡ ErrorKind.OutOfMemory →
            IsErrOf result FileFault.OutOfMemory) }
        ensures fault { IfErr found (λ error. error_kind error ≢ ErrorKind.OutOfMemory →
            IsErrOf result FileFault.Device) }
    {
        found.map_err(|error| {
            if error.kind() == ErrorKind::OutOfMemory {
                return FileFault::OutOfMemory;
            }
            self.diagnostics
                .note_system_error(role, error.raw_os_error());
            FileFault::Device
        })
    }

    /// The result of writing, renaming or synchronising a file, as a fault of the command if the system refused it.
    pub fn written(&self, role: Role, done: io::Result<()>) -> Result<(), FileFault>
        ensures kept { IfOk done (λ unit. result ≡ Ok unit) }
        ensures fault { OnErr done (IsErrOf result FileFault.Write) }
    {
        done.map_err(|error| {
            self.diagnostics
                .note_system_error(role, error.raw_os_error());
            FileFault::Write
        })
    }

    /// Standard output, for text.
    pub fn out(&self) -> SystemDevice<'a, TextOutput> {
        SystemDevice::new(TextOutput::new(self.rt), Role::Output, self.diagnostics)
    }

    /// Standard error.
    pub fn err(&self) -> SystemDevice<'a, Stderr> {
        SystemDevice::new(self.rt.stderr(), Role::Output, self.diagnostics)
    }

    /// Keeps a note for `print_more`, in place of an earlier one, if the user gave `--verbose`. It keeps none if
    /// memory runs out.
    pub fn note<D: Display + Drop>(&self, text: D) {
        if self.diagnostics.is_asked() {
            let _ = self
                .diagnostics
                .note
                .try_replace(text.to_string(self.alloc).ok());
        }
    }

    /// Adds the line of `--verbose` on standard error: the note that was kept, or else which file the system refused last
    /// and why, or which file the command refused. All are then forgotten. If standard error fails the line is lost.
    pub fn print_more(&self, files: &[NamedFile<'_>]) {
        if !self.diagnostics.is_asked() {
            return;
        }
        let kept = self.diagnostics.note.try_replace(None).ok().flatten();
        let printed = match (kept, self.diagnostics.take_refused_call()) {
            (None, Some(refused_call)) => self.refused_call_text(files, refused_call).ok(),
            (kept, _) => kept,
        };
        if let Some(printed) = printed {
            let _ = print_note(self.alloc, &mut self.err(), printed.as_str());
        }
    }

    // The file of a refused call, and the system's reason; or, where the command refused it, the two files that are one, if two are.
    fn refused_call_text(
        &self,
        files: &[NamedFile<'_>],
        (role, refusal): (Role, RefusalCause),
    ) -> Result<String, AllocError> {
        let place = role.among(files);
        match refusal {
            RefusalCause::Own => match one_file(self.rt, files) {
                Some((one, other)) => { format!(in self.alloc; "{one} and {other} are one file") }
                None => format!(in self.alloc; "{place}"),
            },
            RefusalCause::OverLimit => {
                format!(in self.alloc; "{place}: more than {FILE_LIMIT} bytes")
            }
            RefusalCause::System(Some(code)) => {
                let reason = io::Error::from_raw_os_error(code);
                format!(in self.alloc; "{place}: {reason}")
            }
            RefusalCause::System(None) => {
                format!(in self.alloc; "{place}: the system took nothing and told no reason")
            }
        }
    }

    /// Forgets which file the system refused, since a command that did what it was asked has no fault.
    pub fn forget_refused_call(&self) {
        let _ = self.diagnostics.take_refused_call();
    }

    /// Ends a command: writes its fault to standard error, and the line of `--verbose` behind it. Returns the exit status.
    pub fn end<F: Failure>(&self, files: &[NamedFile<'_>], done: Result<u8, F>) -> u8
        ensures done { IfOk done (λ status. result ≡ status) }
        ensures fault { IfErr done (λ fault. result ≡ F.status_is fault) }
    {
        let status = match done {
            Ok(status) => {
                self.forget_refused_call();
                status
            }
            Err(fault) => print_fault(&mut self.err(), fault),
        };
        self.print_more(files);
        status
    }
}
