use crate::role::Role;
use std::cell::{Cell, RefCell};

/// Why a file or a stream was refused.
#[derive(Clone, Copy)]
pub(crate) enum RefusalCause {
    /// The system refused a call, and gave this error number, if it gave one.
    System(Option<i32>),
    /// The command itself refuses the file.
    Own,
    /// The file is too large.
    OverLimit,
}

/// What one call of the program keeps for the line that `--verbose` adds: the last call that the system refused, and a
/// note of the command itself.
#[derive(Drop)]
pub struct Diagnostics {
    is_asked: bool,
    refused_call: Cell<Option<(Role, RefusalCause)>>,
    pub(crate) note: RefCell<Option<String>>,
}

impl Diagnostics {
    /// No diagnostics yet. `is_asked` says whether the user gave `--verbose`.
    pub(crate) fn new(is_asked: bool) -> Diagnostics {
        Diagnostics {
            is_asked,
            refused_call: Cell::new(None),
            note: RefCell::new(None),
        }
    }

    /// Records that the system refused a call on a file or a stream.
    pub fn note_system_error(&self, role: Role, code: Option<i32>) {
        self.refused_call
            .set(Some((role, RefusalCause::System(code))));
    }

    /// Records that the command refuses a file, unless the system refused a call before.
    pub fn note_refusal(&self, role: Role) {
        let refused_call = self
            .take_refused_call()
            .unwrap_or((role, RefusalCause::Own));
        self.refused_call.set(Some(refused_call));
    }

    /// Records that a file is too large.
    pub fn refuse_large(&self, role: Role) {
        self.refused_call.set(Some((role, RefusalCause::OverLimit)));
    }

    /// The last refused call. It is forgotten.
    pub(crate) fn take_refused_call(&self) -> Option<(Role, RefusalCause)> {
        self.refused_call.replace(None)
    }

    /// Whether the user gave `--verbose`.
    pub fn is_asked(&self) -> bool {
        self.is_asked
    }
}
