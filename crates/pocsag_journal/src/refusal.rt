ghost use Rattle.std.specs.Prelude.{◌≡◌};

use pocsag_pages::FieldFault;
use pocsag_plan::{AddFault, NotThere};
use pocsag_shell::FileFault;
use thiserror::Error;

/// Why a line that asks for something else than an edit was refused.
#[derive(Clone, Copy, Debug, Error)]
pub enum UndoneFault {
    /// A fault of one of the two files of a plan.
    #[error(transparent)]
    File(FileFault),
    #[error("there are no pages")]
    NoPages,
    /// The search stopped: at least so many batches are needed, and one more would do.
    #[error("search limit reached: at least {least} batches, {found} would do")]
    SearchLimit { least: u32, found: u32 },
    /// Not even the first page fits into the batches of a slot: it needs this many.
    #[error("page 1 needs {0} batches")]
    FirstPage(u32),
    #[error("out of memory")]
    OutOfMemory,
}

/// Why an edit is refused. The round is as it was.
#[derive(Clone, Copy, Debug)]
pub enum Refusal {
    Unknown,
    /// A quote of the line's last field is not closed.
    InQuotes,
    /// A quote is inside a field without quotes, or something other than a comma follows a closing quote.
    StrayQuote,
    /// The fields spell no page.
    Field(FieldFault),
    /// The page may not follow the others.
    Add(AddFault),
    Cancel(NotThere),
    /// What was asked could not be done.
    Undone(UndoneFault),
}

impl Refusal {
    ghost use Rattle.pocsag_journal.specs.Runs.{wants_memory};

    /// Whether an edit was refused because memory was refused.
    pub fn wants_memory(self) -> bool
        ensures { result ≡ wants_memory self }
    {
        matches!(
            self,
            Refusal::Field(FieldFault::OutOfMemory) | Refusal::Add(AddFault::OutOfMemory)
        )
    }
}
