#![tactic(auto)]
//! The group of the open round: a round as a process, in which each line of an input is an edit or asks for the list or a plan,
//! and is answered at once by one line. The session itself knows no file: who calls it hands in what makes and places the two
//! outputs of a plan. Beside it stand the files of the command `open`: those of its plans, and its journal.

mod answer;
mod fault;
mod group;
mod journal_file;
mod kept_round;
mod kept_streams;
mod line_note;
mod lines;
mod outputs;
mod refused;
mod round_files;
mod round_plan;
mod session;
mod words;

pub use answer::{KeptRound, answer_edit};
pub use fault::OpenFault;
pub use group::RoundGroup;
pub use kept_streams::{KeptStreams, open_kept};
pub use lines::LINE_LIMIT;
pub use outputs::OutputStore;
pub use pocsag_journal::{Keeper, NoKeeper, Refusal, UndoneFault, edit_row};
pub use refused::refuse;
pub use session::{PlanSettings, run_open, run_open_kept, run_open_pages};
