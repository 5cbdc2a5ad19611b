#![tactic(auto)]
//! What the groups of commands share: the faults of files, how a command opens and makes files, the lines on standard error,
//! and how the words of the command line become a call of a command. The crate knows neither the commands nor the planner.

mod answer;
mod context;
mod devices;
mod diagnostics;
mod error_stream;
mod fault;
mod files;
mod folder;
mod group;
mod left_over;
mod lines;
mod loaded;
mod memory_streams;
mod note;
mod page_note;
mod paths;
mod placement;
mod program;
mod role;
mod staged_file;
mod streams;
mod system_folder;
mod tables;
mod transmission;
mod words;

pub use answer::{CommandAnswer, print_answer};
pub use context::Context;
pub use devices::SystemDevice;
pub use diagnostics::Diagnostics;
pub use error_stream::ErrorStream;
pub use fault::{Failure, FileFault};
pub use files::{
    CERT_READ, KEPT_BYTES, OpenedFiles, Outputs, PAGES_READ, is_kept, is_regular, is_unkept, load,
    load_both, load_file, open_output, open_outputs, open_source, refuse_input, refuse_one_file,
    refuse_shared, write_over,
};
pub use folder::Folder;
pub use group::{Call, Group, GroupPair, Tables};
pub use lines::{print_fault, print_numbers, put_whole};
pub use loaded::LoadedFile;
pub use memory_streams::MemoryStreams;
pub use page_note::{Excerpt, first_asked, note_record};
pub use paths::{Named, equal_paths, refuse_equal};
pub use placement::put_files;
pub use program::run;
pub use role::{NamedFile, Role};
pub use staged_file::StagedFile;
pub use streams::{FileOr, Input, Output, TextOutput};
pub use system_folder::{SystemFolder, put_staged};
pub use tables::command;
pub use transmission::read_transmission;
pub use words::{
    ALWAYS, ALWAYS_FLAG, ArgForm, ArgSpec, ArgType, CERT, CERT_PLACE, CommandSpec, EXPECT, FLAG,
    KEEP, KEEP_FLAG, PAGES, PAGES_PLACE, PLACE, STANDARD, STRICT, SVG, TX, TX_PLACE, path_of,
};
