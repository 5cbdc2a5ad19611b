#![tactic(auto)]
//! The decoder of transmissions, which takes them in pieces of any size and keeps no bytes, and the
//! listing of pages (Recommendation ITU-R M.584-2, Annex 1).

mod body;
mod decoder;
mod fault;
mod judge;
mod laws;
mod lister;
mod listing;
mod open_page;
mod page_reader;
mod partial_word;
mod repair;
mod repaired;
mod state;
mod whole;

pub use fault::{DecodeFault, ListFault};
pub use judge::judge_bytes;
pub use laws::{
    readings_have_no_fault, readings_of_bytes_are_one, recall_page_files_are_read_back,
    recall_pages_of_files_are_spellable, recall_repair_restores,
};
pub use lister::{list_owned, list_sent};
pub use listing::{
    kind_of_page, list, message_of, whole_message, write_many_records, write_page_file,
    write_records,
};
pub use open_page::{OpenPage, PageCollector};
pub use page_reader::{PageReader, PageSource};
pub use repair::repair_all;
pub use repaired::Repaired;
pub use state::Decoder;
pub use whole::decode;
