#![tactic(auto)]
//! Pages, rounds of pages and page files; and, in `specs/`, what a transmission says: readings,
//! legal transmissions and their bytes (Recommendation ITU-R M.584-2, Annex 1).

mod address_marks;
mod csv_row;
mod fault;
mod file;
mod file_head;
mod header_front;
mod laws;
mod list;
mod page;
mod preamble;
mod queue;
mod quote_place;
mod quote_state;
mod quotes;
mod record;
mod round;
mod round_builder;
mod row_reader;
mod rule;
mod whole;

pub use csv_row::only_row;
pub use fault::{FieldFault, PageFault, QuoteFault, RecordFault, RoundFault, WholeFault};
pub use file::{FILE_LIMIT, held_pages, read_pages, read_round, round_of};
pub use laws::{readings_are_plain, rounds_are_apart};
pub use page::{LAST_ADDRESS, Page, Payload};
pub use pocsag_words::{BATCH_BITS, PREAMBLE_BITS, SYNC_WORD};
pub use preamble::preamble_len;
pub use queue::{first_pages, left_pages};
pub use quote_state::{QuoteState, behind_mark};
pub use quotes::quote_fault;
pub use record::{page_of_fields, parse_address};
pub use round::{PAGE_LIMIT, Round};
pub use rule::{ITEM_LIMIT, is_reserved_address, page_fault};
pub use whole::read_whole;
