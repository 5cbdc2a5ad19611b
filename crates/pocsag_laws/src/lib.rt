#![tactic(auto)]
//! Laws that no call needs: of codewords and certificates, of the tours and file orders of a round, of what an accepted
//! tree bounds, of readings and journals; of the fewest batches of a round: how those of the three ends compare, that
//! they never grow when pages are taken away, and that they take the least airtime; of page files and open rounds, which
//! hold rounds, whose own page files have the same verdict; of lines of JSON, which are read back; of queues, which keep
//! their order, and of pages that alone need too many batches; and of captures, which say one thing and list what was sent
//! as whole, those of transmissions their pages and no others, noise nothing, and preambles nothing.
//! Nothing here runs: each function is a theorem.

mod bound;
mod captures;
mod certificate;
mod codeword;
mod journal;
mod laws;
mod lines;
mod order;
mod queue;
mod readings;
mod tour;

pub use bound::{
    accepted_trees_bound, accepted_trees_have_texts, accepted_trees_hold,
    tight_headlines_are_headlines,
};
pub use captures::{
    captured_pages_are_shown, captures_list_what_was_sent_as_whole, captures_show_what_was_sent,
    transmissions_are_captured,
};
pub use certificate::one_certificate;
pub use codeword::{codewords_differ, kinds_have_one_codeword};
pub use journal::{
    a_prefix_is_read, journals_read_as_one, lines_are_short, pages_of_lines_have_lines,
    texts_have_one_reason,
};
pub use laws::{
    captures_of_transmissions_show_no_others, captures_say_one_thing, clean_preambles_are_quiet,
    fewer_pages_need_no_more, fewest_batches_take_least_time, one_number_is_fewest,
    pages_of_open_rounds_are_spellable, stricter_ends_are_legal, verdicts_are_rounds,
};
pub use lines::json_lines_are_read_back;
pub use order::{pages_have_one_file_order, tours_have_one_order};
pub use queue::{oversized_pages_need_more, queues_keep_order};
pub use readings::{
    listed_fields_are_read_back, no_fault_is_a_reading, readings_are_one, repaired_pages_are_heard,
};
pub use tour::{
    no_transmission_has_fewer, spare_batches_have_tours, tours_are_transmissions,
    transmissions_are_tours,
};
