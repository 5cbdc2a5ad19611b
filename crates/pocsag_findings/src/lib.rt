#![tactic(auto)]
//! What a certificate shows, node by node: what each node states, and whether its own rule holds. A tree is accepted
//! exactly where all of them do. And the same in words: as an indented list, as JSON, and as a drawing.

mod columns;
mod drawing;
mod explained;
mod fault;
mod finding;
mod format;
mod json;
mod judgement;
mod kind;
mod level;
mod limit;
mod lines;
mod listing;
mod node_number;
mod outline;
mod position;
mod refuted;
mod sentences;
mod sets;
mod walk;

pub use explained::{JudgedCertificate, write_explanation};
pub use fault::ExplanationFault;
pub use finding::{Column, Fact, Finding, Narrowed, Reached, Share};
pub use format::Format;
pub use listing::findings;
