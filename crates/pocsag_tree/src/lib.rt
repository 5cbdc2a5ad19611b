#![tactic(auto)]
//! Bound trees, which show why fewer batches do not suffice, and certificates, their one spelling
//! as bytes.

mod count;
mod limits;
mod reader;
mod refusals;
mod shape;
mod writer;

pub use count::{depth, nodes};
pub use limits::{DEPTH_LIMIT, FIRST_VERSION, NODE_LIMIT, Ranges, SECOND_VERSION};
pub use reader::read_certificate;
pub use refusals::{CertificateFault, TreeWriteFault};
pub use shape::{Certificate, Tree};
pub use writer::{write_certificate, write_text};
