use crate::counts::Counts;
use crate::page_numbers::PageNumbers;

/// What a transmission was found to be.
#[derive(Drop)]
pub(crate) struct Judged<'a> {
    pub(crate) bytes: &'a [u8],
    pub(crate) numbers: PageNumbers,
    pub(crate) counts: Counts,
}
