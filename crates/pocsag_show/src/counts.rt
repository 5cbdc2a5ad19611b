/// The counts of a transmission.
#[derive(Clone, Copy)]
pub(crate) struct Counts {
    pub(crate) batches: u64,
    /// The codewords of pages.
    pub(crate) codewords: u64,
    pub(crate) idles: u64,
}
