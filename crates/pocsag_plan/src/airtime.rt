/// What a plan takes on the air at a rate. Its text is seven lines, each the name of a field and its
/// number.
#[derive(Clone, Copy, PartialEq, Eq)]
pub struct Report {
    /// How many pages there are.
    pub pages: u32,
    /// How many codewords the pages have.
    pub codewords: u32,
    /// How many batches they take in file order, with the open end.
    pub in_order: u32,
    /// The batches of the plan: the fewest, or if no round is refused at most one more.
    pub batches: u32,
    /// How many idle codewords fill the batches.
    pub idles: u64,
    /// How many bits the transmission has, the preamble and the synchronisation codewords among them.
    pub bits: u64,
    /// How long it lasts in milliseconds, rounded up.
    pub airtime_ms: u64,
}

/// What a plan takes on the air, and its bound: no transmission of the round has fewer batches.
#[derive(Clone, Copy)]
pub struct BoundedReport {
    pub report: Report,
    pub bound: u32,
}
