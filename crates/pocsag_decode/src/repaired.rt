/// How much of a transmission was repaired.
#[derive(Clone, Copy, PartialEq, Eq, Debug)]
pub struct Repaired {
    /// In how many words bits were wrong, synchronisation codewords included.
    pub words: u64,
    /// How many bits were wrong.
    pub bits: u64,
}
