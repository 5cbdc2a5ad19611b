/// How deep the tree of a certificate may be; the root alone has depth 1.
pub const DEPTH_LIMIT: u32 = 300;

/// How many nodes a certificate may have, `Open` nodes counted.
pub const NODE_LIMIT: u32 = 1_000_000;

/// The greatest numbers that the fields of one version of certificates may have.
#[derive(Clone, Copy)]
pub struct Ranges {
    /// The greatest class.
    pub class: u8,
    /// The greatest number `m` of a `Split`.
    pub m: u16,
    /// The greatest number of children of a `Cut`.
    pub children: u16,
    /// The greatest tag: 3 where there is no `Close`, and 4 where there is.
    pub tag: u8,
}

/// The ranges of version PCB1, a shorter form for the open end, which is read but never written.
pub const FIRST_VERSION: Ranges = Ranges {
    class: 127,
    m: 2_000,
    children: 272,
    tag: 3,
};

/// The ranges of versions PCB2 and PCB4, which are written: PCB4 for the idle end, and PCB2 for the others.
pub const SECOND_VERSION: Ranges = Ranges {
    class: 135,
    m: 20_000,
    children: 288,
    tag: 4,
};
