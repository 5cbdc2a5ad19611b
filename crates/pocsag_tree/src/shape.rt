use pocsag_words::End;

/// A bound tree: why a round needs a number of batches. It is plain data, with any field values.
///
/// A tree may be of any depth. Dropping one goes as deep on the stack as the tree does.
#[derive(Drop, Debug)]
pub enum Tree {
    /// The slots of this set must overflow: bit `i` stands for slot `i`.
    Overload(u16),
    /// Two cases: fewer than `m` pages of the class start early, or `m` and more.
    Split {
        class: u8,
        m: u16,
        below: Box<Tree>,
        from: Box<Tree>,
    },
    /// The boundaries of this set (bit `i` stands for boundary `i`) have to be left somehow, since a
    /// page of the needed class has an end outside: one child for each way to do it.
    Cut {
        set: u16,
        needed: u8,
        children: Vec<Tree>,
    },
    /// The transmission has to end somehow: one child for each way to close it.
    Close {
        children: Vec<Tree>,
    },
    /// Not examined.
    Open,
}

/// What a certificate says: the end, the number of batches and the tree that refutes fewer.
#[derive(Drop, Debug)]
pub struct Certificate {
    pub end: End,
    pub batches: u32,
    pub tree: Tree,
}
