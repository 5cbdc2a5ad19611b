use pocsag_slots::Way;

/// How a node is reached from the one above it.
#[derive(Clone, Copy)]
pub enum Reached {
    /// It is the root.
    Root,
    /// By the first child of a split: fewer than `m` pages of the class start early.
    Below,
    /// By the second child of a split: at least `m` pages of the class start early.
    From,
    /// By a way out of a cut, or a way to close.
    By(Way),
    /// The rule of a node above it does not hold, so that nothing says under which limits it stands.
    Unreached,
}

/// The least that the pages of one class cover of a set of slots.
#[derive(Clone, Copy)]
pub struct Share {
    pub class: u8,
    pub pages: u32,
    /// How many codewords of these pages stand in slots of the set at the least.
    pub least: u64,
}

/// How many pages of one class start early under the limits of a node, where that may not be any number of them.
#[derive(Clone, Copy)]
pub struct Narrowed {
    pub class: u8,
    pub pages: u32,
    pub lo: u32,
    pub hi: u32,
}

/// What must stand in one slot under the limits of a node, and how much may.
#[derive(Clone, Copy)]
pub struct Column {
    /// The least load of the slot.
    pub least: u64,
    /// How often pages may cover it.
    pub room: u32,
}

/// What a node states, with the numbers that its rule compares.
#[derive(Clone, Copy)]
pub enum Fact {
    /// At least so many codewords of pages stand in the slots of the set, and there is room for so many.
    Overload {
        set: u16,
        least: u64,
        room: u64,
    },
    /// Fewer than `m` pages of the class start early, or at least `m` do; the limits allow `lo` to `hi`
    /// (0 and 0 for a class that there is not).
    Split {
        class: u8,
        m: u16,
        lo: u32,
        hi: u32,
    },
    /// Some page of the class has an end outside the set of boundaries, so that one of so many ways is taken.
    Cut {
        set: u16,
        needed: u8,
        is_certain: bool,
        ways: usize,
        children: usize,
    },
    /// A transmission that ends as the end asks for does so in one of so many ways.
    Close {
        ways: usize,
        children: usize,
    },
    /// The node was not examined.
    Open,
    /// A node below one whose rule does not hold.
    Unjudged,
}

/// What is found of one node of a tree.
#[derive(Drop)]
pub struct Finding {
    /// How deep the node stands; the root alone has depth 1.
    pub depth: u32,
    pub reached: Reached,
    pub fact: Fact,
    /// Of an overload the classes that must cover some of the set, in order; of another node nothing.
    pub shares: Vec<Share>,
    /// Of the root and the nodes right below it the sixteen slots, in order; of another node nothing.
    pub columns: Vec<Column>,
    /// The classes that the limits of the node narrow, in order; of a node that is not judged nothing.
    pub narrowed: Vec<Narrowed>,
    /// How often pages may cover each of the sixteen slots under these limits, in order; of a node that is not judged
    /// nothing.
    pub caps: Vec<u32>,
    /// Whether the node's own rule holds, whatever lies below it.
    pub holds: bool,
}
