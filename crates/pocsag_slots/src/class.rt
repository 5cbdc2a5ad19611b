ghost use Rattle.std.specs.Prelude.{◌≡◌, ◌<◌, length};
ghost use Rattle.pocsag_slots.specs.Classes.{class_count};
ghost use Rattle.pocsag_slots.specs.Tables.{AreTables};

/// How many classes of pages there are.
pub const CLASSES: usize = 136;

/// How many slots, and how many boundaries, a batch has.
pub const SLOTS: usize = 16;

// The same as the numbers that classes, slots and boundaries are.
pub(crate) const CLASS_COUNT: u8 = CLASSES as u8;

pub(crate) const SLOT_COUNT: u8 = SLOTS as u8;

// The first class of an address codeword alone, in frame 0; only the closed end has them.
pub(crate) const FIRST_BARE: u8 = 128;

/// A class of pages by its number: the pages of a class start and end alike.
#[derive(Clone, Copy)]
pub struct Class {
    pub number: u8,
    pub ghost known: { number < class_count },
}

/// The pages of a round by classes: how many pages are in each class, and how many whole turns they
/// take together.
#[derive(Clone, Copy, PartialEq, Eq)]
pub struct Classes {
    pub count: [u32; CLASSES],
    pub turns: [u32; CLASSES],
    pub ghost tables: { AreTables count turns },
}

/// How many pages of each class start early; the others start late.
#[derive(Clone, Copy, PartialEq, Eq, Debug)]
pub struct Choice {
    pub early: [u32; CLASSES],
    pub ghost long: { length early ≡ class_count },
}
