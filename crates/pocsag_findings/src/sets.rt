//! Sets of slots and boundaries, and counts, in words.
ghost use Rattle.std.specs.Prelude.{◌≡◌};
ghost use Rattle.pocsag_findings.specs.Sides.{named_side, side_note};

use pocsag_slots::{CLASSES, SLOTS, holds, size, start};
use std::fmt::{self, Display, Formatter};

/// How many slots a batch has, as a number of the kind that a slot is.
pub(crate) const BATCH_SLOTS: u8 = SLOTS as u8;

// How many frames of two slots.
const BATCH_FRAMES: u8 = BATCH_SLOTS / 2;

/// The first class of address codewords alone, which the closed end has, one to a frame.
pub(crate) const FIRST_ALONE: u8 = CLASSES as u8 - BATCH_FRAMES;

const ALL_SLOTS: u16 = u16::MAX;

// The first slot of each frame.
const FIRST_SLOTS: u16 = 0x5555;

/// A number of things: `1 page`, `2 pages`.
#[derive(Clone, Copy)]
pub(crate) struct Counted<'a>(pub(crate) u64, pub(crate) &'a str);

impl Display for Counted<'_> {
    fn fmt<W: fmt::Write>(&self, f: &mut Formatter<W>) -> fmt::Result {
        let Counted(number, thing) = *self;
        let ending = match number {
            1 => "",
            _ if thing.ends_with("ch") => "es",
            _ => "s",
        };
        write!(f, "{number} {thing}{ending}")
    }
}

/// The word for one thing, and for several.
pub(crate) type Noun = (&'static str, &'static str);

pub(crate) const BOUNDARY: Noun = ("boundary", "boundaries");

/// Things of a batch, by the set of their numbers: `boundary 0`, `slots 0, 4 to 7 and 15`.
#[derive(Clone, Copy)]
pub(crate) struct Members(pub(crate) Noun, pub(crate) u16);

impl Display for Members {
    fn fmt<W: fmt::Write>(&self, f: &mut Formatter<W>) -> fmt::Result {
        let Members((one, several), set) = *self;
        let word = if size(set) == 1 { one } else { several };
        write!(f, "{word} ")?;
        // A member between two others is not reported. Where a span of three or more ends, it is no item of its own.
        let told = set & !(set << 1 & set >> 1);
        let items = told & !(set << 1 & set << 2);
        for member in 0..BATCH_SLOTS {
            if holds(told, member) {
                let link = if !holds(items, member) {
                    " to "
                } else if items.trailing_zeros() == u32::from(member) {
                    ""
                } else if items >> member == 1 {
                    " and "
                } else {
                    ", "
                };
                write!(f, "{link}{member}")?;
            }
        }
        Ok(())
    }
}

/// Whether each frame that has a slot in the set has both.
pub(crate) fn are_frames(set: u16) -> bool {
    (set ^ set >> 1) & FIRST_SLOTS == 0
}

/// A set of slots, in frames where they are whole ones: `frame 5 (slots 10 and 11)`.
#[derive(Clone, Copy)]
pub(crate) struct SlotWords(pub(crate) u16);

impl Display for SlotWords {
    fn fmt<W: fmt::Write>(&self, f: &mut Formatter<W>) -> fmt::Result {
        let set = self.0;
        if set == ALL_SLOTS {
            return f.write_str("all slots");
        }
        let slots = Members(("slot", "slots"), set);
        if set == 0 || !are_frames(set) {
            return write!(f, "{slots}");
        }
        let mut frames = 0;
        for frame in 0..BATCH_FRAMES {
            if holds(set, 2 * frame) {
                frames |= 1 << frame;
            }
        }
        let frames = Members(("frame", "frames"), frames);
        write!(f, "{frames} ({slots})")
    }
}

/// A set of boundaries, or the others where they are fewer: the walk that leaves the one side leaves the other.
pub(crate) fn smaller_side(set: u16) -> u16
    ensures { result ≡ named_side set }
{
    if size(set) > u32::from(BATCH_SLOTS / 2) && set != u16::MAX {
        !set
    } else {
        set
    }
}

/// What follows the boundaries that a cut names: that they are its smaller side, if they are not its set.
pub(crate) fn side_note(set: u16) -> &'static str
    ensures { result.now ≡ side_note set }
{
    if smaller_side(set) == set {
        ""
    } else {
        ", the smaller side of the cut"
    }
}

/// Where a page starts or ends that does not stay inside the set: `outside boundary 0`, `at boundaries 3 to 5`.
pub(crate) fn outside(set: u16) -> Members {
    let side = smaller_side(set);
    let noun = if side == set {
        ("outside boundary", "outside boundaries")
    } else {
        ("at boundary", "at boundaries")
    };
    Members(noun, side)
}

/// The slot in which a page of the class starts, early or late.
pub(crate) fn start_slot(class: u8, early: bool) -> u8 {
    if class as usize >= CLASSES {
        0
    } else {
        start(class, early)
    }
}
