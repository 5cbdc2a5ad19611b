//! What a finding says, as a sentence that a person can check by hand.

use crate::finding::{Fact, Finding, Reached, Share};
use crate::kind::{ClassPages, KindWords};
use crate::refuted::Refuted;
use crate::sets::{
    BOUNDARY, Counted, Members, SlotWords, are_frames, outside, side_note, smaller_side, start_slot,
};
use pocsag_slots::{CLASSES, Way, frame, holds, size};
use pocsag_words::End;
use std::fmt::{self, Display, Formatter};

// How many shares are reported one by one.
const MOST_SHARES: usize = 8;

// The class of the address codewords alone that may end a closed transmission, those of frame 7.
const LAST_ALONE: u8 = CLASSES as u8 - 1;

/// How a node is reached, after its number; nothing for the root.
#[derive(Clone, Copy)]
pub(crate) struct WayWords<'a>(pub(crate) Refuted<'a>, pub(crate) Reached);

impl Display for WayWords<'_> {
    fn fmt<W: fmt::Write>(&self, f: &mut Formatter<W>) -> fmt::Result {
        let WayWords(refuted, reached) = *self;
        let (class, early) = match reached {
            Reached::Root | Reached::Unreached => return Ok(()),
            Reached::Below => return f.write_str(", in the first case"),
            Reached::From => return f.write_str(", in the second case"),
            Reached::By(Way::IdleIn(slot)) => return write!(f, ", with an idle in slot {slot}"),
            Reached::By(Way::Early(class)) => (class, true),
            Reached::By(Way::Late(class)) => (class, false),
        };
        let kind = KindWords(refuted.kinds, class);
        let slot = start_slot(class, early);
        write!(f, ", with a page of {kind} that starts in slot {slot}")
    }
}

/// What a node says if its rule holds, or else why the rule does not hold.
#[derive(Clone, Copy)]
pub(crate) struct Sentence<'a>(pub(crate) Refuted<'a>, pub(crate) &'a Finding);

impl Display for Sentence<'_> {
    fn fmt<W: fmt::Write>(&self, f: &mut Formatter<W>) -> fmt::Result {
        let Sentence(refuted, finding) = *self;
        match finding.fact {
            Fact::Overload { set, least, room } => {
                let load = Load { set, least, room };
                write_overload(f, refuted, load, finding.shares.as_slice(), finding.holds)
            }
            Fact::Split { class, m, lo, hi } => {
                let kind = KindWords(refuted.kinds, class);
                write_split(f, kind, m, (lo, hi), finding.holds)
            }
            Fact::Cut {
                set,
                needed,
                is_certain,
                ways,
                children,
            } => {
                let cut = Cut {
                    set,
                    needed,
                    is_certain,
                    ways,
                    children,
                };
                write_cut(f, refuted, cut, finding.holds)
            }
            Fact::Close { ways, children } => {
                write_closing(f, refuted, ways, children, finding.holds)
            }
            Fact::Open => f.write_str("not examined"),
            Fact::Unjudged => f.write_str("not judged, since a node above it does not hold"),
        }
    }
}

fn write_split<W: fmt::Write>(
    f: &mut Formatter<W>,
    kind: KindWords<'_>,
    m: u16,
    allowed: (u32, u32),
    is_met: bool,
) -> fmt::Result {
    let slot = start_slot(kind.1, true);
    if !is_met {
        let (lo, hi) = allowed;
        return write!(
            f,
            "{lo} to {hi} pages of {kind} may start in slot {slot}: no split at {m}"
        );
    }
    let late = start_slot(kind.1, false);
    write!(
        f,
        "a page of {kind} starts in slot {slot} or in slot {late}: "
    )?;
    if m == 1 {
        return write!(f, "none starts in slot {slot}, or at least 1 does");
    }
    write!(f, "fewer than {m} start in slot {slot}, or at least {m} do")
}

// What an overload compares: the codewords that must stand in a set of slots, and the room there.
#[derive(Clone, Copy)]
struct Load {
    set: u16,
    least: u64,
    room: u64,
}

fn write_overload<W: fmt::Write>(
    f: &mut Formatter<W>,
    refuted: Refuted<'_>,
    load: Load,
    shares: &[Share],
    is_met: bool,
) -> fmt::Result {
    let Load { set, least, room } = load;
    if set == 0 {
        return f.write_str("an overload of no slots");
    }
    if is_met && are_starts(set, shares) {
        return write_starts(f, refuted.batches, load);
    }
    let place = SlotWords(set);
    let codewords = Counted(least, "codeword");
    if is_met && set == u16::MAX {
        return write!(f, "{place}: {codewords}, room for {room}");
    }
    write!(f, "{place}: {codewords} at the least, room for {room}")?;
    if is_met {
        write_origins(f, refuted.kinds, u64::from(size(set)), shares)?;
    }
    Ok(())
}

// An overload of a frame by the pages that start there.
fn write_starts<W: fmt::Write>(f: &mut Formatter<W>, batches: u32, load: Load) -> fmt::Result {
    let Load { set, least, room } = load;
    let place = SlotWords(set);
    let pages = Counted(least, "page");
    let verb = if least == 1 { "starts" } else { "start" };
    write!(f, "{place}: {pages} {verb} there, ")?;
    if room == u64::from(batches).saturating_mul(u64::from(size(set))) {
        let have = if batches == 1 { "has" } else { "have" };
        let batches = Counted(u64::from(batches), "batch");
        write!(f, "{batches} {have} ")?;
    }
    write!(f, "room for {room}")
}

// Whether the set is one frame, and each share is one codeword for each page that starts there.
fn are_starts(set: u16, shares: &[Share]) -> bool {
    if size(set) != 2 || !are_frames(set) {
        return false;
    }
    for share in shares {
        let class = share.class;
        let is_there = usize::from(class) < CLASSES && holds(set, 2 * frame(class));
        if !is_there || share.least != u64::from(share.pages) {
            return false;
        }
    }
    true
}

// Adds from which pages the codewords in so many slots come, and how much of each share are whole turns, each of which
// covers each slot once; of the shares that are not reported one by one their sum.
fn write_origins<W: fmt::Write>(
    f: &mut Formatter<W>,
    kinds: &[ClassPages],
    slots: u64,
    shares: &[Share],
) -> fmt::Result {
    let (told, others) = shares.split_at(shares.len().min(MOST_SHARES));
    let mut link = "; ";
    for share in told {
        let least = share.least;
        write!(f, "{link}{least}")?;
        let turned = match kinds.get(usize::from(share.class)) {
            Some(kind) => u64::from(kind.turns).saturating_mul(slots),
            None => 0,
        };
        if turned == least {
            f.write_str(" by whole turns")?;
        } else if turned > 0 {
            write!(f, " ({turned} by whole turns)")?;
        }
        let pages = Counted(u64::from(share.pages), "page");
        let kind = KindWords(kinds, share.class);
        write!(f, " from {pages} of {kind}")?;
        link = ", ";
    }
    if others.is_empty() {
        return Ok(());
    }
    let (mut more, mut pages): (u64, u64) = (0, 0);
    for share in others {
        more = more.saturating_add(share.least);
        pages = pages.saturating_add(u64::from(share.pages));
    }
    let others = Counted(pages, "other page");
    write!(f, ", {more} from {others}")
}

// What a cut states, with how many ways there are, and how many nodes for them.
#[derive(Clone, Copy)]
struct Cut {
    set: u16,
    needed: u8,
    is_certain: bool,
    ways: usize,
    children: usize,
}

fn write_cut<W: fmt::Write>(
    f: &mut Formatter<W>,
    refuted: Refuted<'_>,
    cut: Cut,
    is_met: bool,
) -> fmt::Result {
    let Cut {
        set,
        needed,
        is_certain,
        ways,
        children,
    } = cut;
    let kind = KindWords(refuted.kinds, needed);
    let place = outside(set);
    let note = side_note(set);
    if is_met {
        let nodes = Counted(ways as u64, "node");
        return write!(
            f,
            "a page of {kind} starts or ends {place}{note}; the way there and back takes the idle or the page of one of the {nodes} below"
        );
    }
    if refuted.batches == 0 {
        return f.write_str("a cut, where there are no batches");
    }
    if !holds(set, 0) {
        let boundaries = Members(BOUNDARY, set);
        return write!(f, "boundary 0 is not in the set of {boundaries}");
    }
    if !is_certain {
        return write!(f, "no page of {kind} has to start or end {place}{note}");
    }
    let side = Members(BOUNDARY, smaller_side(set));
    let ways = Counted(ways as u64, "way");
    let nodes = Counted(children as u64, "node");
    write!(f, "{ways} out of {side}{note}, and {nodes} for them")
}

fn write_closing<W: fmt::Write>(
    f: &mut Formatter<W>,
    refuted: Refuted<'_>,
    ways: usize,
    children: usize,
    is_met: bool,
) -> fmt::Result {
    if is_met && ways == 1 {
        return f.write_str("the last codeword, in slot 15, is an idle");
    }
    if is_met {
        let kind = KindWords(refuted.kinds, LAST_ALONE);
        return write!(
            f,
            "the last codeword, in slot 15, is an idle or a page of {kind}; a node below for each"
        );
    }
    let end = match refuted.end {
        End::Open => return f.write_str("a closed end, where the end is open"),
        End::Closed => "a closed end",
        End::Idle => "an idle last",
    };
    if refuted.batches == 0 {
        return write!(f, "{end}, where there are no batches");
    }
    let ways = Counted(ways as u64, "way");
    let nodes = Counted(children as u64, "node");
    write!(f, "{ways} to close, and {nodes} for them")
}
