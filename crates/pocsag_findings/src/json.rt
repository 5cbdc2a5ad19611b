//! A certificate as JSON, whose texts are fixed words and the numbers of nodes: none of them needs an escape.
ghost use Rattle.std.specs.Prelude.{IfOk, string_bytes};
ghost use Rattle.pocsag_findings.specs.Beginnings.{BeginsWith, verdict_members};
ghost use Rattle.pocsag_findings.specs.Writing.{Adds};

use crate::fault::ExplanationFault;
use crate::finding::{Fact, Finding, Narrowed, Reached, Share};
use crate::lines::{PIECE, flush_text};
use crate::node_number::Numbering;
use crate::refuted::Explanation;
use crate::sets::{FIRST_ALONE, smaller_side, start_slot};
use pocsag_slots::{CLASSES, SLOTS, Way, frame, holds, rest};
use pocsag_words::{End, Sink};
use std::alloc::{AllocError, Global};
use std::fmt::{self, Display, Formatter};

/// The first members of the explanation as one line of JSON.
pub(crate) fn verdict(alloc: Global, explanation: &Explanation<'_>) -> Result<String, AllocError>
    ensures { IfOk result (λ text. BeginsWith
        (verdict_members explanation.now.is_shown explanation.now.refuted.end explanation.now.batches)
        (string_bytes text)) }
{
    let (is_shown, batches) = (explanation.is_shown, explanation.batches);
    let end = match explanation.refuted.end {
        End::Open => "open",
        End::Closed => "closed",
        End::Idle => "idle",
    };
    format!(in alloc; r#"{{"shown":{is_shown},"end":"{end}","batches":{batches},"#)
}

/// Writes the members after them, with the nodes down to this depth.
pub(crate) fn write_members<O: Sink>(
    alloc: Global,
    explanation: &Explanation<'_>,
    depth: u32,
    out: &mut O,
) -> Result<(), ExplanationFault>
    ensures { Adds O.Sink result out.old out.new }
{
    let mut text = first_members(alloc, explanation)?;
    let mut walk = explanation.walk(depth)?;
    let mut numbering = Numbering {
        path: Vec::new(alloc),
    };
    while let Some(finding) = walk.next()? {
        numbering.step(finding.depth)?;
        // The root, which stands at depth 1, is the first.
        let comma = if finding.depth > 1 { "," } else { "" };
        let reached = ReachedFacts(finding.reached);
        let holds = finding.holds;
        let limits = LimitFacts(&finding);
        let fact = NodeFacts(&finding);
        write!(
            text,
            r#"{comma}{{"node":"{numbering}","reached":{reached},"holds":{holds},"limits":{limits},"fact":{fact}}}"#
        )?;
        flush_text(&mut text, PIECE, out)?;
    }
    text.push_str("]}\n")?;
    flush_text(&mut text, 0, out)
}

// The members up to the nodes.
fn first_members(alloc: Global, explanation: &Explanation<'_>) -> Result<String, AllocError> {
    let Explanation {
        pages,
        codewords,
        room,
        nodes,
        refused,
        ..
    } = explanation;
    let number = &refused.number;
    let mut text = format!(in alloc;
        r#""pages":{pages},"codewords":{codewords},"room":{room},"nodes":{nodes},"refused":"#
    )?;
    if number.is_empty() {
        text.push_str("null")?;
    } else {
        write!(text, "\"{number}\"")?;
    }
    text.push_str(",\"listed\":[")?;
    Ok(text)
}

// How a node is reached from the one above it.
#[derive(Clone, Copy)]
struct ReachedFacts(Reached);

impl Display for ReachedFacts {
    fn fmt<W: fmt::Write>(&self, f: &mut Formatter<W>) -> fmt::Result {
        let (class, early) = match self.0 {
            Reached::Root => return f.write_str(r#"{"by":"root"}"#),
            Reached::Below => return f.write_str(r#"{"by":"first_case"}"#),
            Reached::From => return f.write_str(r#"{"by":"second_case"}"#),
            Reached::By(Way::IdleIn(slot)) => return write!(f, r#"{{"by":"idle","slot":{slot}}}"#),
            Reached::By(Way::Early(class)) => (class, true),
            Reached::By(Way::Late(class)) => (class, false),
            Reached::Unreached => return f.write_str(r#"{"by":"unreached"}"#),
        };
        let pages = ClassFacts(class);
        let slot = start_slot(class, early);
        write!(f, r#"{{"by":"page","pages":{pages},"slot":{slot}}}"#)
    }
}

// The limits of a node: how often pages may cover each slot, and how many pages start early of each class that is narrowed.
#[derive(Clone, Copy)]
struct LimitFacts<'a>(&'a Finding);

impl Display for LimitFacts<'_> {
    fn fmt<W: fmt::Write>(&self, f: &mut Formatter<W>) -> fmt::Result {
        f.write_str(r#"{"cap":["#)?;
        let mut comma = "";
        for cap in self.0.caps.iter() {
            write!(f, "{comma}{cap}")?;
            comma = ",";
        }
        f.write_str(r#"],"classes":["#)?;
        comma = "";
        for narrowed in self.0.narrowed.iter() {
            let Narrowed {
                class,
                pages: count,
                lo,
                hi,
            } = *narrowed;
            let pages = ClassFacts(class);
            write!(
                f,
                r#"{comma}{{"pages":{pages},"count":{count},"lo":{lo},"hi":{hi}}}"#
            )?;
            comma = ",";
        }
        f.write_str("]}")
    }
}

// What a node states.
#[derive(Clone, Copy)]
struct NodeFacts<'a>(&'a Finding);

impl Display for NodeFacts<'_> {
    fn fmt<W: fmt::Write>(&self, f: &mut Formatter<W>) -> fmt::Result {
        match self.0.fact {
            Fact::Overload { set, least, room } => {
                write_overload(f, set, least, room, self.0.shares.as_slice())
            }
            Fact::Split { class, m, lo, hi } => {
                let pages = ClassFacts(class);
                let slot = start_slot(class, true);
                write!(
                    f,
                    r#"{{"kind":"split","pages":{pages},"slot":{slot},"m":{m},"fewest":{lo},"most":{hi}}}"#
                )
            }
            Fact::Cut {
                set,
                needed,
                is_certain: certain,
                ways,
                children,
            } => {
                write_boundaries(f, set)?;
                let pages = ClassFacts(needed);
                write!(
                    f,
                    r#""pages":{pages},"certain":{certain},"ways":{ways},"children":{children}}}"#
                )
            }
            Fact::Close { ways, children } => {
                write!(
                    f,
                    r#"{{"kind":"close","ways":{ways},"children":{children}}}"#
                )
            }
            Fact::Open => f.write_str(r#"{"kind":"open"}"#),
            Fact::Unjudged => f.write_str(r#"{"kind":"unjudged"}"#),
        }
    }
}

// Begins a cut: its boundaries, and those that are named of it where they are the others.
fn write_boundaries<W: fmt::Write>(f: &mut Formatter<W>, set: u16) -> fmt::Result {
    let boundaries = SetFacts(set);
    write!(f, r#"{{"kind":"cut","boundaries":[{boundaries}],"#)?;
    let side = smaller_side(set);
    if side == set {
        return Ok(());
    }
    let named = SetFacts(side);
    write!(f, r#""named":[{named}],"#)
}

// Adds an overload, and what the pages of each class cover of its slots at the least.
fn write_overload<W: fmt::Write>(
    f: &mut Formatter<W>,
    set: u16,
    least: u64,
    room: u64,
    shares: &[Share],
) -> fmt::Result {
    let slots = SetFacts(set);
    write!(
        f,
        r#"{{"kind":"overload","slots":[{slots}],"least":{least},"room":{room},"shares":["#
    )?;
    let mut comma = "";
    for share in shares {
        let pages = ClassFacts(share.class);
        let count = share.pages;
        let least = share.least;
        write!(
            f,
            r#"{comma}{{"pages":{pages},"count":{count},"least":{least}}}"#
        )?;
        comma = ",";
    }
    f.write_str("]}")
}

// The pages of a class; no frame and no length for one that there is not. They are alone where they are address
// codewords in a class of their own.
#[derive(Clone, Copy)]
struct ClassFacts(u8);

impl Display for ClassFacts {
    fn fmt<W: fmt::Write>(&self, f: &mut Formatter<W>) -> fmt::Result {
        let class = self.0;
        if usize::from(class) >= CLASSES {
            return f.write_str(r#"{"frame":null,"length_modulo_16":null,"alone":false}"#);
        }
        let frame = frame(class);
        let rest = rest(class);
        let alone = class >= FIRST_ALONE;
        write!(
            f,
            r#"{{"frame":{frame},"length_modulo_16":{rest},"alone":{alone}}}"#
        )
    }
}

// The members of a set in order.
#[derive(Clone, Copy)]
struct SetFacts(u16);

impl Display for SetFacts {
    fn fmt<W: fmt::Write>(&self, f: &mut Formatter<W>) -> fmt::Result {
        let mut comma = "";
        for member in 0..SLOTS as u8 {
            if holds(self.0, member) {
                write!(f, "{comma}{member}")?;
                comma = ",";
            }
        }
        Ok(())
    }
}
