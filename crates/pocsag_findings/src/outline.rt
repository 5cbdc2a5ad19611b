//! A certificate as an indented list.
ghost use Rattle.std.specs.Prelude.{IfOk, string_bytes};
ghost use Rattle.pocsag_findings.specs.Beginnings.{BeginsWith, verdict_words};
ghost use Rattle.pocsag_findings.specs.Writing.{Adds};

use crate::fault::ExplanationFault;
use crate::finding::Finding;
use crate::limit::LimitWords;
use crate::lines::{Margins, PIECE, flush_text, push_lines};
use crate::node_number::Numbering;
use crate::refuted::{Explanation, RefusedNode, Refuted};
use crate::sentences::{Sentence, WayWords};
use crate::sets::Counted;
use pocsag_words::{End, Sink};
use std::alloc::{AllocError, Global};
use std::fmt::{self, Display, Formatter};

// How many characters stand in a line at the most, where its words are no longer.
const WIDTH: usize = 100;

// How many of them may be words, however deep the line stands.
const LEAST: usize = 50;

// How much further right the second line of a text begins.
const HANG: usize = 4;

/// The margins of a text with this indentation.
pub(crate) fn margins(indent: usize) -> Margins {
    Margins {
        first: indent,
        others: indent.saturating_add(HANG),
        width: WIDTH.max(indent.saturating_add(LEAST)),
    }
}

/// Writes what follows the first words: a line for each finding down to this depth, and one for its limits if they say more
/// than those of the root; the number of nodes that are not listed; and the conclusion. Or, if the checker does not accept
/// the certificate, the first node that does not hold.
pub(crate) fn write_outline<O: Sink>(
    alloc: Global,
    explanation: &Explanation<'_>,
    depth: u32,
    out: &mut O,
) -> Result<(), ExplanationFault>
    ensures { Adds O.Sink result out.old out.new }
{
    let mut text = format!(in alloc; "\n")?;
    if !explanation.is_shown {
        let refused = refused_node_words(alloc, explanation)?;
        push_lines(&mut text, margins(0), refused.as_str())?;
        return flush_text(&mut text, 0, out);
    }
    let mut numbering = Numbering {
        path: Vec::new(alloc),
    };
    let mut words = String::new(alloc);
    let mut listed: u64 = 0;
    let mut walk = explanation.walk(depth)?;
    while let Some(finding) = walk.next()? {
        push_node(
            &mut text,
            &mut words,
            &mut numbering,
            explanation.refuted,
            &finding,
        )?;
        flush_text(&mut text, PIECE, out)?;
        listed = listed.saturating_add(1);
    }
    let below = explanation.nodes.saturating_sub(listed);
    if below > 0 {
        let nodes = Counted(below, "node");
        write!(text, ".. {nodes} below\n")?;
    }
    let closing = Conclusion(explanation.refuted);
    write!(text, "{closing}\n")?;
    flush_text(&mut text, 0, out)
}

// Adds the line of the next node, and one for its limits where they say more than those of the root.
fn push_node(
    text: &mut String,
    words: &mut String,
    numbering: &mut Numbering,
    refuted: Refuted<'_>,
    finding: &Finding,
) -> Result<(), AllocError> {
    numbering.step(finding.depth)?;
    write_node_line(words, refuted, numbering, finding)?;
    let indent = (finding.depth as usize).saturating_sub(1).saturating_mul(2);
    push_lines(text, margins(indent), words.as_str())?;
    let limits = LimitWords(refuted, finding);
    words.clear();
    write!(words, "{limits}")?;
    if words.len() > 0 {
        push_lines(text, margins(indent.saturating_add(2)), words.as_str())?;
    }
    Ok(())
}

/// What a certificate shows, as its last sentence: `so 2 batches do not suffice`.
#[derive(Clone, Copy)]
pub(crate) struct Conclusion<'a>(pub(crate) Refuted<'a>);

impl Display for Conclusion<'_> {
    fn fmt<W: fmt::Write>(&self, f: &mut Formatter<W>) -> fmt::Result {
        let batches = Counted(u64::from(self.0.batches), "batch");
        let verb = if self.0.batches == 1 { "does" } else { "do" };
        let end = match self.0.end {
            End::Open => "",
            End::Closed => " with a closed end",
            End::Idle => " with an idle last",
        };
        write!(f, "so {batches} {verb} not suffice{end}")
    }
}

/// The first line of the text, or of the drawing its title: what is shown, and what the round and the batches hold.
pub(crate) fn first_words(
    alloc: Global,
    explanation: &Explanation<'_>,
) -> Result<String, AllocError>
    ensures { IfOk result (λ text. BeginsWith
        (verdict_words explanation.now.is_shown explanation.now.refuted.end explanation.now.batches)
        (string_bytes text)) }
{
    if !explanation.is_shown {
        return format!(in alloc; "not shown");
    }
    let held = held_words(alloc, explanation)?;
    let batches = explanation.batches;
    let noun = if batches == 1 { "batch" } else { "batches" };
    let end = match explanation.refuted.end {
        End::Open => "open end",
        End::Closed => "closed end",
        End::Idle => "idle last",
    };
    format!(in alloc; "at least {batches} {noun}, {end}: {held}")
}

// What the round and the batches that do not suffice hold.
fn held_words(alloc: Global, explanation: &Explanation<'_>) -> Result<String, AllocError> {
    let pages = Counted(explanation.pages, "page");
    let codewords = Counted(explanation.codewords, "codeword");
    let room = explanation.room;
    let refuted = Counted(u64::from(explanation.refuted.batches), "batch");
    let yet = if explanation.codewords <= room {
        ", yet"
    } else {
        ""
    };
    format!(in alloc; "{pages}, {codewords}, room for {room} in {refuted}{yet}")
}

/// Makes the words the line of a node, without its indentation.
pub(crate) fn write_node_line(
    words: &mut String,
    refuted: Refuted<'_>,
    numbering: &Numbering,
    finding: &Finding,
) -> Result<(), AllocError> {
    let way = WayWords(refuted, finding.reached);
    let said = Sentence(refuted, finding);
    words.clear();
    write!(words, "node {numbering}{way}: {said}")
}

/// The first node that does not hold, and why: `node 1.2: slot 15: 1 codeword at the least, room for 1`.
pub(crate) fn refused_node_words(
    alloc: Global,
    explanation: &Explanation<'_>,
) -> Result<String, AllocError> {
    let RefusedNode { number, why } = &explanation.refused;
    if number.is_empty() {
        return Ok(String::new(alloc));
    }
    format!(in alloc; "node {number}: {why}")
}
