ghost use Rattle.std.specs.Prelude.{◌≡◌, Err, IfOk, OnOk, string_bytes};
ghost use Rattle.pocsag_words.specs.Devices.{HasFailed};
ghost use Rattle.pocsag_findings.specs.Beginnings.{GivesVerdict};
ghost use Rattle.pocsag_findings.specs.Writing.{Adds, TookLessOfVerdict, TookPartOfVerdict, TookVerdict};

use crate::drawing::drawing;
use crate::fault::ExplanationFault;
use crate::format::Format;
use crate::json::{verdict, write_members};
use crate::kind::kinds_of;
use crate::outline::{first_words, write_outline};
use crate::position::NodeContext;
use crate::refuted::Explanation;
use pocsag_pages::Round;
use pocsag_slots::classes_of;
use pocsag_tree::{Certificate, DEPTH_LIMIT};
use pocsag_words::{OutOfMemory, Sink, write_all};
use std::alloc::Global;

/// A certificate, the round that it was judged for, and the verdict.
#[derive(Clone, Copy)]
pub struct JudgedCertificate<'a> {
    pub round: &'a Round,
    pub certificate: &'a Certificate,
    /// Whether the checker accepts the certificate for the round.
    pub is_shown: bool,
}

/// Writes the text that explains a certificate: why fewer batches do not suffice, or the first node that does not hold, which
/// may stand at any depth. The text is written as it is made: beside the round and the certificate it holds one node, the
/// limits of those above it, and text up to 1,048,576 bytes beside that of one node. After `WriteFault` a prefix was written,
/// and after `OutOfMemory` one that is not all of it.
pub fn write_explanation<O: Sink>(
    alloc: Global,
    format: Format,
    judged: JudgedCertificate<'_>,
    out: &mut O,
) -> Result<(), ExplanationFault>
    ensures told { OnOk result (TookVerdict O.Sink format judged.entry.is_shown judged.entry.certificate.now.end
        judged.entry.certificate.now.batches out.old out.new) }
    ensures part { result ≡ Err ExplanationFault.WriteFault →
        TookPartOfVerdict O.Sink format judged.entry.is_shown judged.entry.certificate.now.end
        judged.entry.certificate.now.batches out.old out.new }
    ensures stopped { result ≡ Err ExplanationFault.OutOfMemory →
        TookLessOfVerdict O.Sink format judged.entry.is_shown judged.entry.certificate.now.end
        judged.entry.certificate.now.batches out.old out.new }

    // A device's fault is answered only where that device failed.
    ensures succeeded { OnOk result (O.failures out.new ≡ O.failures out.old) }
    ensures failed { result ≡ Err ExplanationFault.WriteFault → HasFailed (O.failures out.old) (O.failures out.new) }
{
    let JudgedCertificate {
        round,
        certificate,
        is_shown: _,
    } = judged;
    let classes = classes_of(round, certificate.end);
    let kinds = kinds_of(alloc, round, certificate.end, &classes)?;
    let context = NodeContext {
        alloc,
        classes: &classes,
        end: certificate.end,
        batches: certificate.batches.saturating_sub(1),
        depth: DEPTH_LIMIT,
    };
    let explanation = Explanation::new(judged, context, kinds.as_slice())?;
    let first = first_text(alloc, format, &explanation)?;
    write_all(out, first.as_str().as_bytes())?;
    write_rest(alloc, format, &explanation, out)
}

// The first words of a text or the first members of a line of JSON; a drawing is whole.
fn first_text(
    alloc: Global,
    format: Format,
    explanation: &Explanation<'_>,
) -> Result<String, OutOfMemory>
    ensures { IfOk result (λ text.
        GivesVerdict format explanation.now.is_shown explanation.now.refuted.end explanation.now.batches
        (string_bytes text)) }
{
    let text = match format {
        Format::Lines(_) => first_words(alloc, explanation)?,
        Format::Json(_) => verdict(alloc, explanation)?,
        Format::Drawing => drawing(alloc, explanation)?,
    };
    Ok(text)
}

// Writes what stands behind it.
fn write_rest<O: Sink>(
    alloc: Global,
    format: Format,
    explanation: &Explanation<'_>,
    out: &mut O,
) -> Result<(), ExplanationFault>
    ensures { Adds O.Sink result out.old out.new }
{
    match format {
        Format::Lines(depth) => write_outline(alloc, explanation, depth, out),
        Format::Json(depth) => write_members(alloc, explanation, depth, out),
        Format::Drawing => Ok(()),
    }
}
