ghost use Rattle.pocsag_findings.specs.Beginnings.{GivesVerdict};
ghost use Rattle.pocsag_shell.specs.Runs.{IsStreamOf, Ran};
ghost use Rattle.pocsag_centre.specs.Judgements.{ExplainsJudging};
ghost use Rattle.pocsag_centre.specs.Works.{judges, streaming};

use crate::fault::CentreFault;
use pocsag_findings::{Format, JudgedCertificate, write_explanation};
use pocsag_pages::read_round;
use pocsag_plan::verdict_on;
use pocsag_shell::ErrorStream;
use pocsag_tree::read_certificate;
use pocsag_words::{Sink, Source};
use std::alloc::Global;

/// The files that `explain` reads.
#[derive(Drop)]
pub struct ExplainFiles<P: Drop, C: Drop> {
    /// The page file.
    pub pages: P,
    /// The certificate.
    pub cert: C,
}

/// `explain PAGES CERT`: reports why fewer batches do not suffice for the page file, by its certificate, or which node of the
/// certificate does not hold. The text is written as it is made. Returns the exit status: 0 where the certificate shows its
/// number of batches, 1 where it does not.
pub fn run_explain<P: Source + Drop, C: Source + Drop, O: Sink, E: Sink + Drop>(
    alloc: Global,
    format: Format,
    files: &mut ExplainFiles<P, C>,
    out: &mut O,
    err: &mut ErrorStream<CentreFault, E>,
) -> u8
    ensures ran { Ran
        (streaming (judges P.Source C.Source (GivesVerdict format) ExplainsJudging
        files.old.pages files.new.pages files.old.cert files.new.cert))
        O.Sink E.Sink result out.old out.new err.old err.new }
{
    err.end(explain(alloc, format, files, out))
}

// Judges the certificate and writes the text; the fault is still to be printed.
fn explain<P: Source + Drop, C: Source + Drop, O: Sink>(
    alloc: Global,
    format: Format,
    files: &mut ExplainFiles<P, C>,
    out: &mut O,
) -> Result<u8, CentreFault>
    ensures streams { IsStreamOf
        (streaming (judges P.Source C.Source (GivesVerdict format) ExplainsJudging
        files.old.pages files.new.pages files.old.cert files.new.cert))
        O.Sink out.old out.new result }
{
    let round = read_round(alloc, &mut files.pages)?;
    let certificate = match read_certificate(alloc, &mut files.cert) {
        Ok(certificate) => certificate,
        Err(fault) => return Err(CentreFault::Certificate(fault)),
    };
    let verdict = verdict_on(&round, &certificate);
    let judged = JudgedCertificate {
        round: &round,
        certificate: &certificate,
        is_shown: verdict.is_shown,
    };
    write_explanation(alloc, format, judged, out)?;
    if verdict.is_shown {
        return Ok(0);
    }
    Ok(1)
}
