ghost use Rattle.pocsag_shell.specs.Runs.{IsStreamOf, Ran};
ghost use Rattle.pocsag_centre.specs.Judgements.{ExplainsJudging, IsVerdictLine};
ghost use Rattle.pocsag_centre.specs.Works.{judges};

use crate::fault::CentreFault;
use crate::lines::print_bound;
use pocsag_pages::read_round;
use pocsag_plan::verdict_on;
use pocsag_shell::{ErrorStream, put_whole};
use pocsag_tree::read_certificate;
use pocsag_words::{Sink, Source};
use std::alloc::Global;

/// `check PAGES CERT`: reports whether the certificate shows its number of batches for the page file. Returns the exit status,
/// which is 1 without a fault where it does not.
pub fn run_check<P: Source, C: Source, O: Sink, E: Sink + Drop>(
    alloc: Global,
    pages: &mut P,
    cert: &mut C,
    out: &mut O,
    err: &mut ErrorStream<CentreFault, E>,
) -> u8
    ensures ran { Ran
        (judges P.Source C.Source IsVerdictLine ExplainsJudging pages.old pages.new cert.old cert.new)
        O.Sink E.Sink result out.old out.new err.old err.new }
{
    err.end(print_verdict(alloc, pages, cert, out))
}

// Judges the certificate and prints the verdict: the end and the batches that are shown, or that they are not.
fn print_verdict<P: Source, C: Source, O: Sink>(
    alloc: Global,
    pages: &mut P,
    cert: &mut C,
    out: &mut O,
) -> Result<u8, CentreFault>
    ensures streams { IsStreamOf
        (judges P.Source C.Source IsVerdictLine ExplainsJudging pages.old pages.new cert.old cert.new)
        O.Sink out.old out.new result }
{
    let round = read_round(alloc, pages)?;
    let certificate = match read_certificate(alloc, cert) {
        Ok(certificate) => certificate,
        Err(fault) => return Err(CentreFault::Certificate(fault)),
    };
    let verdict = verdict_on(&round, &certificate);
    if verdict.is_shown {
        print_bound(verdict.end, verdict.batches, out)?;
        return Ok(0);
    }
    put_whole(out, b"not shown\n")?;
    Ok(1)
}
