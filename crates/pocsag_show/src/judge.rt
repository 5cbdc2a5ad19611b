ghost use Rattle.std.specs.Prelude.{◌≢◌, IfErr, MatchResult};
ghost use Rattle.pocsag_show.specs.Shows.{Explains};
ghost use Rattle.pocsag_show.specs.Judged.{IsJudged};
ghost use Rattle.pocsag_show.specs.declared.fault.ShowFault.TheVariants as fault;

use crate::counts::Counts;
use crate::fault::ShowFault;
use crate::judged::Judged;
use crate::kind_reader::KindReader;
use crate::page_numbers::PageNumbers;
use pocsag_decode::judge_bytes;
use pocsag_words::{BATCH_CODEWORDS, Kind};
use std::alloc::Global;

/// The numbers of the pages of a transmission and the counts of its codewords, or its first fault.
pub(crate) fn judge(alloc: Global, bytes: &[u8]) -> Result<Judged<'_>, ShowFault>
    ensures judged { MatchResult result (IsJudged bytes.now) (Explains bytes.now) }
    ensures no_write { IfErr result (λ e. e ≢ fault.WriteFault) }
{
    match judge_bytes(bytes) {
        Ok(()) => {}
        Err(fault) => return Err(ShowFault::Transmission(fault)),
    }
    let mut kinds = KindReader::new(bytes);
    let (mut idles, mut pages) = (0, 0);
    while let Some(kind) = kinds.next() {
        match kind {
            Kind::Idle => idles += 1,
            Kind::Address { .. } => pages += 1,
            Kind::Message(_) => {}
        }
    }
    let numbers = PageNumbers::new(alloc, bytes, pages)?;
    let counts = Counts {
        batches: (kinds.index / BATCH_CODEWORDS) as u64,
        codewords: (kinds.index - idles) as u64,
        idles: idles as u64,
    };
    Ok(Judged {
        bytes,
        numbers,
        counts,
    })
}
