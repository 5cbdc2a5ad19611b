ghost use Rattle.std.specs.Prelude.{◌≡◌, ◌*◌, ◌≤◌, IfOk, IsErr, ◌↔◌, Some};
ghost use Rattle.pocsag_plan.specs.Reports.{AreMostWithin, IsRate, IsReport, report_text};

use crate::airtime::Report;
use crate::answer::Plan;
use crate::fault::BadRate;
use pocsag_words::{BATCH_BITS, PREAMBLE_BITS, airtime, transmission_bits};
use std::fmt::{self, Display, Formatter};

/// What the plan takes on the air at a rate of 512, 1200 or 2400 bits a second.
pub fn report(plan: &Plan, rate: u32) -> Result<Report, BadRate>
    requires { plan.now.codewords ≤ 16 * plan.now.batches }
    ensures report { IfOk result (IsReport plan.now rate) }
    ensures bad { IsErr result ↔ (¬ IsRate rate) }
{
    if !matches!(rate, 512 | 1200 | 2400) {
        return Err(BadRate);
    }
    let batches = u64::from(plan.batches);
    let bits = transmission_bits(batches);
    Ok(Report {
        pages: plan.pages,
        codewords: plan.codewords,
        in_order: plan.in_order,
        batches: plan.batches,
        idles: 16 * batches - u64::from(plan.codewords),
        bits: bits as u64,
        airtime_ms: airtime(bits, rate) as u64,
    })
}

/// The most batches whose airtime at a rate of 512, 1200 or 2400 bits a second, as `report` reports it, is at most so many
/// milliseconds; 0 where one batch takes longer.
pub fn most_batches(airtime_ms: u32, rate: u32) -> Result<u32, BadRate>
    ensures most { IfOk result (AreMostWithin airtime_ms rate) }
    ensures bad { IsErr result ↔ (¬ IsRate rate) }
{
    match rate {
        512 | 1200 | 2400 => {
            let bits = u64::from(airtime_ms) * u64::from(rate) / 1000;
            Ok((bits.saturating_sub(PREAMBLE_BITS) / BATCH_BITS) as u32)
        }
        _ => Err(BadRate),
    }
}

impl Display for Report {
    ghost output = { λ r. Some (report_text r) };

    fn fmt<W: fmt::Write>(&self, f: &mut Formatter<W>) -> fmt::Result {
        write!(
            f,
            "pages {}\ncodewords {}\nin_order {}\nbatches {}\nidles {}\nbits {}\nairtime_ms {}\n",
            self.pages,
            self.codewords,
            self.in_order,
            self.batches,
            self.idles,
            self.bits,
            self.airtime_ms,
        )
    }
}
