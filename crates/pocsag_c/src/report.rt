ghost use Rattle.std.specs.Prelude.{◌≡◌, ◌≢◌, ◌⊎◌, ◌↔◌, IfErr, IfOk, Ok};
ghost use Rattle.pocsag_pages.specs.PageFile.{verdict};
ghost use Rattle.pocsag_pages.specs.declared.fault.RoundFault.TheVariants as round_fault;
ghost use Rattle.pocsag_plan.specs.Plans.{IsPlanFor};
ghost use Rattle.pocsag_c.specs.Answers.{IsNoEnd, PrintsFault};
ghost use Rattle.pocsag_c.specs.Reports.{ExplainsReport, ExplainsUnreported, IsBadRate, PrintsReport, no_report};
ghost use Rattle.pocsag_c.specs.Statuses.{IsOfBytes, nowhere, stream_refusal};

use crate::plan::search_of;
use crate::refusal::{NOWHERE, Place, refused_stream};
use pocsag_pages::{Round, read_round};
use pocsag_plan::{BoundedPlan, Search, StreamFault, bounded_plan, report};
use pocsag_words::SliceSource;
use std::alloc::Global;

/// What a plan takes on the air; all but the place is 0 where there is none.
#[repr(C)]
#[derive(Clone, Copy, Default)]
pub struct ReportInfo {
    /// How many pages the round has.
    pub pages: u32,
    /// How many codewords the pages have.
    pub codewords: u32,
    /// How many batches they take in file order.
    pub in_order: u32,
    /// How many batches the transmission has.
    pub batches: u32,
    /// No transmission of the round has fewer batches than these.
    pub bound: u32,
    /// How many idle codewords fill the batches.
    pub idles: u64,
    /// How many bits the transmission has.
    pub bits: u64,
    /// How long it lasts in milliseconds, rounded up.
    pub airtime_ms: u64,
    /// Where the fault stands, and what the search knew at its limit.
    pub place: Place,
}

// A round and its plan.
#[derive(Drop)]
pub(crate) struct PlannedRound {
    pub(crate) round: Round,
    pub(crate) bounded: BoundedPlan,
}

// The round of a page file and its plan. The file is judged before the limit.
pub(crate) fn plan_in(
    alloc: Global,
    pages: &[u8],
    search: Search,
) -> Result<PlannedRound, StreamFault>
    ensures read { IfOk result (λ found. verdict pages.now ≡ Ok found.round) }
    ensures plan { IfOk result (λ found. IsPlanFor search found.round found.bounded) }
    ensures explained { IfErr result (ExplainsUnreported pages.now search) }
    ensures unread { IfErr result (λ e. e ≢ StreamFault.Round round_fault.ReadFault) }
{
    let round = read_round(alloc, &mut SliceSource::new(pages)).map_err(StreamFault::Round)?;
    match bounded_plan(alloc, &round, search) {
        Ok(bounded) => Ok(PlannedRound { round, bounded }),
        Err(fault) => Err(StreamFault::Plan(fault)),
    }
}

/// Plans a page file as `pocsag_plan` does, and reports what the plan takes on the air at a rate of 512, 1200
/// or 2400 bits a second.
#[unsafe(no_mangle)]
pub extern "C" fn pocsag_report(
    alloc: Global,
    pages: &[u8],
    rate: u32,
    limit: u32,
    end: u32,
    always: u32,
    info: &mut ReportInfo,
) -> u32
    ensures told { result ≡ 0 → PrintsReport pages.now end limit always rate info.new }
    ensures fewest { result ≡ 0 → always ≡ 0 → info.new.bound ≡ info.new.batches }
    ensures bad_end { result ≡ 2 ↔ IsNoEnd end }
    ensures bad_rate { result ≡ 4 → IsBadRate pages.now end limit always rate }
    ensures fault { result ≢ 0 → result ≢ 2 → result ≢ 4 →
        PrintsFault stream_refusal (ExplainsReport pages.now end limit always) result info.new.place }
    ensures answered { always ≢ 0 → result ≢ 6 }
    ensures placeless { (result ≡ 0) ⊎ (result ≡ 2) ⊎ (result ≡ 4) → info.new.place ≡ nowhere }
    ensures nothing { result ≢ 0 → info.new ≡ no_report info.new.place }
    ensures of_bytes { IsOfBytes result }
{
    *info = ReportInfo::default();
    let Some(search) = search_of(limit, end, always) else {
        return 2;
    };
    let bounded = match plan_in(alloc, pages, search) {
        Ok(found) => found.bounded,
        Err(fault) => return refused_stream(fault).put(&mut info.place),
    };
    let Ok(report) = report(&bounded.plan, rate) else {
        return 4;
    };
    *info = ReportInfo {
        pages: report.pages,
        codewords: report.codewords,
        in_order: report.in_order,
        batches: report.batches,
        bound: bounded.bound,
        idles: report.idles,
        bits: report.bits,
        airtime_ms: report.airtime_ms,
        place: NOWHERE,
    };
    0
}
