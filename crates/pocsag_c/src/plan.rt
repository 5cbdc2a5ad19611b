ghost use Rattle.std.specs.Prelude.{◌≡◌, ◌≢◌, ◌<◌, ◌≤◌, ◌⊎◌, ◌↔◌, IfErr, IfOk, IfSome, MatchOption, length};
ghost use Rattle.pocsag_pages.specs.declared.fault.RoundFault.TheVariants as round_fault;
ghost use Rattle.pocsag_tree.specs.Views.{bound_tree_of};
ghost use Rattle.pocsag_plan.specs.BoundedHeadline.{BoundedHeadline};
ghost use Rattle.pocsag_plan.specs.Headline.{Headline};
ghost use Rattle.pocsag_plan.specs.Plans.{IsNoWorse};
ghost use Rattle.pocsag_plan.specs.Streams.{ExplainsStream, IsBoundedOf, IsOfRound};
ghost use Rattle.pocsag_c.specs.Answers.{IsDelivered, IsNoEnd, PrintsFault};
ghost use Rattle.pocsag_c.specs.Plans.{ExplainsPlanning, HasNoRoomForBoth, IsCounted, IsHeadline, IsHeadlineWithBound, IsNoWorseTold, IsPlannedInto, IsWithoutPlan, IsWithoutRoom, no_plan};
ghost use Rattle.pocsag_c.specs.Reports.{IsAsked};
ghost use Rattle.pocsag_c.specs.Statuses.{IsOfBytes, nowhere, stream_refusal};

use crate::refusal::{NOWHERE, Place, refused_stream};
use pocsag_plan::{BoundedPlan, OnLimit, Search, StreamFault, plan_stream, plan_stream_always};
use pocsag_words::{End, GrowingSink, SliceSource};
use std::alloc::Global;

/// What a plan reports; all but the place is 0 where there is none.
#[repr(C)]
#[derive(Clone, Copy, Default)]
pub struct PlanInfo {
    /// How many pages the round has.
    pub pages: u32,
    /// How many codewords the pages have.
    pub codewords: u32,
    /// How many batches they take in file order.
    pub in_order: u32,
    /// How many batches the transmission has.
    pub batches: u32,
    /// No transmission of the round has fewer batches than these.
    pub bound: u32,
    /// Where the fault stands, and what the search knew at its limit.
    pub place: Place,
}

// What the numbers of a call ask of the planner: the end of its number, and the fewest batches alone where `always` is 0.
pub(crate) fn search_of(limit: u32, end: u32, always: u32) -> Option<Search>
    ensures asked { MatchOption result (IsNoEnd end) (IsAsked end limit always) }
    ensures fewest { always ≡ 0 → IfSome result (λ search. search.on_limit ≡ OnLimit.Fewest) }
    ensures always { always ≢ 0 → IfSome result (λ search. search.on_limit ≡ OnLimit.Always) }
{
    let end = match end {
        0 => End::Open,
        1 => End::Closed,
        2 => End::Idle,
        _ => return None,
    };
    let on_limit = if always == 0 {
        OnLimit::Fewest
    } else {
        OnLimit::Always
    };
    Some(Search {
        limit,
        end,
        on_limit,
    })
}

// A plan with the bytes of its transmission and of its certificate.
#[derive(Drop)]
pub(crate) struct PlanTexts {
    pub(crate) sent: Vec<u8>,
    pub(crate) certificate: Vec<u8>,
    pub(crate) bounded: BoundedPlan,
}

// Plans a page file as is asked, and writes both texts.
fn plan_texts(alloc: Global, pages: &[u8], search: Search) -> Result<PlanTexts, StreamFault>
    ensures bounded { IfOk result (λ p. BoundedHeadline pages.now search.end p.bounded.plan.batches p.bounded.bound
        (bound_tree_of p.bounded.plan.tree) p.sent.items p.certificate.items) }
    ensures headline { IfOk result (λ p. p.bounded.bound ≡ p.bounded.plan.batches →
        Headline pages.now search.end p.bounded.plan.batches
        (bound_tree_of p.bounded.plan.tree) p.sent.items p.certificate.items) }
    ensures plan { IfOk result (λ p. IsBoundedOf pages.now search.end p.bounded) }
    ensures fewest { search.on_limit ≡ OnLimit.Fewest → IfOk result (λ p. p.bounded.bound ≡ p.bounded.plan.batches) }
    ensures no_worse { IfOk result (λ p. IsOfRound pages.now (λ round.
        IsNoWorse search.end round search.limit p.bounded)) }
    ensures explained { IfErr result (ExplainsStream search.on_limit pages.now search.end search.limit) }
    ensures unread { IfErr result (λ e. e ≢ StreamFault.Round round_fault.ReadFault) }
{
    let Search { limit, end, .. } = search;
    let mut source = SliceSource::new(pages);
    let mut tx = GrowingSink::new(alloc);
    let mut cert = GrowingSink::new(alloc);
    let bounded = match search.on_limit {
        OnLimit::Fewest => {
            let plan = plan_stream(alloc, &mut source, &mut tx, &mut cert, limit, end)?;
            BoundedPlan {
                bound: plan.batches,
                plan,
                stopped: None,
            }
        }
        OnLimit::Always => {
            plan_stream_always(alloc, &mut source, &mut tx, &mut cert, limit, end)?
        }
    };
    Ok(PlanTexts {
        sent: tx.into_bytes(),
        certificate: cert.into_bytes(),
        bounded,
    })
}

// Puts both texts into their buffers, if each has room for its text, and reports their lengths.
pub(crate) fn hand_out_both(
    texts: &PlanTexts,
    tx: &mut [u8],
    tx_len: &mut usize,
    cert: &mut [u8],
    cert_len: &mut usize,
) -> u32
    ensures status { (result ≡ 0) ⊎ IsWithoutRoom result }
    ensures not_end { result ≢ 2 }
    ensures transmission { result ≡ 0 → IsDelivered tx.old tx.new tx_len.new texts.now.sent.items }
    ensures text { result ≡ 0 → IsDelivered cert.old cert.new cert_len.new texts.now.certificate.items }
    ensures length { tx_len.new ≡ length texts.now.sent.items }
    ensures cert_length { cert_len.new ≡ length texts.now.certificate.items }
    ensures small { result ≡ 7 → length tx.old < tx_len.new }
    ensures cert_small { result ≡ 8 → (tx_len.new ≤ length tx.old) × (length cert.old < cert_len.new) }
    ensures untouched { result ≢ 0 → (tx.new ≡ tx.old) × (cert.new ≡ cert.old) }
{
    let sent = texts.sent.as_slice();
    let certificate = texts.certificate.as_slice();
    *tx_len = sent.len();
    *cert_len = certificate.len();
    if tx.len() < sent.len() {
        return 7;
    }
    if cert.len() < certificate.len() {
        return 8;
    }
    tx[..sent.len()].copy_from_slice(sent);
    cert[..certificate.len()].copy_from_slice(certificate);
    0
}

/// Plans a page file, and puts the transmission and the certificate into two buffers: 0, or 7 or 8 where
/// that of the transmission or of the certificate is too small. In these cases both lengths are reported. The
/// end is 0 for the open one, 1 for the closed one and 2 for the idle one; where `always` is not 0, no round is refused.
#[unsafe(no_mangle)]
pub extern "C" fn pocsag_plan(
    alloc: Global,
    pages: &[u8],
    tx: &mut [u8],
    tx_len: &mut usize,
    cert: &mut [u8],
    cert_len: &mut usize,
    limit: u32,
    end: u32,
    always: u32,
    info: &mut PlanInfo,
) -> u32
    // The headline, of the bytes that stand in the two buffers: where `always` is 0, and else where the bound is the batches.
    ensures planned { result ≡ 0 → info.new.bound ≡ info.new.batches →
        IsPlannedInto (IsHeadline pages.now end info.new) tx.old tx.new tx_len.new cert.old cert.new cert_len.new }
    ensures fewest { (result ≡ 0) ⊎ IsWithoutRoom result → always ≡ 0 → info.new.bound ≡ info.new.batches }
    // The headline with a bound.
    ensures bounded { result ≡ 0 → always ≢ 0 →
        IsPlannedInto
        (IsHeadlineWithBound pages.now end info.new) tx.old tx.new tx_len.new cert.old cert.new cert_len.new }
    ensures counted { (result ≡ 0) ⊎ IsWithoutRoom result → IsCounted pages.now info.new }
    // Where `always` is not 0, the plan is no worse than one with 0 at this limit.
    ensures no_worse { (result ≡ 0) ⊎ IsWithoutRoom result → IsNoWorseTold pages.now end limit always info.new }

    // Too small a buffer: the lengths are those of such a plan.
    ensures no_room { IsWithoutRoom result → info.new.bound ≡ info.new.batches →
        HasNoRoomForBoth (IsHeadline pages.now end info.new) tx_len.new cert_len.new }
    ensures no_room_bounded { IsWithoutRoom result → always ≢ 0 →
        HasNoRoomForBoth (IsHeadlineWithBound pages.now end info.new) tx_len.new cert_len.new }
    ensures small { result ≡ 7 → length tx.old < tx_len.new }
    ensures cert_small { result ≡ 8 → (tx_len.new ≤ length tx.old) × (length cert.old < cert_len.new) }

    // Any other status says why there is no plan, and never that a device failed; both buffers are as they were.
    ensures bad_end { result ≡ 2 ↔ IsNoEnd end }
    ensures fault { IsWithoutPlan result →
        PrintsFault stream_refusal (ExplainsPlanning pages.now end limit always) result info.new.place }
    ensures answered { always ≢ 0 → result ≢ 6 }
    ensures placeless { (result ≡ 0) ⊎ IsWithoutRoom result ⊎ (result ≡ 2) → info.new.place ≡ nowhere }
    ensures nothing { IsWithoutPlan result ⊎ (result ≡ 2) →
        (tx_len.new ≡ 0) × (cert_len.new ≡ 0) × (info.new ≡ no_plan info.new.place) }
    ensures of_bytes { IsOfBytes result }
    ensures untouched { result ≢ 0 → (tx.new ≡ tx.old) × (cert.new ≡ cert.old) }
{
    *tx_len = 0;
    *cert_len = 0;
    *info = PlanInfo::default();
    let Some(search) = search_of(limit, end, always) else {
        return 2;
    };
    match plan_texts(alloc, pages, search) {
        Ok(texts) => {
            let BoundedPlan { plan, bound, .. } = &texts.bounded;
            *info = PlanInfo {
                pages: plan.pages,
                codewords: plan.codewords,
                in_order: plan.in_order,
                batches: plan.batches,
                bound: *bound,
                place: NOWHERE,
            };
            hand_out_both(&texts, tx, tx_len, cert, cert_len)
        }
        Err(fault) => refused_stream(fault).put(&mut info.place),
    }
}
