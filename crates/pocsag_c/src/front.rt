ghost use Rattle.std.specs.Prelude.{◌≡◌, ◌≢◌, ◌<◌, ◌≤◌, ◌⊎◌, ◌↔◌, All, IfErr, IfOk, IfSome, drop, length, take};
ghost use Rattle.pocsag_pages.specs.Listable.{IsListable};
ghost use Rattle.pocsag_pages.specs.PageFile.{verdict};
ghost use Rattle.pocsag_pages.specs.PageList.{unless_empty};
ghost use Rattle.pocsag_pages.specs.Pages.{page_limit};
ghost use Rattle.pocsag_pages.specs.declared.fault.RoundFault.TheVariants as round_fault;
ghost use Rattle.pocsag_tree.specs.CertificateText.{HasText};
ghost use Rattle.pocsag_tree.specs.Limits.{second_ranges};
ghost use Rattle.pocsag_tree.specs.Views.{bound_tree_of};
ghost use Rattle.pocsag_decode.specs.PageFiles.{page_file};
ghost use Rattle.pocsag_plan.specs.Fronts.{IsFrontFor, IsLongestFront};
ghost use Rattle.pocsag_plan.specs.Headline.{RoundHeadline};
ghost use Rattle.pocsag_plan.specs.Plans.{IsBounded, IsPlanFor};
ghost use Rattle.pocsag_plan.specs.Streams.{HeadlineOf, IsOfRound};
ghost use Rattle.pocsag_plan.specs.declared.fault.StreamFault.TheVariants as stream_fault;
ghost use Rattle.pocsag_c.specs.Answers.{IsDelivered, IsNoEnd, PrintsFault};
ghost use Rattle.pocsag_c.specs.Fronts.{ExplainsFrontPlanning, ExplainsUnfronted, HasLengthOf, IsBeyond, IsCountedFirst, IsFront, IsFrontHeadline, IsGivenIfWanted, IsLongestTold, IsNoWorseFront, IsRequiredFront, IsPutIfWanted, IsRestOf, IsTextOfWhy, IsWithoutFront, IsWrittenWhy, no_front};
ghost use Rattle.pocsag_c.specs.Plans.{HasNoRoomForBoth, IsPlannedInto};
ghost use Rattle.pocsag_c.specs.Statuses.{IsOfBytes, front_refusal, nowhere};

use crate::buffer::hand_out;
use crate::plan::{PlanTexts, hand_out_both, search_of};
use crate::refusal::{NOWHERE, Place, refused_front};
use pocsag_decode::{
    recall_page_files_are_read_back, recall_pages_of_files_are_spellable, write_page_file,
};
use pocsag_pages::read_round;
use pocsag_plan::{
    BoundedPlan, FrontPlan, NoFront, OnLimit, PlanFault, Search, StreamFault, UnsentFront,
    is_node_limit, longest_front, send,
};
use pocsag_tree::{Certificate, write_text};
use pocsag_words::{GrowingSink, OutOfMemory, SliceSource};
use std::alloc::Global;

/// What the plan of a front reports; all but the place is 0 where there is none.
#[repr(C)]
#[derive(Clone, Copy, Default)]
pub struct FrontInfo {
    /// How many first pages are planned.
    pub pages: u32,
    /// How many pages are left.
    pub left: u32,
    /// How many codewords the planned pages have.
    pub codewords: u32,
    /// How many batches they take in file order.
    pub in_order: u32,
    /// How many batches the transmission has.
    pub batches: u32,
    /// No transmission of the planned pages has fewer batches than these.
    pub bound: u32,
    /// No transmission of one page more has fewer batches than these; 0 where no page is left.
    pub beyond: u32,
    /// Where the fault stands, and what the search knew at its limit.
    pub place: Place,
}

// A front with the bytes of all that is written of it.
#[derive(Drop)]
struct FrontTexts {
    // Of the first pages.
    first: PlanTexts,
    // The page file of the pages that are left, and how many they are.
    rest: Vec<u8>,
    left: u32,
    // Why one page more is not in the front, where pages are left.
    why: Vec<u8>,
    beyond: u32,
}

// Writes all that is written of a front.
fn texts_of(alloc: Global, front: FrontPlan) -> Result<FrontTexts, OutOfMemory>
    requires plan { IsBounded front.bounded.plan.end front.round front.bounded.plan front.bounded.bound }
    requires rest { All IsListable front.rest.items }
    requires few { length front.rest.items ≤ page_limit }
    requires why { IfSome front.why (λ c. HasText second_ranges c.batches (bound_tree_of c.tree)) }
    ensures headline { IfOk result (λ t.
        HeadlineOf front.round front.bounded t.first.sent.items t.first.certificate.items) }
    ensures bounded { IfOk result (λ t. t.first.bounded ≡ front.bounded) }
    ensures rest { IfOk result (λ t. t.rest.items ≡ page_file front.rest.items) }
    ensures left { IfOk result (λ t. t.left ≡ length front.rest.items) }
    ensures why { IfOk result (λ t. IsWrittenWhy front.why t.why.items t.beyond) }
{
    let mut tx = GrowingSink::new(alloc);
    let mut cert = GrowingSink::new(alloc);
    let mut rest = GrowingSink::new(alloc);
    let mut why = GrowingSink::new(alloc);
    let Ok(()) = send(&front.round, &front.bounded, &mut tx, &mut cert) else {
        return Err(OutOfMemory);
    };
    write_page_file(alloc, front.rest.as_slice(), &mut rest).map_err(|_| OutOfMemory)?;
    let mut beyond = 0;
    if let Some(Certificate { end, batches, tree }) = &front.why {
        write_text(*end, *batches, tree, &mut why).map_err(|_| OutOfMemory)?;
        beyond = *batches;
    }
    Ok(FrontTexts {
        first: PlanTexts {
            sent: tx.into_bytes(),
            certificate: cert.into_bytes(),
            bounded: front.bounded,
        },
        rest: rest.into_bytes(),
        left: front.rest.len() as u32,
        why: why.into_bytes(),
        beyond,
    })
}

// Plans the longest front of a page file that so many batches carry, as is asked, and writes it.
fn front_texts(
    alloc: Global,
    pages: &[u8],
    batches: u32,
    search: Search,
) -> Result<FrontTexts, UnsentFront>
    ensures front { IfOk result (λ t. IsOfRound pages.now (λ round.
        IsFrontFor search round batches t.first.bounded.plan.pages)) }
    ensures longest { search.on_limit ≡ OnLimit.Fewest → IfOk result (λ t. IsOfRound pages.now (λ round.
        IsLongestFront search.end round batches t.first.bounded.plan.pages)) }
    ensures headline { IfOk result (λ t. IsOfRound pages.now (λ round.
        RoundHeadline (take t.first.bounded.plan.pages round) search.end t.first.bounded.plan.batches
        t.first.bounded.bound (bound_tree_of t.first.bounded.plan.tree) t.first.sent.items t.first.certificate.items)) }
    ensures plan { IfOk result (λ t. IsOfRound pages.now (λ round.
        IsPlanFor search (take t.first.bounded.plan.pages round) t.first.bounded)) }
    ensures within { IfOk result (λ t. t.first.bounded.plan.batches ≤ batches) }
    ensures rest { IfOk result (λ t. IsOfRound pages.now (λ round.
        verdict t.rest.items ≡ unless_empty (drop t.first.bounded.plan.pages round))) }
    ensures left { IfOk result (λ t. IsOfRound pages.now (λ round.
        t.left ≡ length (drop t.first.bounded.plan.pages round))) }
    ensures why { IfOk result (λ t.
        IsTextOfWhy search pages.now batches t.first.bounded.plan.pages t.why.items t.beyond) }
    ensures explained { IfErr result (ExplainsUnfronted pages.now search batches) }
    ensures unread { IfErr result (λ e. e ≢ UnsentFront.Stream (stream_fault.Round round_fault.ReadFault)) }
{
    recall_page_files_are_read_back();
    recall_pages_of_files_are_spellable();
    if !is_node_limit(search.limit) {
        return Err(UnsentFront::Stream(StreamFault::Plan(PlanFault::BadLimit)));
    }
    let round = match read_round(alloc, &mut SliceSource::new(pages)) {
        Ok(round) => round,
        Err(fault) => return Err(UnsentFront::Stream(StreamFault::Round(fault))),
    };
    round.recall_rules();
    let front = match longest_front(alloc, round, batches, search) {
        Ok(front) => front,
        Err(NoFront::Plan(fault)) => return Err(UnsentFront::Stream(StreamFault::Plan(fault))),
        Err(NoFront::FirstPage(needed)) => return Err(UnsentFront::FirstPage(needed)),
    };
    match texts_of(alloc, front) {
        Ok(texts) => Ok(texts),
        Err(_) => Err(UnsentFront::Stream(StreamFault::Plan(PlanFault::OutOfMemory))),
    }
}

// Puts the four texts into their buffers, if each has room for its text, and reports their lengths. A buffer of no byte for
// the pages that are left, or for one page more, is not wanted.
fn hand_out_front(
    front: &FrontTexts,
    tx: &mut [u8],
    tx_len: &mut usize,
    cert: &mut [u8],
    cert_len: &mut usize,
    rest: &mut [u8],
    rest_len: &mut usize,
    why: &mut [u8],
    why_len: &mut usize,
) -> u32
    ensures status { IsFront result }
    ensures not_end { result ≢ 2 }
    ensures transmission { result ≡ 0 → IsDelivered tx.old tx.new tx_len.new front.now.first.sent.items }
    ensures text { result ≡ 0 → IsDelivered cert.old cert.new cert_len.new front.now.first.certificate.items }
    ensures rest { result ≡ 0 → IsPutIfWanted rest.old rest.new rest_len.new front.now.rest.items }
    ensures why { result ≡ 0 → IsPutIfWanted why.old why.new why_len.new front.now.why.items }
    ensures length { tx_len.new ≡ length front.now.first.sent.items }
    ensures cert_length { cert_len.new ≡ length front.now.first.certificate.items }
    ensures rest_length { rest_len.new ≡ length front.now.rest.items }
    ensures why_length { why_len.new ≡ length front.now.why.items }
    ensures small { result ≡ 7 → length tx.old < tx_len.new }
    ensures cert_small { result ≡ 8 → length cert.old < cert_len.new }
    ensures rest_small { result ≡ 13 → length rest.old < rest_len.new }
    ensures why_small { result ≡ 14 → length why.old < why_len.new }
    ensures untouched { result ≢ 0 →
        (tx.new ≡ tx.old) × (cert.new ≡ cert.old) × (rest.new ≡ rest.old) × (why.new ≡ why.old) }
{
    let others = front.rest.as_slice();
    let beyond = front.why.as_slice();
    *tx_len = front.first.sent.len();
    *cert_len = front.first.certificate.len();
    *rest_len = others.len();
    *why_len = beyond.len();
    if !rest.is_empty() && rest.len() < others.len() {
        return 13;
    }
    if !why.is_empty() && why.len() < beyond.len() {
        return 14;
    }
    let status = hand_out_both(&front.first, tx, tx_len, cert, cert_len);
    if status != 0 {
        return status;
    }
    hand_out(others, 13, rest, rest_len);
    hand_out(beyond, 14, why, why_len);
    0
}

/// Plans the longest front of a page file that so many batches carry, as `pocsag_plan` plans all of it, and puts the page
/// file of the pages that are left, and the certificate of one page more, into two further buffers: 0, or 13 or 14 where
/// that of the rest or of the certificate is too small; a buffer of 0 bytes means that its content is not wanted. 12 where
/// not even the first page fits.
#[unsafe(no_mangle)]
pub extern "C" fn pocsag_plan_at_most(
    alloc: Global,
    pages: &[u8],
    batches: u32,
    tx: &mut [u8],
    tx_len: &mut usize,
    cert: &mut [u8],
    cert_len: &mut usize,
    rest: &mut [u8],
    rest_len: &mut usize,
    why: &mut [u8],
    why_len: &mut usize,
    limit: u32,
    end: u32,
    always: u32,
    info: &mut FrontInfo,
) -> u32
    // As many first pages as so many batches carry; where `always` is not 0, as many as the planner found to fit.
    ensures longest { IsFront result → always ≡ 0 → IsLongestTold pages.now end batches info.new }
    ensures front { IsFront result → IsRequiredFront pages.now end limit always batches info.new }
    ensures within { IsFront result → info.new.batches ≤ batches }
    ensures fewest { IsFront result → always ≡ 0 → info.new.bound ≡ info.new.batches }
    ensures counted { IsFront result → IsCountedFirst pages.now info.new }
    // Where `always` is not 0, their plan is no worse than one with 0 at this limit.
    ensures no_worse { IsFront result → IsNoWorseFront pages.now end limit always info.new }

    // The headline with a bound of these pages, of the bytes that stand in the two buffers; and the other two.
    ensures planned { result ≡ 0 →
        IsPlannedInto (IsFrontHeadline pages.now end info.new) tx.old tx.new tx_len.new cert.old cert.new cert_len.new }
    ensures rest { result ≡ 0 → IsGivenIfWanted (IsRestOf pages.now info.new) rest.old rest.new rest_len.new }
    ensures why { result ≡ 0 →
        IsGivenIfWanted (IsBeyond pages.now end limit always batches info.new) why.old why.new why_len.new }

    // Too small a buffer: the lengths are those of such texts.
    ensures no_room { IsFront result →
        HasNoRoomForBoth (IsFrontHeadline pages.now end info.new) tx_len.new cert_len.new }
    ensures rest_length { IsFront result → HasLengthOf (IsRestOf pages.now info.new) rest_len.new }
    ensures why_length { IsFront result →
        HasLengthOf (IsBeyond pages.now end limit always batches info.new) why_len.new }
    ensures small { result ≡ 7 → length tx.old < tx_len.new }
    ensures cert_small { result ≡ 8 → length cert.old < cert_len.new }
    ensures rest_small { result ≡ 13 → length rest.old < rest_len.new }
    ensures why_small { result ≡ 14 → length why.old < why_len.new }

    // Any other status says why there is no front, and never that a device failed; all buffers are as they were.
    ensures bad_end { result ≡ 2 ↔ IsNoEnd end }
    ensures fault { IsWithoutFront result →
        PrintsFault front_refusal (ExplainsFrontPlanning pages.now end limit always batches)
        result info.new.place }
    ensures answered { always ≢ 0 → result ≢ 6 }
    ensures placeless { IsFront result ⊎ (result ≡ 2) → info.new.place ≡ nowhere }
    ensures nothing { IsWithoutFront result ⊎ (result ≡ 2) → (tx_len.new ≡ 0) × (cert_len.new ≡ 0)
        × (rest_len.new ≡ 0) × (why_len.new ≡ 0) × (info.new ≡ no_front info.new.place) }
    ensures of_bytes { IsOfBytes result }
    ensures untouched { result ≢ 0 →
        (tx.new ≡ tx.old) × (cert.new ≡ cert.old) × (rest.new ≡ rest.old) × (why.new ≡ why.old) }
{
    *tx_len = 0;
    *cert_len = 0;
    *rest_len = 0;
    *why_len = 0;
    *info = FrontInfo::default();
    let Some(search) = search_of(limit, end, always) else {
        return 2;
    };
    match front_texts(alloc, pages, batches, search) {
        Ok(front) => {
            let BoundedPlan { plan, bound, .. } = &front.first.bounded;
            *info = FrontInfo {
                pages: plan.pages,
                left: front.left,
                codewords: plan.codewords,
                in_order: plan.in_order,
                batches: plan.batches,
                bound: *bound,
                beyond: front.beyond,
                place: NOWHERE,
            };
            hand_out_front(
                &front, tx, tx_len, cert, cert_len, rest, rest_len, why, why_len,
            )
        }
        Err(fault) => refused_front(fault).put(&mut info.place),
    }
}
