ghost use Rattle.std.specs.Prelude.{◌≡◌, ◌⊎◌, ◌↔◌, List, ℕ, false, map, Err, IfErr, IfOk, IsTrue, Ok, OnOk};
ghost use Rattle.pocsag_words.specs.Devices.{HasFailed, IsOfCut};
ghost use Rattle.pocsag_words.specs.Kinds.{kind_of};
ghost use Rattle.pocsag_pages.specs.Bytes.{Sent};
ghost use Rattle.pocsag_pages.specs.PageFile.{verdict};
ghost use Rattle.pocsag_pages.specs.Pages.{AreGood};
ghost use Rattle.pocsag_pages.specs.Queues.{IsQueue, firsts};
ghost use Rattle.pocsag_pages.specs.Reading.{EndsAs};
ghost use Rattle.pocsag_tree.specs.Views.{bound_tree_of};
ghost use Rattle.pocsag_shell.specs.Readers.{IsSoOfHeld};
ghost use Rattle.pocsag_shell.specs.Runs.{IsStreamOf, Ran};
ghost use Rattle.pocsag_plan.specs.Plans.{NoneHasFewer};
ghost use Rattle.pocsag_centre.specs.FrontFiles.{sent_pages};
ghost use Rattle.pocsag_centre.specs.Verification.{ExplainsReadback, ExplainsUntaken, IsExpectedBound, IsTransmissionOf, ShowsExpected, verifies, verifies_round};

use crate::fault::CentreFault;
use crate::front::FrontAsked;
use crate::oversized::{PageParts, part_pages};
use crate::plan::PlanFiles;
use crate::sent_marks::are_sent;
use pocsag_check::check;
use pocsag_decode::{DecodeFault, judge_bytes};
use pocsag_pages::{
    Page, Round, RoundFault, first_pages, preamble_len, read_pages, read_round, read_whole,
};
use pocsag_plan::{OnLimit, Search};
use pocsag_shell::{ErrorStream, FileFault, put_whole};
use pocsag_tree::{Certificate, read_certificate};
use pocsag_words::{BATCH_BYTES, End, INPUT_LIMIT, OutOfMemory, Sink, Source};
use std::alloc::Global;

// The bytes of the idle codeword.
const IDLE_BYTES: [u8; 4] = [0x7A, 0x89, 0xC1, 0x97];

/// A front that was written.
#[derive(Clone, Copy)]
pub struct WrittenFront {
    /// What was asked for.
    pub asked: FrontAsked,
    /// How many pages it has.
    pub count: u32,
}

/// `--verify`: reads a transmission and a certificate back, and reports `verified` where the one holds the pages of the page file
/// and ends as is asked for, and the other shows its number of batches for them and the end, or, where no round is to be refused,
/// that number or one less. Returns the exit status.
pub fn run_verify<P: Source + Drop, T: Source + Drop, C: Source + Drop, O: Sink, E: Sink + Drop>(
    alloc: Global,
    search: Search,
    files: &mut PlanFiles<P, T, C>,
    out: &mut O,
    err: &mut ErrorStream<CentreFault, E>,
) -> u8
    ensures ran { Ran (verifies P.Source T.Source C.Source verdict search files.old files.new) O.Sink E.Sink
        result out.old out.new err.old err.new }
{
    let round = read_round(alloc, &mut files.pages);
    err.end(verify(alloc, search, round, files, out))
}

/// The same of a front, whose pages are the first of the round of those that are planned of the page file.
pub fn run_verify_front<
    P: Source + Drop,
    T: Source + Drop,
    C: Source + Drop,
    O: Sink,
    E: Sink + Drop,
>(
    alloc: Global,
    sent: WrittenFront,
    files: &mut PlanFiles<P, T, C>,
    out: &mut O,
    err: &mut ErrorStream<CentreFault, E>,
) -> u8
    ensures ran { Ran (verifies P.Source T.Source C.Source (sent_pages sent) sent.asked.search files.old files.new)
        O.Sink E.Sink result out.old out.new err.old err.new }
{
    let round = read_sent(alloc, sent, &mut files.pages);
    err.end(verify(alloc, sent.asked.search, round, files, out))
}

// The pages of a front, of its page file.
fn read_sent<P: Source>(
    alloc: Global,
    sent: WrittenFront,
    pages: &mut P,
) -> Result<Round, RoundFault>
    ensures ok { P.is_known → IfOk result (λ r. sent_pages sent (P.held pages.old) ≡ Ok r) }
    ensures err { P.is_known → IfErr result
        (λ e. (e ≡ RoundFault.OutOfMemory) ⊎ (e ≡ RoundFault.ReadFault)
        ⊎ (sent_pages sent (P.held pages.old) ≡ Err e)) }
    ensures uncut { P.is_known → OnOk result (P.is_cut pages.old ≡ false) }
    ensures cut { P.is_known → IfErr result (IsOfCut RoundFault.ReadFault RoundFault.TooLarge (P.is_cut pages.old)) }
    ensures failed { result ≡ Err RoundFault.ReadFault → HasFailed (P.failures pages.old) (P.failures pages.new) }
{
    let queue = read_pages(alloc, sent.asked.may_wait, pages)?;
    let Ok(PageParts { planned, aside: _ }) = part_pages(alloc, sent.asked, queue) else {
        return Err(RoundFault::OutOfMemory);
    };
    let Ok(round) = round_of_queue(alloc, sent.asked.may_wait, planned) else {
        return Err(RoundFault::OutOfMemory);
    };
    let count = (sent.count as usize).min(round.pages().len());
    if count == 0 {
        return Err(RoundFault::NoPages);
    }
    match round.split(count) {
        Ok((first, _)) => Ok(first),
        Err(_) => Err(RoundFault::OutOfMemory),
    }
}

// The first page of each address of a queue. Where no page may wait, these are all, and none is copied.
fn round_of_queue(alloc: Global, may_wait: bool, queue: Vec<Page>) -> Result<Round, OutOfMemory>
    requires queue { IsQueue queue.items }
    requires apart { may_wait ≡ false → AreGood queue.items }
    ensures { IfOk result (λ round. round ≡ firsts queue.items) }
{
    if may_wait {
        return first_pages(alloc, queue.as_slice());
    }
    Ok(Round::of(queue))
}

// Reads the files of a round back, or tells why there is none; the fault is still to be printed. The text is written without
// memory for it.
fn verify<P: Source + Drop, T: Source + Drop, C: Source + Drop, O: Sink>(
    alloc: Global,
    search: Search,
    round: Result<Round, RoundFault>,
    files: &mut PlanFiles<P, T, C>,
    out: &mut O,
) -> Result<u8, CentreFault>
    ensures kept { files.new.pages ≡ files.old.pages }
    ensures no_round { IfErr round (λ e. (result ≡ Err (CentreFault.Round e)) × (out.new ≡ out.old)) }
    ensures streams { IfOk round (λ r. IsStreamOf (verifies_round T.Source C.Source search r
        files.old.tx files.new.tx files.old.cert files.new.cert) O.Sink out.old out.new result) }
{
    let round = round?;
    let batches = read_batches(alloc, &mut files.tx, &round, search.end)?;
    let certificate = match read_certificate(alloc, &mut files.cert) {
        Ok(certificate) => certificate,
        Err(fault) => return Err(CentreFault::Certificate(fault)),
    };
    if !shows_due(&round, &certificate, batches, search) {
        return Err(CentreFault::NotTheBound);
    }
    put_whole(out, b"verified\n")?;
    Ok(0)
}

// The batches of a transmission of the round's pages that ends as is asked for. What the reader lends is judged where it stands.
fn read_batches<T: Source>(
    alloc: Global,
    tx: &mut T,
    round: &Round,
    end: End,
) -> Result<usize, CentreFault>
    ensures taken { IfOk result (λ batches. IsSoOfHeld T.Source tx.old (IsTransmissionOf end round.now batches)) }
    ensures explained { IfErr result (ExplainsUntaken T.Source end round.now tx.old tx.new) }
{
    let Some(bytes) = tx.lent() else {
        return match read_whole(alloc, tx, INPUT_LIMIT) {
            Ok(bytes) => read_back(alloc, bytes.as_slice(), round, end),
            Err(fault) => Err(CentreFault::File(FileFault::from(fault))),
        };
    };
    if bytes.len() > INPUT_LIMIT {
        return Err(CentreFault::File(FileFault::TooLarge));
    }
    read_back(alloc, bytes, round, end)
}

// Whether a certificate shows for the round and the end the bound that is due beside so many batches.
fn shows_due(round: &Round, certificate: &Certificate, batches: usize, search: Search) -> bool
    ensures due { IsTrue result ↔ ShowsExpected search round.now batches
        certificate.now.end certificate.now.batches (bound_tree_of certificate.now.tree) }
    ensures bound { IsTrue result → NoneHasFewer search.end round.now certificate.now.batches }
{
    if certificate.end != search.end {
        return false;
    }
    if !is_due(certificate.batches as usize, batches, search.on_limit) {
        return false;
    }
    check(round, certificate.batches, &certificate.tree, search.end)
}

// The batches of a transmission of the round's pages that ends as is asked for.
fn read_back(alloc: Global, bytes: &[u8], round: &Round, end: End) -> Result<usize, CentreFault>
    ensures taken { IfOk result (λ batches. IsTransmissionOf end round.now batches bytes.now) }
    ensures explained { IfErr result (ExplainsReadback end round.now bytes.now) }
{
    match judge_bytes(bytes) {
        Ok(()) => {}
        Err(fault) => return Err(CentreFault::Transmission(fault)),
    }
    let is_sent = match are_sent(alloc, bytes, round.pages()) {
        Ok(is_sent) => is_sent,
        Err(_) => return Err(CentreFault::Transmission(DecodeFault::OutOfMemory)),
    };
    if !is_sent {
        return Err(CentreFault::NotThePages);
    }
    if !ends_as(end, bytes) {
        return Err(CentreFault::NotTheEnd);
    }
    // So many whole batches follow the leading bytes AA.
    Ok(bytes.len().saturating_sub(preamble_len(bytes)) / BATCH_BYTES)
}

// Whether a certificate for the bound is due beside a transmission of so many batches.
fn is_due(bound: usize, batches: usize, on_limit: OnLimit) -> bool
    ensures { IsTrue result ↔ IsExpectedBound on_limit bound batches }
{
    match on_limit {
        OnLimit::Fewest => bound == batches,
        OnLimit::Always => bound == batches || bound == batches.saturating_sub(1),
    }
}

// Whether the last codeword of a transmission may be its last: for the closed end it is no message codeword,
// whose first bit is 1, and for the idle end it is the idle one.
fn ends_as(end: End, bytes: &[u8]) -> bool
    ensures { (codewords : List ℕ) → Sent bytes.now codewords →
        IsTrue result ↔ EndsAs end (map kind_of codewords) }
{
    match end {
        End::Open => true,
        End::Closed => bytes.len() >= 4 && bytes[bytes.len() - 4] < 128,
        End::Idle => {
            let from = bytes.len().saturating_sub(4);
            &bytes[from..] == IDLE_BYTES.as_slice()
        }
    }
}
