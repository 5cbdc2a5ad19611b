ghost use Rattle.std.specs.Prelude.{◌≡◌, ◌⊎◌, false, IfOk, IfErr, OnOk};
ghost use Rattle.pocsag_words.specs.Devices.{HasFailed, IsOfCut};
ghost use Rattle.pocsag_pages.specs.PageFile.{verdict};
ghost use Rattle.pocsag_pages.specs.declared.fault.RoundFault.TheVariants as round;
ghost use Rattle.pocsag_batch.specs.Streams.{ExplainsFault, IsBeforeTransmission, LeavesPrefix, WritesInOrder};
ghost use Rattle.pocsag_batch.specs.declared.stream.FirstFault.TheVariants as fault;

use crate::bytes::write;
use crate::order::lay_in_order;
use pocsag_pages::{RoundFault, read_round};
use pocsag_words::{Sink, Source};
use std::alloc::Global;
use thiserror::Error;

/// Why a page file was not written in file order.
#[derive(Clone, Copy, PartialEq, Eq, Debug, Error)]
pub enum FirstFault {
    /// The page file gives no round.
    #[error(transparent)]
    Round(RoundFault),
    #[error("out of memory")]
    OutOfMemory,
    /// The transmission was not taken whole; what was taken is a prefix of it.
    #[error("cannot write")]
    WriteFault,
}

/// Reads a page file up to its end, writes its round in file order with the open end, and returns the number of
/// batches. Nothing is written before the round is read and laid out.
pub fn first_stream<S: Source, T: Sink>(
    alloc: Global,
    source: &mut S,
    tx: &mut T,
) -> Result<u32, FirstFault>
    ensures written { S.is_known → T.is_known →
        IfOk result (λ n. WritesInOrder (verdict (S.held source.old)) (T.taken tx.old) (T.taken tx.new) n) }

    // When each fault comes, and what it leaves.
    ensures explained { S.is_known → IfErr result (ExplainsFault (verdict (S.held source.old))) }
    ensures untouched { IfErr result (λ e. IsBeforeTransmission e → tx.new ≡ tx.old) }
    ensures part { S.is_known → T.is_known → result ≡ Err fault.WriteFault →
        LeavesPrefix (verdict (S.held source.old)) (T.taken tx.old) (T.taken tx.new) }

    // A device's fault is answered exactly where that device failed.
    ensures read_failed { result ≡ Err (fault.Round round.ReadFault) →
        HasFailed (S.failures source.old) (S.failures source.new) }
    ensures write_failed { result ≡ Err fault.WriteFault → HasFailed (T.failures tx.old) (T.failures tx.new) }
    ensures read { OnOk result (S.failures source.new ≡ S.failures source.old) }
    ensures wrote { OnOk result (T.failures tx.new ≡ T.failures tx.old) }
    ensures unfailed { IfErr result
        (λ e. (e ≡ fault.Round round.ReadFault) ⊎ (S.failures source.new ≡ S.failures source.old)) }

    // It writes no page file that is cut.
    ensures uncut { S.is_known → OnOk result (S.is_cut source.old ≡ false) }
    ensures cut { S.is_known → IfErr result
        (IsOfCut (fault.Round round.ReadFault) (fault.Round round.TooLarge) (S.is_cut source.old)) }
{
    let round = match read_round(alloc, source) {
        Ok(round) => round,
        Err(fault) => return Err(FirstFault::Round(fault)),
    };
    let batches = match lay_in_order(alloc, &round) {
        Ok(batches) => batches,
        Err(_) => return Err(FirstFault::OutOfMemory),
    };
    match write(&batches, tx) {
        Ok(()) => Ok(batches.count()),
        Err(_) => Err(FirstFault::WriteFault),
    }
}
