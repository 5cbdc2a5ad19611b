ghost use Rattle.std.specs.Prelude.{◌≡◌, ◌≤◌, ◌⊎◌, ◌↔◌, false, IfErr, IfOk, IsErrOf, OnOk};
ghost use Rattle.pocsag_words.specs.Devices.{HasFailed, IsOfCut};
ghost use Rattle.pocsag_pages.specs.declared.fault.RoundFault.TheVariants as round_fault;
ghost use Rattle.pocsag_tree.specs.BoundTrees.{closed_nodes};
ghost use Rattle.pocsag_tree.specs.Views.{bound_tree_of};
ghost use Rattle.pocsag_branch.specs.Found.{IsNodeLimit};
ghost use Rattle.pocsag_plan.specs.Plans.{IsBounded, IsNoWorse, IsPlanFor};
ghost use Rattle.pocsag_plan.specs.Streams.{ExplainsStream, fault_in, HeadlineOf, IsBoundedOf, IsCertificate, IsOfRound, IsPlanOf, IsSearchLimit, IsTransmission, IsUnsent, Writes, WritesAllOf, WritesBounded, WritesCertificatePart, WritesCertificatePartOf, WritesInTurn, WritesPart, WritesPartOf};
ghost use Rattle.pocsag_plan.specs.declared.fault.StreamFault.TheVariants as fault;

use crate::answer::Plan;
use crate::bounded::BoundedPlan;
use crate::fault::{PlanFault, StreamFault};
use crate::plans::{bounded_plan, is_node_limit};
use crate::search::{OnLimit, Search};
use pocsag_batch::{Slots, write_slots};
use pocsag_pages::{Round, read_round};
use pocsag_tree::write_text;
use pocsag_words::{End, Sink, Source, WriteFault};
use std::alloc::Global;

/// Reads a page file up to its end, plans its round, and writes the transmission whole and then the certificate.
/// Faults in order: `BadLimit`, before anything is read; `Round`; `SearchLimit`; `OutOfMemory`; `Transmission`;
/// `Certificate`. Nothing is written before the plan is made, and nothing grows after the first byte is written.
pub fn plan_stream<S: Source, T: Sink, C: Sink>(
    alloc: Global,
    source: &mut S,
    tx: &mut T,
    cert: &mut C,
    limit: u32,
    end: End,
) -> Result<Plan, StreamFault>
    // The headline.
    ensures headline { S.is_known → T.is_known → C.is_known → IfOk result (λ plan.
        Writes (S.held source.old) end plan.batches (bound_tree_of plan.tree)
        (T.taken tx.old) (T.taken tx.new) (C.taken cert.old) (C.taken cert.new)) }
    ensures plan { S.is_known → IfOk result (IsPlanOf (S.held source.old) end) }
    ensures small { IfOk result (λ plan. closed_nodes (bound_tree_of plan.tree) ≤ limit) }

    // When each fault comes, and what it leaves.
    ensures explained { S.is_known → IfErr result (ExplainsStream OnLimit.Fewest (S.held source.old) end limit) }
    ensures bad_limit { IsErrOf result (StreamFault.Plan PlanFault.BadLimit) ↔ (¬ IsNodeLimit limit) }
    ensures unread { IsErrOf result (StreamFault.Plan PlanFault.BadLimit) → source.new ≡ source.old }
    ensures writers { WritesInTurn T.failures C.failures tx.old tx.new cert.old cert.new (fault_in result) }
    ensures part { S.is_known → T.is_known → IfErr result (λ e. IsTransmission e →
        WritesPart OnLimit.Fewest (S.held source.old) end (T.taken tx.old) (T.taken tx.new)) }
    ensures certificate_part { S.is_known → T.is_known → C.is_known → IfErr result (λ e. IsCertificate e →
        WritesCertificatePart OnLimit.Fewest (S.held source.old) end
        (T.taken tx.old) (T.taken tx.new) (C.taken cert.old) (C.taken cert.new)) }

    // The reader's fault is answered only where it failed.
    ensures read_failed { IsErrOf result (fault.Round round_fault.ReadFault) →
        HasFailed (S.failures source.old) (S.failures source.new) }
    ensures read_succeeded { OnOk result (S.failures source.new ≡ S.failures source.old) }

    // It plans no page file that is cut.
    ensures uncut { S.is_known → OnOk result (S.is_cut source.old ≡ false) }
    ensures cut { S.is_known → IfErr result (λ e. (e ≡ StreamFault.Plan PlanFault.BadLimit)
        ⊎ IsOfCut (fault.Round round_fault.ReadFault) (fault.Round round_fault.TooLarge) (S.is_cut source.old) e) }
{
    let on_limit = OnLimit::Fewest;
    match bounded_stream(
        alloc,
        source,
        tx,
        cert,
        Search {
            limit,
            end,
            on_limit,
        },
    ) {
        Ok(bounded) => Ok(bounded.plan),
        Err(fault) => Err(fault),
    }
}

/// Reads a page file up to its end, plans its round as `bounded_plan` does with `Always`, and writes the transmission
/// whole and then the certificate, which is for the bound. Faults in order: `BadLimit`, before anything is read;
/// `Round`; `OutOfMemory`; `Transmission`; `Certificate`; never `SearchLimit`. Nothing is written before the plan is
/// made, and nothing grows after the first byte is written.
pub fn plan_stream_always<S: Source, T: Sink, C: Sink>(
    alloc: Global,
    source: &mut S,
    tx: &mut T,
    cert: &mut C,
    limit: u32,
    end: End,
) -> Result<BoundedPlan, StreamFault>
    // The headline with a bound; and where the bound is the batches, the headline.
    ensures headline { S.is_known → T.is_known → C.is_known → IfOk result (λ bounded.
        WritesBounded (S.held source.old) end bounded.plan.batches bounded.bound (bound_tree_of bounded.plan.tree)
        (T.taken tx.old) (T.taken tx.new) (C.taken cert.old) (C.taken cert.new)) }
    ensures fewest { S.is_known → T.is_known → C.is_known →
        IfOk result (λ bounded. bounded.bound ≡ bounded.plan.batches →
        Writes (S.held source.old) end bounded.plan.batches (bound_tree_of bounded.plan.tree)
        (T.taken tx.old) (T.taken tx.new) (C.taken cert.old) (C.taken cert.new)) }
    ensures plan { S.is_known → IfOk result (IsBoundedOf (S.held source.old) end) }
    // Where the bound is below the batches, `plan_stream` stops at the same limit, and all that it says then is so.
    ensures no_worse { S.is_known →
        IfOk result (λ bounded. IsOfRound (S.held source.old) (λ round. IsNoWorse end round limit bounded)) }
    ensures small { IfOk result (λ bounded. closed_nodes (bound_tree_of bounded.plan.tree) ≤ limit) }

    // When each fault comes, and what it leaves.
    ensures explained { S.is_known → IfErr result (ExplainsStream OnLimit.Always (S.held source.old) end limit) }
    ensures answered { IfErr result (λ e. ¬ IsSearchLimit e) }
    ensures bad_limit { IsErrOf result (StreamFault.Plan PlanFault.BadLimit) ↔ (¬ IsNodeLimit limit) }
    ensures unread { IsErrOf result (StreamFault.Plan PlanFault.BadLimit) → source.new ≡ source.old }
    ensures writers { WritesInTurn T.failures C.failures tx.old tx.new cert.old cert.new (fault_in result) }
    ensures part { S.is_known → T.is_known → IfErr result (λ e. IsTransmission e →
        WritesPart OnLimit.Always (S.held source.old) end (T.taken tx.old) (T.taken tx.new)) }
    ensures certificate_part { S.is_known → T.is_known → C.is_known → IfErr result (λ e. IsCertificate e →
        WritesCertificatePart OnLimit.Always (S.held source.old) end
        (T.taken tx.old) (T.taken tx.new) (C.taken cert.old) (C.taken cert.new)) }

    // The reader's fault is answered only where it failed.
    ensures read_failed { IsErrOf result (fault.Round round_fault.ReadFault) →
        HasFailed (S.failures source.old) (S.failures source.new) }
    ensures read_succeeded { OnOk result (S.failures source.new ≡ S.failures source.old) }

    // It plans no page file that is cut.
    ensures uncut { S.is_known → OnOk result (S.is_cut source.old ≡ false) }
    ensures cut { S.is_known → IfErr result (λ e. (e ≡ StreamFault.Plan PlanFault.BadLimit)
        ⊎ IsOfCut (fault.Round round_fault.ReadFault) (fault.Round round_fault.TooLarge) (S.is_cut source.old) e) }
{
    let on_limit = OnLimit::Always;
    bounded_stream(
        alloc,
        source,
        tx,
        cert,
        Search {
            limit,
            end,
            on_limit,
        },
    )
}

/// Reads a page file up to its end, plans its round and writes both as is asked: `plan_stream` with the bound
/// of its plan, which is its batches, or `plan_stream_always`.
pub fn bounded_stream<S: Source, T: Sink, C: Sink>(
    alloc: Global,
    source: &mut S,
    tx: &mut T,
    cert: &mut C,
    search: Search,
) -> Result<BoundedPlan, StreamFault>
    ensures headline { S.is_known → T.is_known → C.is_known → IfOk result (λ bounded.
        WritesBounded (S.held source.old) search.end bounded.plan.batches bounded.bound
        (bound_tree_of bounded.plan.tree)
        (T.taken tx.old) (T.taken tx.new) (C.taken cert.old) (C.taken cert.new)) }
    ensures plan { S.is_known →
        IfOk result (λ bounded. IsOfRound (S.held source.old) (λ round. IsPlanFor search round bounded)) }
    ensures small { IfOk result (λ bounded. closed_nodes (bound_tree_of bounded.plan.tree) ≤ search.limit) }

    // When each fault comes, and what it leaves.
    ensures explained { S.is_known →
        IfErr result (ExplainsStream search.on_limit (S.held source.old) search.end search.limit) }
    ensures answered { search.on_limit ≡ OnLimit.Always → IfErr result (λ e. ¬ IsSearchLimit e) }
    ensures bad_limit { IsErrOf result (StreamFault.Plan PlanFault.BadLimit) ↔ (¬ IsNodeLimit search.limit) }
    ensures unread { IsErrOf result (StreamFault.Plan PlanFault.BadLimit) → source.new ≡ source.old }
    ensures writers { WritesInTurn T.failures C.failures tx.old tx.new cert.old cert.new (fault_in result) }
    ensures part { S.is_known → T.is_known → IfErr result (λ e. IsTransmission e →
        WritesPart search.on_limit (S.held source.old) search.end (T.taken tx.old) (T.taken tx.new)) }
    ensures certificate_part { S.is_known → T.is_known → C.is_known → IfErr result (λ e. IsCertificate e →
        WritesCertificatePart search.on_limit (S.held source.old) search.end
        (T.taken tx.old) (T.taken tx.new) (C.taken cert.old) (C.taken cert.new)) }

    // The reader's fault is answered only where it failed.
    ensures read_failed { IsErrOf result (fault.Round round_fault.ReadFault) →
        HasFailed (S.failures source.old) (S.failures source.new) }
    ensures read_succeeded { OnOk result (S.failures source.new ≡ S.failures source.old) }

    // It plans no page file that is cut.
    ensures uncut { S.is_known → OnOk result (S.is_cut source.old ≡ false) }
    ensures cut { S.is_known → IfErr result (λ e. (e ≡ StreamFault.Plan PlanFault.BadLimit)
        ⊎ IsOfCut (fault.Round round_fault.ReadFault) (fault.Round round_fault.TooLarge) (S.is_cut source.old) e) }
{
    if !is_node_limit(search.limit) {
        return Err(StreamFault::Plan(PlanFault::BadLimit));
    }
    let round = match read_round(alloc, source) {
        Ok(round) => round,
        Err(fault) => return Err(StreamFault::Round(fault)),
    };
    let bounded = match bounded_plan(alloc, &round, search) {
        Ok(bounded) => bounded,
        Err(fault) => return Err(StreamFault::Plan(fault)),
    };
    match send(&round, &bounded, tx, cert) {
        Ok(()) => Ok(bounded),
        Err(fault) => Err(fault),
    }
}

/// Writes the transmission of a plan of the round whole, and then the certificate of its bound. It is handed no
/// allocator. Faults: `Transmission`, `Certificate`.
pub fn send<T: Sink, C: Sink>(
    round: &Round,
    bounded: &BoundedPlan,
    tx: &mut T,
    cert: &mut C,
) -> Result<(), StreamFault>
    requires { IsBounded bounded.now.plan.end round.now bounded.now.plan bounded.now.bound }
    ensures whole { T.is_known → C.is_known → OnOk result (WritesAllOf (HeadlineOf round.now bounded.now)
        (T.taken tx.old) (T.taken tx.new) (C.taken cert.old) (C.taken cert.new)) }
    ensures part { T.is_known → IfErr result (λ e. IsTransmission e →
        WritesPartOf (HeadlineOf round.now bounded.now) (T.taken tx.old) (T.taken tx.new)) }
    ensures certificate_part { T.is_known → C.is_known → IfErr result (λ e. IsCertificate e →
        WritesCertificatePartOf (HeadlineOf round.now bounded.now)
        (T.taken tx.old) (T.taken tx.new) (C.taken cert.old) (C.taken cert.new)) }
    ensures writers { WritesInTurn T.failures C.failures tx.old tx.new cert.old cert.new (fault_in result) }
    ensures unsent { IfErr result IsUnsent }
{
    round.recall_rules();
    let plan = &bounded.plan;
    let slots = Slots::new(round, &plan.steps, &plan.order);
    let Ok(()) = write_slots(slots, tx) else {
        return Err(StreamFault::Transmission(WriteFault));
    };
    match write_text(plan.end, bounded.bound, &plan.tree, cert) {
        Ok(()) => Ok(()),
        Err(_) => Err(StreamFault::Certificate(WriteFault)),
    }
}
