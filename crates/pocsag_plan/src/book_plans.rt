//! The round that an open round is sent as.
ghost use Rattle.std.specs.Prelude.{◌≡◌, ◌<◌, ◌≤◌, ◌↔◌, [], length, take, IfErr, IfOk, IsErrOf, OnOk};
ghost use Rattle.pocsag_pages.specs.Pages.{IsRound};
ghost use Rattle.pocsag_tree.specs.BoundTrees.{closed_nodes};
ghost use Rattle.pocsag_tree.specs.Views.{bound_tree_of};
ghost use Rattle.pocsag_branch.specs.Found.{IsNodeLimit};
ghost use Rattle.pocsag_plan.specs.BookPlans.{ExplainsBook, ExplainsBookFront, ExplainsBookStream};
ghost use Rattle.pocsag_plan.specs.Fronts.{IsFrontFor, IsLongestFront};
ghost use Rattle.pocsag_plan.specs.Headline.{RoundHeadline};
ghost use Rattle.pocsag_plan.specs.Plans.{IsPlan, IsPlanFor};
ghost use Rattle.pocsag_plan.specs.declared.fault.PlanFault.TheVariants as plan_fault;
ghost use Rattle.pocsag_plan.specs.declared.fault.StreamFault.TheVariants as stream_fault;
ghost use Rattle.pocsag_plan.specs.Streams.{fault_in, unsent_fault_in, HasFrontHeadline, HasHeadline, IsCertificate, IsFirstPage, IsSearchLimit, IsTransmission, OfStream, WritesAllOf, WritesCertificatePartOf, WritesInTurn, WritesPartOf};

use crate::answer::Plan;
use crate::book::Book;
use crate::bounded::BoundedPlan;
use crate::fault::{NoFront, PlanFault, StreamFault, UnsentFront};
use crate::front::longest_front;
use crate::plans::{counted_plan, is_node_limit};
use crate::refusal::BookFault;
use crate::search::{OnLimit, Search};
use crate::streams::send;
use pocsag_pages::{Round, RoundFault};
use pocsag_words::{End, OutOfMemory, Sink};
use std::alloc::Global;

impl Book {
    // A round of copies of the pages, of which there must be one at least.
    pub(crate) fn to_round(&self, alloc: Global) -> Result<Round, OutOfMemory>
        requires { 0 < length self.now }
        ensures round { IfOk result (λ round. round ≡ self.now) }
        ensures good { IsRound self.now }
    {
        let mut copies = Vec::new(alloc);
        for page in self.pages() {
            copies.push(page.copy(alloc)?)?;
        }
        Ok(Round::of(copies))
    }

    // The round, and its plan over the class table that the book keeps for the end.
    fn planned(&self, search: Search) -> Result<(Round, BoundedPlan), BookFault>
        ensures round { IfOk result (λ both. (both.0 ≡ self.now) × IsRound self.now) }
        ensures plan { IfOk result (λ both. IsPlanFor search self.now both.1) }
        ensures bad_limit { IsErrOf result (BookFault.Plan PlanFault.BadLimit) ↔ (¬ IsNodeLimit search.limit) }
        ensures no_pages { IsErrOf result BookFault.NoPages ↔ (IsNodeLimit search.limit × (self.now ≡ [])) }
        ensures fault { IfErr result (ExplainsBook search.on_limit search.end self.now search.limit) }
    {
        if !is_node_limit(search.limit) {
            return Err(BookFault::Plan(PlanFault::BadLimit));
        }
        if self.is_empty() {
            return Err(BookFault::NoPages);
        }
        let alloc = self.allocator();
        let Ok(round) = self.to_round(alloc) else {
            return Err(BookFault::Plan(PlanFault::OutOfMemory));
        };
        match counted_plan(alloc, &round, self.classes(search.end), search) {
            Ok(bounded) => Ok((round, bounded)),
            Err(fault) => Err(BookFault::Plan(fault)),
        }
    }

    /// Plans the round of the pages, as `plan` does, over the class table that the book keeps for the end.
    /// `BadLimit` where the node limit is 0 or above 1,000,000, then `NoPages`, then as `plan`.
    pub fn plan(&self, limit: u32, end: End) -> Result<Plan, BookFault>
        ensures round { OnOk result (IsRound self.now) }
        ensures plan { IfOk result (IsPlan end self.now) }
        ensures small { IfOk result (λ plan. closed_nodes (bound_tree_of plan.tree) ≤ limit) }
        ensures bad_limit { IsErrOf result (BookFault.Plan PlanFault.BadLimit) ↔ (¬ IsNodeLimit limit) }
        ensures no_pages { IsErrOf result BookFault.NoPages ↔ (IsNodeLimit limit × (self.now ≡ [])) }
        ensures fault { IfErr result (ExplainsBook OnLimit.Fewest end self.now limit) }
    {
        let on_limit = OnLimit::Fewest;
        let (_round, bounded) = self.planned(Search {
            limit,
            end,
            on_limit,
        })?;
        Ok(bounded.plan)
    }

    /// Plans the round of the pages as is asked, and writes the transmission whole and then the certificate, as
    /// `bounded_stream` does for a page file of these pages. Where there are no pages it returns `Round(NoPages)`.
    pub fn bounded_stream<T: Sink, C: Sink>(
        &self,
        tx: &mut T,
        cert: &mut C,
        search: Search,
    ) -> Result<BoundedPlan, StreamFault>
        ensures headline { T.is_known → C.is_known → IfOk result (λ bounded. WritesAllOf
            (RoundHeadline self.now search.end bounded.plan.batches bounded.bound (bound_tree_of bounded.plan.tree))
            (T.taken tx.old) (T.taken tx.new) (C.taken cert.old) (C.taken cert.new)) }
        ensures plan { IfOk result (IsPlanFor search self.now) }

        // When each fault comes, and what it leaves.
        ensures explained { IfErr result (ExplainsBookStream search.on_limit search.end self.now search.limit) }
        ensures answered { search.on_limit ≡ OnLimit.Always → IfErr result (λ e. ¬ IsSearchLimit e) }
        ensures bad_limit { IsErrOf result (StreamFault.Plan PlanFault.BadLimit) ↔ (¬ IsNodeLimit search.limit) }
        ensures writers { WritesInTurn T.failures C.failures tx.old tx.new cert.old cert.new (fault_in result) }
        ensures part { T.is_known → IfErr result (λ e. IsTransmission e →
            WritesPartOf (HasHeadline search.on_limit self.now search.end) (T.taken tx.old) (T.taken tx.new)) }
        ensures certificate_part { T.is_known → C.is_known → IfErr result (λ e. IsCertificate e →
            WritesCertificatePartOf (HasHeadline search.on_limit self.now search.end)
            (T.taken tx.old) (T.taken tx.new) (C.taken cert.old) (C.taken cert.new)) }
    {
        let (round, bounded) = self.planned(search)?;
        send(&round, &bounded, tx, cert)?;
        Ok(bounded)
    }

    /// Plans the longest front of the pages that so many batches carry, as `longest_front` does, and writes its
    /// transmission whole and then its certificate; its pages are the first `plan.pages` of the book. Faults in order:
    /// `BadLimit`; `Round(NoPages)`; `FirstPage`, where not even the first page fits; `SearchLimit`; `OutOfMemory`;
    /// `Transmission`; `Certificate`.
    pub fn front_stream<T: Sink, C: Sink>(
        &self,
        tx: &mut T,
        cert: &mut C,
        batches: u32,
        search: Search,
    ) -> Result<BoundedPlan, UnsentFront>
        ensures round { OnOk result (IsRound self.now) }
        ensures front { IfOk result (λ bounded. IsFrontFor search self.now batches bounded.plan.pages) }
        ensures longest { search.on_limit ≡ OnLimit.Fewest → IfOk result (λ bounded.
            IsLongestFront search.end self.now batches bounded.plan.pages) }

        // The headline of these first pages.
        ensures headline { T.is_known → C.is_known → IfOk result (λ bounded. WritesAllOf
            (RoundHeadline (take bounded.plan.pages self.now) search.end bounded.plan.batches bounded.bound
            (bound_tree_of bounded.plan.tree))
            (T.taken tx.old) (T.taken tx.new) (C.taken cert.old) (C.taken cert.new)) }
        ensures plan { IfOk result (λ bounded. IsPlanFor search (take bounded.plan.pages self.now) bounded) }
        ensures within { IfOk result (λ bounded. bounded.plan.batches ≤ batches) }

        // When each fault comes, and what it leaves.
        ensures explained { IfErr result (ExplainsBookFront search self.now batches) }
        ensures bad_limit { IsErrOf result (UnsentFront.Stream (stream_fault.Plan plan_fault.BadLimit))
            ↔ (¬ IsNodeLimit search.limit) }
        ensures writers { WritesInTurn T.failures C.failures tx.old tx.new cert.old cert.new (unsent_fault_in result) }
        ensures first_page { IfErr result (λ e. IsFirstPage e → (tx.new ≡ tx.old) × (cert.new ≡ cert.old)) }
        ensures part { T.is_known → IfErr result (λ e. OfStream IsTransmission e →
            WritesPartOf (HasFrontHeadline search self.now batches) (T.taken tx.old) (T.taken tx.new)) }
        ensures certificate_part { T.is_known → C.is_known → IfErr result (λ e. OfStream IsCertificate e →
            WritesCertificatePartOf (HasFrontHeadline search self.now batches)
            (T.taken tx.old) (T.taken tx.new) (C.taken cert.old) (C.taken cert.new)) }
    {
        if !is_node_limit(search.limit) {
            return Err(UnsentFront::Stream(StreamFault::Plan(PlanFault::BadLimit)));
        }
        if self.is_empty() {
            return Err(UnsentFront::Stream(StreamFault::Round(RoundFault::NoPages)));
        }
        let alloc = self.allocator();
        let Ok(round) = self.to_round(alloc) else {
            return Err(UnsentFront::Stream(StreamFault::Plan(PlanFault::OutOfMemory)));
        };
        let front = match longest_front(alloc, round, batches, search) {
            Ok(front) => front,
            Err(NoFront::Plan(fault)) => return Err(UnsentFront::Stream(StreamFault::Plan(fault))),
            Err(NoFront::FirstPage(needed)) => return Err(UnsentFront::FirstPage(needed)),
        };
        match send(&front.round, &front.bounded, tx, cert) {
            Ok(()) => Ok(front.bounded),
            Err(fault) => Err(UnsentFront::Stream(fault)),
        }
    }
}
