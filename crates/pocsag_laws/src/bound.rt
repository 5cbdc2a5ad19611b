ghost use Rattle.pocsag_check.specs.Acceptance.{Accepts, AcceptsRoot, IsAccepted};
ghost use Rattle.pocsag_check.specs.Fits.{Fits};
ghost use Rattle.pocsag_findings.specs.Findings.{AllHold, findings_of};
ghost use Rattle.pocsag_pages.specs.Reading.{AreApart, IsLegalFor};
ghost use Rattle.pocsag_pages.specs.declared.page.Page.{Page};
ghost use Rattle.pocsag_plan.specs.BoundedHeadline.{IsHeadlineWhereTight};
ghost use Rattle.pocsag_slots.specs.Loads.{AreClassesOf};
ghost use Rattle.pocsag_slots.specs.declared.class.Classes.{Classes};
ghost use Rattle.pocsag_slots.specs.declared.limit.Limits.{Limits};
ghost use Rattle.pocsag_tree.specs.BoundTrees.{BoundTree, depth_of, all_nodes, closed_nodes};
ghost use Rattle.pocsag_tree.specs.CertificateText.{HasText};
ghost use Rattle.pocsag_tree.specs.Limits.{most_nodes, second_ranges};
ghost use Rattle.pocsag_words.specs.declared.codeword.Kind.{Kind};
ghost use Rattle.pocsag_words.specs.declared.ending.End.{End};
ghost use Rattle.std.specs.Prelude.{ℕ, ◌≤◌, false, List, ◌≡◌, ◌^◌, ◌<◌, Bool};

/// Where a tree is accepted for so many batches, each legal transmission has at least as many; and the limits of an
/// accepted node are met by no transmission.
pub fn accepted_trees_bound()
    ensures batches { (k : Classes) (end : End) (R : List Page) (T : List Kind) (batches n : ℕ) (t : BoundTree) →
        AreApart R → AreClassesOf k end R → AcceptsRoot false k end batches t → IsLegalFor end T n R → batches ≤ n }
    ensures limits { (k : Classes) (end : End) (R : List Page) (T : List Kind) (b : ℕ) (l : Limits) (t : BoundTree) →
        AreApart R → AreClassesOf k end R → Accepts false k end b l t → Fits T end R b l → ⊥ }
{}

/// Where its bound is the number of batches, the headline with a bound is the headline.
pub fn tight_headlines_are_headlines()
    ensures { IsHeadlineWhereTight }
{}

/// Of an accepted tree all that is found holds, however deep it is listed: so a tree of which something does not hold is
/// not accepted. And a tree is accepted where all that is found of it holds, each node being listed.
pub fn accepted_trees_hold()
    ensures hold { (k : Classes) (end : End) (batches depth : ℕ) (t : BoundTree) →
        AcceptsRoot false k end batches t → AllHold (findings_of k end batches depth t) }
    ensures accepted { (k : Classes) (end : End) (batches depth : ℕ) (t : BoundTree) → depth_of t ≤ depth →
        AllHold (findings_of k end batches depth t) → AcceptsRoot false k end batches t }
{}

/// An accepted tree can be written, where its nodes are few enough; and where no node that was not examined
/// is accepted, it has none.
pub fn accepted_trees_have_texts()
    ensures text { (takes_open : Bool) (k : Classes) (end : End) (batches : ℕ) (t : BoundTree) →
        IsAccepted takes_open k end batches t → batches < 2 ^ 32 → all_nodes t ≤ most_nodes →
        HasText second_ranges batches t }
    ensures closed { (k : Classes) (end : End) (batches : ℕ) (t : BoundTree) →
        IsAccepted false k end batches t → all_nodes t ≡ closed_nodes t }
{}
