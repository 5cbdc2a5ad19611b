ghost use Rattle.std.specs.Prelude.{◌↔◌, ℕ, ◌≤◌, List, IsTrue, false, true};
ghost use Rattle.pocsag_pages.specs.Reading.{IsLegalList};
ghost use Rattle.pocsag_slots.specs.Loads.{AreInOrder};
ghost use Rattle.pocsag_tree.specs.Limits.{greatest_depth};
ghost use Rattle.pocsag_tree.specs.Views.{bound_tree_of};
ghost use Rattle.pocsag_check.specs.Acceptance.{AcceptsWithin, IsAcceptedFor};

use crate::checker::{Claim, check_node};
use pocsag_pages::Round;
use pocsag_slots::{Classes, Limits, all_limits, classes_of};
use pocsag_tree::{DEPTH_LIMIT, Tree};
use pocsag_words::End;

/// Whether the node shows that no transmission of so many batches, legal for the end, is within the limits. It takes
/// any tree from anywhere, returns false for one deeper than 300, and looks at nothing below depth 301.
pub fn accepts(classes: &Classes, limits: &Limits, batches: u32, tree: &Tree, end: End) -> bool
    requires { AreInOrder classes.now limits.now }
    ensures { IsTrue result ↔
        AcceptsWithin false classes.now end batches limits.now greatest_depth (bound_tree_of tree.now) }
{
    let claim = Claim {
        classes,
        end,
        batches,
        takes_open: false,
    };
    let mut narrowed = *limits;
    check_node(&claim, &mut narrowed, tree, DEPTH_LIMIT)
}

fn check_tree(round: &Round, batches: u32, tree: &Tree, end: End, takes_open: bool) -> bool
    ensures { IsTrue result ↔ IsAcceptedFor takes_open end round.now batches (bound_tree_of tree.now) }
{
    if batches == 0 {
        return false;
    }
    let classes = classes_of(round, end);
    let mut limits = all_limits(&classes, batches - 1);
    let claim = Claim {
        classes: &classes,
        end,
        batches: batches - 1,
        takes_open,
    };
    check_node(&claim, &mut limits, tree, DEPTH_LIMIT)
}

/// Whether the tree shows that fewer than so many batches do not suffice for the round and the end. It counts the
/// classes of the round itself, takes any tree from anywhere, returns false for 0 batches and for a tree deeper than
/// 300, and looks at nothing below depth 301.
pub fn check(round: &Round, batches: u32, tree: &Tree, end: End) -> bool
    ensures accepted { IsTrue result ↔ IsAcceptedFor false end round.now batches (bound_tree_of tree.now) }

    // A yes is a bound over all lists of codewords.
    ensures bound { IsTrue result → (T : List ℕ) (n : ℕ) → IsLegalList end T n round.now → batches ≤ n }
{
    round.recall_rules();
    check_tree(round, batches, tree, end, false)
}

/// The same, but a node that was not examined is accepted in any place.
pub fn check_open(round: &Round, batches: u32, tree: &Tree, end: End) -> bool
    ensures { IsTrue result ↔ IsAcceptedFor true end round.now batches (bound_tree_of tree.now) }
{
    check_tree(round, batches, tree, end, true)
}
