ghost use Rattle.std.specs.Prelude.{◌≡◌, ◌+◌, ◌<◌, ◌≤◌, false, slice_index};
ghost use Rattle.pocsag_slots.specs.Loads.{IsAdmitted, IsLeast, limits_of_all, Overloads};
ghost use Rattle.pocsag_slots.specs.Sums.{IsSet};
ghost use Rattle.pocsag_tree.specs.Limits.{second_ranges};
ghost use Rattle.pocsag_tree.specs.CertificateText.{HasText};
ghost use Rattle.pocsag_tree.specs.Views.{bound_tree_of};
ghost use Rattle.pocsag_check.specs.Acceptance.{IsAccepted};
ghost use Rattle.pocsag_branch.specs.Examined.{greatest_least};
ghost use Rattle.pocsag_branch.specs.Found.{CanBeSent, HasPage, IsBound};
ghost use Rattle.pocsag_branch.specs.Shape.{RefusesOneLess};

use pocsag_flow::{ChooseFault, choose};
use pocsag_slots::{Choice, Classes, all_limits, least_load, size};
use pocsag_tree::{Certificate, Tree};
use pocsag_words::End;

// The least number of batches that some choice of starts needs, with such a choice and the set of slots
// that refuses one batch less.
#[derive(Clone, Copy)]
pub(crate) struct Least {
    pub(crate) batches: u32,
    pub(crate) set: u16,
    pub(crate) choice: Choice,
}

// How many batches the slots of the set need at least, where so many are too few.
fn batches_needed(classes: &Classes, batches: u32, set: u16) -> u32
    requires set { IsSet set }
    requires over { Overloads classes.now (limits_of_all classes.now batches) set }
    ensures refuses { RefusesOneLess classes.now result set }
    ensures more { batches < result }
    ensures bound { result ≤ greatest_least }
{
    let load = least_load(classes, &all_limits(classes, batches), set);
    load.div_ceil(u64::from(size(set))) as u32
}

// The least number of batches: from the share of all slots up to the first that some choice meets.
#[tactic(auto, using(crate::proofs::LeastBounds::nothing_fits))]
pub(crate) fn least_of(classes: &Classes) -> Least
    requires { HasPage classes.now }
    ensures refuses { RefusesOneLess classes.now result.batches result.set }
    ensures admitted { IsAdmitted classes.now (limits_of_all classes.now result.batches)
        (slice_index result.choice.early) }
    ensures least { IsLeast classes.now result.batches }
    ensures bound { result.batches ≤ greatest_least }
{
    let mut set = 0xFFFF;
    let mut batches = batches_needed(classes, 0, set);
    loop {
        match choose(classes, &all_limits(classes, batches)) {
            Ok(choice) => {
                return Least {
                    batches,
                    set,
                    choice,
                };
            }
            Err(ChooseFault::Overload(over)) => {
                batches = batches_needed(classes, batches, over);
                set = over;
            }
        }
    }
}

/// The certificate that the loads alone give, without a search: its number of batches is the least that some choice
/// of starts needs, and its tree is one node. With one batch more there is a transmission.
pub fn least_certificate(classes: &Classes, end: End) -> Certificate
    requires { HasPage classes.now }
    ensures end { result.end ≡ end }
    ensures least { IsLeast classes.now result.batches }
    ensures bound { IsBound classes.now end result.batches }
    ensures accepted { IsAccepted false classes.now end result.batches (bound_tree_of result.tree) }
    ensures text { HasText second_ranges result.batches (bound_tree_of result.tree) }
    ensures enough { CanBeSent classes.now end (result.batches + 1) }
{
    let least = least_of(classes);
    Certificate {
        end,
        batches: least.batches,
        tree: Tree::Overload(least.set),
    }
}
