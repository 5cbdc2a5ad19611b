ghost use Rattle.std.specs.Prelude.{◌≡◌, ◌↔◌, false, IsTrue};
ghost use Rattle.pocsag_tree.specs.Views.{bound_tree_of};
ghost use Rattle.pocsag_check.specs.Acceptance.{IsAcceptedFor};
ghost use Rattle.pocsag_plan.specs.Plans.{NoneHasFewer};

use pocsag_check::check;
use pocsag_pages::Round;
use pocsag_tree::Certificate;
use pocsag_words::End;

/// A certificate beside the round of a page file.
#[derive(Clone, Copy)]
pub struct CheckVerdict {
    /// The end that the certificate names.
    pub end: End,
    /// The number of batches that it names.
    pub batches: u32,
    /// Whether the checker accepts its tree for them.
    pub is_shown: bool,
}

/// The verdict of the checker on a certificate for a round.
pub fn verdict_on(round: &Round, certificate: &Certificate) -> CheckVerdict
    ensures end { result.end ≡ certificate.now.end }
    ensures batches { result.batches ≡ certificate.now.batches }
    ensures accepted { IsTrue result.is_shown ↔ IsAcceptedFor false certificate.now.end round.now
        certificate.now.batches (bound_tree_of certificate.now.tree) }
    ensures bound { IsTrue result.is_shown →
        NoneHasFewer certificate.now.end round.now certificate.now.batches }
{
    let batches = certificate.batches;
    let end = certificate.end;
    CheckVerdict {
        end,
        batches,
        is_shown: check(round, batches, &certificate.tree, end),
    }
}
