ghost use Rattle.std.specs.Prelude.{◌≡◌, List, [], ◌∷◌, ◌++◌, Option, None, Some, IfErr, IfOk, OnOk};
ghost use Rattle.pocsag_open.specs.Plans.{failed_plan, PlaceNames, PlacementResult, placed_plan};

use pocsag_shell::{FileFault, Outputs};
use pocsag_words::Sink;

/// What makes the outputs of the plans of an open round, as files of a folder are, and puts them in their places.
pub trait OutputStore {
    type Output: Sink + Drop;

    // Whether contracts know what is put in its place.
    ghost is_known: { Type 0 };

    // What became of the places of the plans, one after another.
    ghost placed: { Self → List PlacementResult };

    // The names of the two places for which outputs, or a part of them, were made and are neither put nor left; none if all
    // that was made is put or left.
    ghost made_for: { Self → Option PlaceNames };

    /// Makes the two outputs that a line names, which are empty, or returns why there are none.
    fn make(&mut self, tx: &str, cert: &str) -> Result<Outputs<Self::Output>, FileFault>
        ensures known { is_known → IfOk result (λ outputs. Self.Output.is_known) }
        ensures empty { is_known → IfOk result (λ outputs.
            (Self.Output.taken outputs.tx ≡ []) × (Self.Output.taken outputs.cert ≡ [])) }
        ensures made { is_known → made_for self.new ≡ Some (tx.now, cert.now) }
        ensures same { is_known → OnOk result (placed self.new ≡ placed self.old) }
        ensures failed { is_known → IfErr result (λ fault. placed self.new ≡
            placed self.old ++ failed_plan tx.now cert.now fault ∷ []) };

    /// Puts both outputs of a plan, which are whole, in the places for which they were made.
    fn put(&mut self, tx: &str, cert: &str, outputs: Outputs<Self::Output>) -> Result<(), FileFault>
        ensures placed { is_known → made_for self.old ≡ Some (tx.now, cert.now) → OnOk result (placed self.new ≡
            placed self.old ++ placed_plan tx.now cert.now
            (Self.Output.taken outputs.tx, Self.Output.taken outputs.cert) ∷ []) }
        ensures failed { is_known → IfErr result (λ fault. placed self.new ≡
            placed self.old ++ failed_plan tx.now cert.now fault ∷ []) }
        ensures none_left { is_known → made_for self.old ≡ Some (tx.now, cert.now) → made_for self.new ≡ None };

    /// Notes a line that is no plan, and whether it changed the round. It changes nothing else.
    fn note_line(&self, _line: &[u8], _is_done: bool) {}

    /// Leaves the places as they are, and removes what was made for them, if the outputs were not made or are not whole.
    fn leave<'n>(&mut self, tx: &'n str, cert: &'n str)
        ensures same { is_known → placed self.new ≡ placed self.old }
        ensures none_left { is_known → made_for self.old ≡ Some (tx.now, cert.now) → made_for self.new ≡ None };
}
