ghost use Rattle.std.specs.Prelude.{◌≡◌, ℕ, List, true};
ghost use Rattle.pocsag_pages.specs.Bytes.{Sent};
ghost use Rattle.pocsag_pager.specs.Damage.{IsDamaged};
ghost use Rattle.pocsag_decode.specs.Repairs.{Counts};
ghost use Rattle.pocsag_receiver.specs.Repair.{AreReadOf};

use pocsag_decode::{Repaired, repair_all};

/// Whether each word of a transmission is repaired before it is read, and how much that corrected.
#[derive(Clone, Copy)]
pub struct Repairing {
    pub is_asked: bool,
    pub corrected: Repaired,
}

impl Repairing {
    /// Nothing is corrected so far.
    pub fn new(is_asked: bool) -> Repairing
        ensures { result.is_asked ≡ is_asked }
    {
        Repairing {
            is_asked,
            corrected: NOTHING,
        }
    }
}

// Nothing was corrected.
const NOTHING: Repaired = Repaired { words: 0, bits: 0 };

/// Repairs each word of a transmission, if that is asked for, and returns how much was corrected.
pub(crate) fn repair_asked(repair: bool, bytes: &mut [u8]) -> Repaired
    ensures read { AreReadOf bytes.old repair bytes.new }
    ensures counted { Counts result bytes.old bytes.new }
    ensures restored { repair ≡ true → (X codewords : List ℕ) → Sent X codewords → IsDamaged X bytes.old →
        bytes.new ≡ X }
{
    if repair {
        return repair_all(bytes);
    }
    NOTHING
}
