ghost use Rattle.std.specs.Prelude.{◌≡◌, ◌≤◌, ◌<◌, ◌⊎◌, ◌++◌, ℕ, List, length, Err, IfOk, OnOk};
ghost use Rattle.pocsag_words.specs.Devices.{CountsFailures, Delivers, HasFailed};
ghost use Rattle.pocsag_journal.specs.Moments.{Elapses, IsSafe};
ghost use Rattle.pocsag_journal.specs.Crashes.{IsTorn};

use pocsag_pages::WholeFault;
use pocsag_words::DeviceFault;
use std::alloc::Global;

/// What a journal is on, such as a file of a disk. It holds bytes. It may crash at any moment, during a call or between
/// two, which leaves some of what was written.
pub trait Disk {
    // Whether contracts know its bytes.
    ghost is_known: { Type 0 };

    // The bytes that it holds.
    ghost held: { Self → List ℕ };

    // What a crash at this moment may leave.
    ghost may_leave: { Self → List ℕ → Type 0 };

    // This moment, as a number that does not fall.
    ghost moment: { Self → ℕ };

    // What a crash at some moment from that one on might have left, during a call or between two.
    ghost left_since: { Self → ℕ → List ℕ → Type 0 };

    // How many of its calls failed; it stays at its greatest value.
    ghost failures: { Self → ℕ };

    // No `sync` failed since all that it holds was put there by `replace`. Where one failed, the system may have dropped what
    // was to be written, and no later `sync` brings that to the disk.
    ghost is_sound: { Self → Type 0 };

    // This moment is one of those since an earlier one, and since this moment there is no other.
    ghost counts_now: { (disk : Self) (t : ℕ) (left : List ℕ) → is_known → t ≤ moment disk → may_leave disk left →
        left_since disk t left };

    ghost only_now: { (disk : Self) (left : List ℕ) → is_known → left_since disk (moment disk) left →
        may_leave disk left };

    /// Reads all that it holds, at most this many bytes.
    fn read(&mut self, alloc: Global, most: usize) -> Result<Vec<u8>, WholeFault>
        ensures whole { is_known → IfOk result (λ bytes. bytes.items ≡ held self.old) }
        ensures fits { IfOk result (λ bytes. length bytes.items ≤ most) }
        ensures too_large { is_known → result ≡ Err WholeFault.TooLarge → most < length (held self.old) }
        ensures same { is_known → held self.new ≡ held self.old }
        ensures crash { is_known → (left : List ℕ) → may_leave self.new left → may_leave self.old left }
        ensures time { is_known → Elapses (moment self.old) (moment self.new)
            (left_since self.old) (left_since self.new) (may_leave self.new) }
        ensures succeeded { is_known → OnOk result (failures self.new ≡ failures self.old) }
        ensures failed { is_known → result ≡ Err WholeFault.ReadFault →
            HasFailed (failures self.old) (failures self.new) };

    /// Appends a line to what it holds. Before `sync` a crash may leave the line torn.
    fn append(&mut self, line: &[u8]) -> Result<(), DeviceFault>
        ensures delivers { is_known → Delivers result (held self.old) (held self.new) line.now }
        ensures crash { is_known → (left : List ℕ) → may_leave self.new left →
            (was : List ℕ) × may_leave self.old was × IsTorn line.now was left }
        ensures time { is_known → Elapses (moment self.old) (moment self.new)
            (left_since self.old) (left_since self.new) (may_leave self.new) }
        ensures sound { is_known → is_sound self.old → is_sound self.new }
        ensures failures { is_known → CountsFailures result (failures self.old) (failures self.new) };

    /// Makes all that it holds survive a crash, if none of these calls failed before.
    fn sync(&mut self) -> Result<(), DeviceFault>
        ensures safe { is_known → is_sound self.old → OnOk result (IsSafe (held self.new) (may_leave self.new)) }
        ensures sound { is_known → is_sound self.old → OnOk result (is_sound self.new) }
        ensures same { is_known → held self.new ≡ held self.old }
        ensures crash { is_known → (left : List ℕ) → may_leave self.new left → may_leave self.old left }
        ensures time { is_known → Elapses (moment self.old) (moment self.new)
            (left_since self.old) (left_since self.new) (may_leave self.new) }
        ensures failures { is_known → CountsFailures result (failures self.old) (failures self.new) };

    /// Puts a text in the place of all that it holds, at once: a crash leaves the one or the other.
    fn replace(&mut self, text: &[u8]) -> Result<(), DeviceFault>
        ensures held { is_known → OnOk result (held self.new ≡ text.now) }
        ensures safe { is_known → OnOk result (IsSafe text.now (may_leave self.new)) }
        ensures sound { is_known → OnOk result (is_sound self.new) }
        ensures crash { is_known → (left : List ℕ) → may_leave self.new left →
            may_leave self.old left ⊎ (left ≡ text.now) }
        ensures time { is_known → Elapses (moment self.old) (moment self.new)
            (left_since self.old) (left_since self.new) (may_leave self.new) }
        ensures failures { is_known → CountsFailures result (failures self.old) (failures self.new) };
}
