ghost use Rattle.std.specs.Prelude.{◌≡◌, ◌≢◌, ◌≤◌, ℕ, List, Option, None, IfOk, IsFalse, OnErr, OnOk, string_bytes};
ghost use Rattle.pocsag_shell.specs.Folders.{CountsCalls, IsSame, IsSameBut, IsSameButTwo, KeepsFault, Left, MayGo, MayMove, NotesFault, StepsBy, Stored, on_disk};

use crate::fault::FileFault;
use crate::role::Role;
use pocsag_words::DeviceFault;

/// The names of files in folders, as a system has them: at any moment, during a call or between two, it may crash, which
/// leaves some of what was done.
pub trait Folder {
    ghost use Rattle.pocsag_shell.specs.declared.fault.FileFault.{FileFault};

    // Whether contracts know what stands at its names.
    ghost is_known: { Type 0 };

    // What stands at each path.
    ghost held: { Self → List ℕ → Option Stored };

    // What a crash at this moment may leave.
    ghost may_leave: { Self → Left → Type 0 };

    // This moment, as a number that does not fall.
    ghost moment: { Self → ℕ };

    // What a crash at some moment from that one on might have left, during a call or between two.
    ghost left_since: { Self → ℕ → Left → Type 0 };

    // How many of its calls failed; it stays at its greatest value.
    ghost failures: { Self → ℕ };

    // The fault of the first of its calls that failed, if one did. `remove` returns none.
    ghost noted_fault: { Self → Option FileFault };

    // This moment is one of those since an earlier one, and since this moment there is no other.
    ghost counts_now: { (folder : Self) (t : ℕ) (left : Left) → is_known → t ≤ moment folder → may_leave folder left →
        left_since folder t left };

    ghost only_now: { (folder : Self) (left : Left) → is_known → left_since folder (moment folder) left →
        may_leave folder left };

    /// Gives the file at a path a second name, in place of what stands there. Returns whether there is a file.
    fn link(&mut self, role: Role, from: &String, to: &String) -> Result<bool, FileFault>
        ensures linked { is_known → OnOk result
            (held self.new (string_bytes to.now) ≡ held self.old (string_bytes from.now)) }
        ensures none { is_known → IfOk result (λ stood. IsFalse stood → held self.old (string_bytes from.now) ≡ None) }
        ensures others { is_known → IsSameBut (string_bytes to.now) (held self.old) (held self.new) }
        ensures any_moment { is_known → StepsBy moment left_since may_leave self.old self.new
            (IsSameBut (string_bytes to.now)) }
        ensures failures { is_known → CountsCalls result (failures self.old) (failures self.new) }
        ensures noted { is_known → NotesFault result (noted_fault self.old) (noted_fault self.new) };

    /// Renames a file, in place of what stands at the new path.
    fn rename(&mut self, role: Role, from: &String, to: &String) -> Result<(), FileFault>
        ensures moved { is_known → OnOk result
            (held self.new (string_bytes to.now) ≡ held self.old (string_bytes from.now)) }
        ensures gone { is_known → string_bytes from.now ≢ string_bytes to.now →
            OnOk result (held self.new (string_bytes from.now) ≡ None) }
        ensures others { is_known →
            IsSameButTwo (string_bytes from.now) (string_bytes to.now) (held self.old) (held self.new) }
        ensures same { is_known → OnErr result ((path : List ℕ) → held self.new path ≡ held self.old path) }
        ensures refused { is_known → OnErr result ((left : Left) → may_leave self.new left → may_leave self.old left) }
        ensures any_moment { is_known → StepsBy moment left_since may_leave self.old self.new
            (MayMove (string_bytes from.now) (string_bytes to.now) (held self.old (string_bytes from.now))) }
        ensures failures { is_known → CountsCalls result (failures self.old) (failures self.new) }
        ensures noted { is_known → NotesFault result (noted_fault self.old) (noted_fault self.new) };

    /// Brings the names in the folder of a path to the disk. A crash then leaves at the path what stands there.
    fn sync_names(&mut self, role: Role, path: &String) -> Result<(), FileFault>
        ensures settled { is_known → OnOk result ((bytes : Option (List ℕ)) →
            held self.old (string_bytes path.now) ≡ on_disk bytes →
            (left : Left) → may_leave self.new left → left (string_bytes path.now) ≡ bytes) }
        ensures same { is_known → (path : List ℕ) → held self.new path ≡ held self.old path }
        ensures any_moment { is_known → StepsBy moment left_since may_leave self.old self.new IsSame }
        ensures failures { is_known → CountsCalls result (failures self.old) (failures self.new) }
        ensures noted { is_known → NotesFault result (noted_fault self.old) (noted_fault self.new) };

    /// Removes the file at a path, if there is one.
    fn remove(&mut self, path: &String) -> Result<(), DeviceFault>
        ensures gone { is_known → OnOk result (held self.new (string_bytes path.now) ≡ None) }
        ensures others { is_known → IsSameBut (string_bytes path.now) (held self.old) (held self.new) }
        ensures any_moment { is_known → StepsBy moment left_since may_leave self.old self.new
            (MayGo (string_bytes path.now)) }
        ensures failures { is_known → CountsCalls result (failures self.old) (failures self.new) }
        ensures noted { is_known → KeepsFault (noted_fault self.old) (noted_fault self.new) };
}
