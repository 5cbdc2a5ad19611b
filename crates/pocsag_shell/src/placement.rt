ghost use Rattle.std.specs.Prelude.{◌≡◌, ◌⊎◌, ◌≤◌, ℕ, List, Option, None, Some, IfErr, IfOk, IsFalse, IsTrue, OnErr, OnOk};
ghost use Rattle.std.specs.List.{AllByRecursion};
ghost use Rattle.pocsag_words.specs.Devices.{HasFailed, one_more};
ghost use Rattle.pocsag_shell.specs.Folders.{HaveOwnPaths, CountsCalls, FailsTwice, IsNoPathOf, IsBack, IsDistinct, IsGone, IsPut, IsStaged, IsSameButKept, IsSameButTwo, KeepsFault, KeepsNone, IsOnDisk, MayMove, MayPut, MayPutAll, StandBeside, StepsBy, kept_at, place_of, on_disk, staged_at};

use crate::fault::FileFault;
use crate::folder::Folder;
use crate::staged_file::StagedFile;

// Why files were not put at their places, and whether all places have again what stood there before.
#[derive(Clone, Copy)]
pub(crate) struct FailedPlacement {
    pub fault: FileFault,
    pub is_back: bool,
}

// Renames the older file to its place, or removes what stands there where there was none.
#[tactic(auto, using(crate::proofs::Folders::gone_back))]
fn rename_back<F: Folder>(folder: &mut F, file: &StagedFile, stood: bool) -> Result<(), FileFault>
    ensures stands { F.is_known → (IsFalse stood → F.held folder.old (kept_at file.now) ≡ None) →
        OnOk result (F.held folder.new (place_of file.now) ≡ F.held folder.old (kept_at file.now)) }
    ensures others { F.is_known →
        IsSameButTwo (kept_at file.now) (place_of file.now) (F.held folder.old) (F.held folder.new) }
    ensures any_moment { F.is_known → (IsFalse stood → F.held folder.old (kept_at file.now) ≡ None) →
        StepsBy F.moment F.left_since F.may_leave folder.old folder.new
        (MayMove (kept_at file.now) (place_of file.now) (F.held folder.old (kept_at file.now))) }
    ensures failures { F.is_known → CountsCalls result (F.failures folder.old) (F.failures folder.new) }
    ensures noted { F.is_known → KeepsFault (F.noted_fault folder.old) (F.noted_fault folder.new) }
{
    let place = &file.place;
    if stood {
        return folder.rename(file.role, &file.kept, place);
    }
    folder.remove(place).map_err(|_| FileFault::Write)
}

// Brings the older file back to its place, or none, and its name to the disk. Returns whether it did.
fn bring_back<F: Folder>(folder: &mut F, file: &StagedFile, stood: bool) -> bool
    ensures stands { F.is_known → (bytes : Option (List ℕ)) → F.held folder.old (kept_at file.now) ≡ on_disk bytes →
        (IsFalse stood → bytes ≡ None) → IsTrue result →
        IsOnDisk (F.held folder.new) (F.may_leave folder.new) (place_of file.now) bytes }
    ensures others { F.is_known →
        IsSameButTwo (kept_at file.now) (place_of file.now) (F.held folder.old) (F.held folder.new) }
    ensures any_moment { F.is_known → (IsFalse stood → F.held folder.old (kept_at file.now) ≡ None) →
        StepsBy F.moment F.left_since F.may_leave folder.old folder.new
        (MayMove (kept_at file.now) (place_of file.now) (F.held folder.old (kept_at file.now))) }
    ensures succeeded { F.is_known → IsTrue result → F.failures folder.new ≡ F.failures folder.old }
    ensures failed { F.is_known → IsFalse result → F.failures folder.new ≡ one_more (F.failures folder.old) }
    ensures noted { F.is_known → KeepsFault (F.noted_fault folder.old) (F.noted_fault folder.new) }
{
    match rename_back(folder, file, stood) {
        Ok(()) => folder.sync_names(file.role, &file.place).is_ok(),
        Err(_) => false,
    }
}

// Puts a file at its place and keeps the older one beside it. Returns whether there was one. Where it cannot, it brings the older
// file back.
fn put_first<F: Folder>(folder: &mut F, file: &StagedFile) -> Result<bool, FailedPlacement>
    ensures put { F.is_known → (bytes : List ℕ → Option (List ℕ)) → IsDistinct file.now →
        IsStaged (F.held folder.old) (F.may_leave folder.old) bytes file.now →
        OnOk result (IsPut (F.held folder.new) (F.may_leave folder.new) bytes file.now) }
    ensures kept { F.is_known → (bytes : List ℕ → Option (List ℕ)) → IsDistinct file.now →
        IsStaged (F.held folder.old) (F.may_leave folder.old) bytes file.now →
        OnOk result (F.held folder.new (kept_at file.now) ≡ on_disk (bytes (place_of file.now))) }
    ensures none { F.is_known → (bytes : List ℕ → Option (List ℕ)) → IsDistinct file.now →
        IsStaged (F.held folder.old) (F.may_leave folder.old) bytes file.now →
        IfOk result (λ stood. IsFalse stood → bytes (place_of file.now) ≡ None) }
    ensures back { F.is_known → (bytes : List ℕ → Option (List ℕ)) → IsDistinct file.now →
        IsStaged (F.held folder.old) (F.may_leave folder.old) bytes file.now →
        IfErr result (λ unput. IsTrue unput.is_back →
        IsBack (F.held folder.new) (F.may_leave folder.new) bytes file.now) }
    ensures taken { F.is_known → IsDistinct file.now → OnOk result (F.held folder.new (staged_at file.now) ≡ None) }
    ensures beside { F.is_known → IsDistinct file.now → OnErr result ((F.held folder.new (staged_at file.now) ≡ None)
        ⊎ (F.held folder.new (staged_at file.now) ≡ F.held folder.old (staged_at file.now))) }
    ensures others { F.is_known → (path : List ℕ) → IsNoPathOf path file.now →
        F.held folder.new path ≡ F.held folder.old path }
    ensures any_moment { F.is_known → (bytes : List ℕ → Option (List ℕ)) → IsDistinct file.now →
        IsStaged (F.held folder.old) (F.may_leave folder.old) bytes file.now →
        StepsBy F.moment F.left_since F.may_leave folder.old folder.new (MayPut file.now bytes) }
    ensures succeeded { F.is_known → OnOk result (F.failures folder.new ≡ F.failures folder.old) }
    ensures once { F.is_known → IfErr result (λ unput. IsTrue unput.is_back →
        F.failures folder.new ≡ one_more (F.failures folder.old)) }
    ensures twice { F.is_known → IfErr result (λ unput. IsFalse unput.is_back →
        F.failures folder.new ≡ one_more (one_more (F.failures folder.old))) }
    ensures unnoted { F.is_known → OnOk result (F.noted_fault folder.new ≡ F.noted_fault folder.old) }
    ensures cause { F.is_known → F.noted_fault folder.old ≡ None →
        IfErr result (λ unput. F.noted_fault folder.new ≡ Some unput.fault) }
{
    let (role, place) = (file.role, &file.place);
    let stood = match folder.link(role, place, &file.kept) {
        Ok(stood) => stood,
        Err(fault) => return Err(FailedPlacement {
            fault,
            is_back: true,
        }),
    };
    if let Err(fault) = folder.rename(role, &file.path, place) {
        return Err(FailedPlacement {
            fault,
            is_back: true,
        });
    }
    let Err(fault) = folder.sync_names(role, place) else {
        return Ok(stood);
    };
    Err(FailedPlacement {
        fault,
        is_back: bring_back(folder, file, stood),
    })
}

// Puts the files at their places, one by one. Where it cannot, it brings the older files back, the last first, and stops where one
// does not come back: the older files of those before it keep their second names.
fn put_rest<F: Folder>(folder: &mut F, files: &[StagedFile]) -> Result<(), FailedPlacement>
    ensures put { F.is_known → (bytes : List ℕ → Option (List ℕ)) → HaveOwnPaths files.now →
        AllByRecursion (IsStaged (F.held folder.old) (F.may_leave folder.old) bytes) files.now →
        OnOk result (AllByRecursion (IsPut (F.held folder.new) (F.may_leave folder.new) bytes) files.now) }
    ensures back { F.is_known → (bytes : List ℕ → Option (List ℕ)) → HaveOwnPaths files.now →
        AllByRecursion (IsStaged (F.held folder.old) (F.may_leave folder.old) bytes) files.now →
        IfErr result (λ unput. IsTrue unput.is_back →
        AllByRecursion (IsBack (F.held folder.new) (F.may_leave folder.new) bytes) files.now) }
    ensures beside { F.is_known → HaveOwnPaths files.now →
        OnErr result (StandBeside files.now (F.held folder.old) (F.held folder.new)) }
    ensures others { F.is_known → (path : List ℕ) → AllByRecursion (IsNoPathOf path) files.now →
        F.held folder.new path ≡ F.held folder.old path }
    ensures any_moment { F.is_known → (bytes : List ℕ → Option (List ℕ)) → HaveOwnPaths files.now →
        AllByRecursion (IsStaged (F.held folder.old) (F.may_leave folder.old) bytes) files.now →
        StepsBy F.moment F.left_since F.may_leave folder.old folder.new (MayPutAll files.now bytes) }
    ensures succeeded { F.is_known → OnOk result (F.failures folder.new ≡ F.failures folder.old) }
    ensures once { F.is_known → IfErr result (λ unput. IsTrue unput.is_back →
        F.failures folder.new ≡ one_more (F.failures folder.old)) }
    ensures twice { F.is_known → IfErr result (λ unput. IsFalse unput.is_back →
        F.failures folder.new ≡ one_more (one_more (F.failures folder.old))) }
    ensures unnoted { F.is_known → OnOk result (F.noted_fault folder.new ≡ F.noted_fault folder.old) }
    ensures cause { F.is_known → F.noted_fault folder.old ≡ None →
        IfErr result (λ unput. F.noted_fault folder.new ≡ Some unput.fault) }
{
    let [file, others @ ..] = files else {
        return Ok(());
    };
    let stood = match put_first(folder, file) {
        Ok(stood) => stood,
        Err(unput) => return Err(unput),
    };
    let unput = match put_rest(folder, others) {
        Ok(()) => return Ok(()),
        Err(unput) => unput,
    };
    if unput.is_back {
        return Err(FailedPlacement {
            fault: unput.fault,
            is_back: bring_back(folder, file, stood),
        });
    }
    Err(unput)
}

// Removes the second names of the older files. A failure leaves one.
fn remove_kept<F: Folder>(folder: &mut F, files: &[StagedFile])
    ensures gone { F.is_known → HaveOwnPaths files.now → AllByRecursion (KeepsNone (F.held folder.new)) files.now
        ⊎ HasFailed (F.failures folder.old) (F.failures folder.new) }
    ensures others { F.is_known → IsSameButKept files.now (F.held folder.old) (F.held folder.new) }
    ensures any_moment { F.is_known → StepsBy F.moment F.left_since F.may_leave folder.old folder.new
        (IsSameButKept files.now) }
    ensures failures { F.is_known → F.failures folder.old ≤ F.failures folder.new }
    ensures noted { F.is_known → KeepsFault (F.noted_fault folder.old) (F.noted_fault folder.new) }
{
    let [file, others @ ..] = files else {
        return;
    };
    let _ = folder.remove(&file.kept);
    remove_kept(folder, others);
}

/// Puts the files at their places, in this order. Each stands beside its place and is on the disk. Each new name is on the disk
/// before the next file is renamed. Where one cannot be put, the older files come back, the last first, each before the one before
/// it; if one does not come back the others stay where they are. At last the second names of the older files are removed, unless one of
/// these files has to stay.
pub fn put_files<F: Folder>(folder: &mut F, files: &[StagedFile]) -> Result<(), FileFault>
    ensures put { F.is_known → (bytes : List ℕ → Option (List ℕ)) → HaveOwnPaths files.now →
        AllByRecursion (IsStaged (F.held folder.old) (F.may_leave folder.old) bytes) files.now →
        OnOk result (AllByRecursion (IsPut (F.held folder.new) (F.may_leave folder.new) bytes) files.now) }

    // A crash at any moment of it leaves the first files at their places, so many of them, and at the other places what was there.
    ensures order { F.is_known → (bytes : List ℕ → Option (List ℕ)) → HaveOwnPaths files.now →
        AllByRecursion (IsStaged (F.held folder.old) (F.may_leave folder.old) bytes) files.now →
        StepsBy F.moment F.left_since F.may_leave folder.old folder.new (MayPutAll files.now bytes) }

    // Where it fails all places have what they had, unless a second call failed, which was to bring an older file back.
    ensures back { F.is_known → (bytes : List ℕ → Option (List ℕ)) → HaveOwnPaths files.now →
        AllByRecursion (IsStaged (F.held folder.old) (F.may_leave folder.old) bytes) files.now →
        OnErr result (AllByRecursion (IsBack (F.held folder.new) (F.may_leave folder.new) bytes) files.now
        ⊎ FailsTwice (F.failures folder.old) (F.failures folder.new)) }
    ensures failed { F.is_known → OnErr result (HasFailed (F.failures folder.old) (F.failures folder.new)) }

    // Its fault is that of the first call that failed.
    ensures cause { F.is_known → F.noted_fault folder.old ≡ None →
        IfErr result (λ fault. F.noted_fault folder.new ≡ Some fault) }

    // Where all are put nothing stands beside the places, unless a call failed, which was to remove a second name.
    ensures gone { F.is_known → (bytes : List ℕ → Option (List ℕ)) → HaveOwnPaths files.now →
        AllByRecursion (IsStaged (F.held folder.old) (F.may_leave folder.old) bytes) files.now →
        OnOk result (AllByRecursion (IsGone (F.held folder.new)) files.now
        ⊎ HasFailed (F.failures folder.old) (F.failures folder.new)) }

    // Where it fails no second name is left, unless a second call failed.
    ensures none_kept { F.is_known → HaveOwnPaths files.now → OnErr result
        (AllByRecursion (KeepsNone (F.held folder.new)) files.now
        ⊎ HasFailed (one_more (F.failures folder.old)) (F.failures folder.new)) }

    // Where it fails the files that were never renamed, the last ones, still stand beside their places: `StagedFile::remove` removes
    // them.
    ensures beside { F.is_known → HaveOwnPaths files.now →
        OnErr result (StandBeside files.now (F.held folder.old) (F.held folder.new)) }
{
    let unput = match put_rest(folder, files) {
        Ok(()) => {
            remove_kept(folder, files);
            return Ok(());
        }
        Err(unput) => unput,
    };
    if !unput.is_back {
        return Err(unput.fault);
    }
    remove_kept(folder, files);
    Err(unput.fault)
}
