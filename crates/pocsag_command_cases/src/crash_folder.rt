//! A folder in memory that crashes, of which each clause of `Folder` is proved, and a second run that has names in it.

ghost use Rattle.std.specs.Prelude.{◌≡◌, ◌⊎◌, ℕ, List, [], IfOk, IsErrOf, IsFalse, None, OnErr, OnOk, Some, option_map, string_bytes};
ghost use Rattle.pocsag_words.specs.Devices.{HasFailed, one_more};
ghost use Rattle.pocsag_shell.specs.Folders.{CountsCalls, FailsTwice, IsSameBut, Left, NotesFault};
ghost use Rattle.pocsag_command_cases.specs.CrashFolders.{AreGone, ArePlaced, ArePlacesSame, AreTwo, FolderLeaves, IsChanged, standing, standing_at, stands_after};

use pocsag_shell::{FileFault, Folder, Role, StagedFile, put_files};
use pocsag_words::DeviceFault;
use std::alloc::{AllocError, Global};

/// A change of names: from then on the file stands at `to`, or none, and none at `gone`, unless that is the same path.
#[derive(Drop)]
pub(crate) struct Change {
    gone: String,
    to: String,
    file: Option<Vec<u8>>,
}

/// What stands at a path after these changes, if this stood there before them.
pub(crate) fn bytes_after<'a>(
    before: Option<&'a [u8]>,
    changes: &'a [Change],
    path: &str,
) -> Option<&'a [u8]>
    ensures { option_map (λ bytes. bytes.now) result
        ≡ stands_after (option_map (λ bytes. bytes.now) before.entry) changes.now path.now }
{
    let [change, later @ ..] = changes else {
        return before;
    };
    if change.to.as_str() == path {
        return bytes_after(change.file.as_deref(), later, path);
    }
    if change.gone.as_str() == path {
        return bytes_after(None, later, path);
    }
    bytes_after(before, later, path)
}

/// What a second run does between two calls.
#[derive(Drop)]
pub(crate) enum OtherStep {
    /// It makes a file of this name, if no file of the first run has it.
    Take(String),
    /// It removes its file of this name.
    Remove(String),
}

/// A folder over memory. A crash leaves the names as they were after the last call of `sync_names`, or after any of the
/// changes since; the bytes of each file are on the disk. It serves so many calls, and then it refuses so many. A second run
/// takes a step before each call. Contracts see the names that the second run has not, and no call changes one that it has.
#[derive(Drop)]
pub(crate) struct CrashFolder {
    alloc: Global,
    pub(crate) changes: Vec<Change>,
    // So many of the changes are on the disk.
    pub(crate) settled: usize,
    pub(crate) serves: u64,
    pub(crate) refuses: u64,
    failures: u64,
    // The fault of the first call that was refused.
    pub(crate) noted_fault: Option<FileFault>,
    // The names of the second run, and its steps, the last one first.
    pub(crate) others: Vec<String>,
    pub(crate) steps: Vec<OtherStep>,
}

impl CrashFolder {
    /// A folder without files, which refuses no call.
    pub(crate) fn new(alloc: Global) -> CrashFolder
        ensures { result.changes.items ≡ [] }
    {
        CrashFolder {
            alloc,
            changes: Vec::new(alloc),
            settled: 0,
            serves: u64::MAX,
            refuses: 0,
            failures: 0,
            noted_fault: None,
            others: Vec::new(alloc),
            steps: Vec::new(alloc),
        }
    }

    // A call ends with this fault. It is kept if it is the first one.
    fn fails<T>(&mut self, fault: FileFault) -> Result<T, FileFault>
        ensures fault { IsErrOf result fault }
        ensures noted { NotesFault result self.old.noted_fault self.new.noted_fault }
        ensures changes { self.new.changes.items ≡ self.old.changes.items }
        ensures settled { self.new.settled ≡ self.old.settled }
        ensures failures { self.new.failures ≡ self.old.failures }
    {
        self.noted_fault = self.noted_fault.or(Some(fault));
        Err(fault)
    }

    // Begins a call on two paths: the second run takes its next step, and the call may be refused. It counts as failed until it
    // is done. Returns how many failed before.
    fn begin(&mut self, from: &String, to: &String) -> Result<u64, FileFault>
        ensures before { IfOk result (λ before. before ≡ self.old.failures) }
        ensures failed { self.new.failures ≡ one_more self.old.failures }
        ensures noted { NotesFault result self.old.noted_fault self.new.noted_fault }
        ensures changes { self.new.changes.items ≡ self.old.changes.items }
        ensures settled { self.new.settled ≡ self.old.settled }
    {
        let before = self.failures;
        self.failures = before.saturating_add(1);
        match self.steps.pop() {
            Some(OtherStep::Take(name)) => {
                if bytes_after(None, self.changes.as_slice(), name.as_str()).is_none() {
                    let Ok(()) = self.others.push(name) else {
                        return self.fails(FileFault::OutOfMemory);
                    };
                }
            }
            Some(OtherStep::Remove(name)) => {
                self.others.retain(|other| other.as_str() != name.as_str());
            }
            None => {}
        }
        if self.serves > 0 {
            self.serves -= 1;
        } else if self.refuses > 0 {
            self.refuses -= 1;
            return self.fails(FileFault::Write);
        }
        if self.is_taken(from) || self.is_taken(to) {
            return self.fails(FileFault::Write);
        }
        Ok(before)
    }

    // Whether the second run has a name.
    fn is_taken(&self, path: &String) -> bool {
        self.others
            .iter()
            .any(|name| name.as_str() == path.as_str())
    }

    // A copy of what stands at a path, if one is given.
    fn copy_at(&self, path: Option<&String>) -> Result<Option<Vec<u8>>, AllocError>
        ensures { IfOk result (λ file. option_map (λ bytes. bytes.items) file
            ≡ standing_at self.now.changes.items (option_map (λ path. string_bytes path.now) path.entry)) }
    {
        let Some(path) = path else {
            return Ok(None);
        };
        match bytes_after(None, self.changes.as_slice(), path.as_str()) {
            Some(bytes) => Ok(Some(bytes.to_vec(self.alloc)?)),
            None => Ok(None),
        }
    }

    // Puts a file at a path, or none, and takes away the one at `gone`.
    fn change(&mut self, gone: &str, to: &str, file: Option<Vec<u8>>) -> Result<(), AllocError>
        ensures changed { OnOk result (IsChanged self.old.changes.items self.new.changes.items gone.now to.now
            (option_map (λ bytes. bytes.items) file)) }
        ensures same { OnErr result (self.new.changes.items ≡ self.old.changes.items) }
        ensures settled { self.new.settled ≡ self.old.settled }
        ensures failures { self.new.failures ≡ self.old.failures }
        ensures noted_fault { self.new.noted_fault ≡ self.old.noted_fault }
    {
        let gone = String::from_str(self.alloc, gone)?;
        let to = String::from_str(self.alloc, to)?;
        self.changes.push(Change { gone, to, file })?;
        Ok(())
    }

    // A call that puts at a path what stands at another, or none, and takes away the one at `gone`. Returns whether there is one.
    fn act(&mut self, from: Option<&String>, gone: &String, to: &String) -> Result<bool, FileFault>
        ensures changed { OnOk result (IsChanged self.old.changes.items self.new.changes.items
            (string_bytes gone.now) (string_bytes to.now)
            (standing_at self.old.changes.items (option_map (λ path. string_bytes path.now) from.entry))) }
        ensures none { IfOk result (λ stood. IsFalse stood →
            standing_at self.old.changes.items (option_map (λ path. string_bytes path.now) from.entry) ≡ None) }
        ensures same { OnErr result (self.new.changes.items ≡ self.old.changes.items) }
        ensures settled { self.new.settled ≡ self.old.settled }
        ensures failures { CountsCalls result self.old.failures self.new.failures }
        ensures noted { NotesFault result self.old.noted_fault self.new.noted_fault }
    {
        let before = match self.begin(from.unwrap_or(to), to) {
            Ok(before) => before,
            Err(fault) => return Err(fault),
        };
        let Ok(file) = self.copy_at(from) else {
            return self.fails(FileFault::OutOfMemory);
        };
        let stood = file.is_some();
        // A name that is not there is not renamed.
        if !stood && gone.as_str() != to.as_str() {
            return self.fails(FileFault::Write);
        }
        let Ok(()) = self.change(gone.as_str(), to.as_str(), file) else {
            return self.fails(FileFault::OutOfMemory);
        };
        self.failures = before;
        Ok(stood)
    }

    /// Puts a file at a path. No crash takes it away, nor what else the folder holds.
    pub(crate) fn add(&mut self, path: &str, bytes: &[u8]) -> Result<(), AllocError>
        ensures safe { OnOk result ((left : Left) → FolderLeaves self.new left →
            (path : List ℕ) → left path ≡ standing self.new.changes.items path) }
        ensures stands { OnOk result (standing self.new.changes.items path.now ≡ Some bytes.now) }
        ensures same { OnErr result (self.new.changes.items ≡ self.old.changes.items) }
        ensures failures { self.new.failures ≡ self.old.failures }
        ensures others { OnOk result (IsSameBut path.now
            (standing self.old.changes.items) (standing self.new.changes.items)) }
    {
        let file = bytes.to_vec(self.alloc)?;
        self.change(path, path, Some(file))?;
        self.settled = self.settled.max(self.changes.len());
        Ok(())
    }
}

impl Folder for CrashFolder {
    ghost use Rattle.pocsag_command_cases.specs.CrashFolders.{FolderLeftSince, counts_then, folder_held};

    ghost is_known = { Unit {0} };

    ghost held = { folder_held };

    ghost may_leave = { FolderLeaves };

    ghost moment = { λ folder. folder.settled };

    ghost left_since = { FolderLeftSince };

    ghost failures = { λ folder. folder.failures };

    ghost noted_fault = { λ folder. folder.noted_fault };

    ghost counts_now = { λ folder t left is_known le now. counts_then folder.changes.items t folder.settled left le now };

    ghost only_now = { λ folder left is_known since. since };

    fn link(&mut self, _role: Role, from: &String, to: &String) -> Result<bool, FileFault> {
        let stood = self.act(Some(from), to, to)?;
        Ok(stood)
    }

    fn rename(&mut self, _role: Role, from: &String, to: &String) -> Result<(), FileFault> {
        // No file is renamed to its own name.
        if from.as_str() == to.as_str() {
            self.failures = self.failures.saturating_add(1);
            return self.fails(FileFault::Write);
        }
        match self.act(Some(from), from, to) {
            Ok(_) => Ok(()),
            Err(fault) => Err(fault),
        }
    }

    fn sync_names(&mut self, _role: Role, path: &String) -> Result<(), FileFault> {
        let before = self.begin(path, path)?;
        self.settled = self.settled.max(self.changes.len());
        self.failures = before;
        Ok(())
    }

    fn remove(&mut self, path: &String) -> Result<(), DeviceFault> {
        match self.act(None, path, path) {
            Ok(_) => Ok(()),
            Err(_) => Err(DeviceFault),
        }
    }
}

/// Makes two files beside their places, whose bytes are on the disk, and puts both there, the first one first. If it returns they
/// stand there and no crash takes them away, and nothing is left beside the places, unless a call failed; if it does not, what stood
/// at the places still does, unless a second call failed.
pub(crate) fn put_both(
    folder: &mut CrashFolder,
    files: &[StagedFile],
    first: &[u8],
    second: &[u8],
) -> Result<(), FileFault>
    ensures put { OnOk result ((one two : StagedFile) → AreTwo files.now one two →
        ArePlaced folder.new one first.now two second.now) }
    ensures gone { OnOk result ((one two : StagedFile) → AreTwo files.now one two →
        AreGone one two folder.new ⊎ HasFailed folder.old.failures folder.new.failures) }
    ensures back { OnErr result ((one two : StagedFile) → AreTwo files.now one two →
        ArePlacesSame one two folder.old folder.new ⊎ FailsTwice folder.old.failures folder.new.failures) }
{
    let [one, two] = files else {
        return Err(FileFault::Write);
    };
    let Ok(()) = folder.add(one.path.as_str(), first) else {
        return Err(FileFault::OutOfMemory);
    };
    let Ok(()) = folder.add(two.path.as_str(), second) else {
        return Err(FileFault::OutOfMemory);
    };
    match put_files(folder, files) {
        Ok(()) => Ok(()),
        Err(fault) => Err(fault),
    }
}
