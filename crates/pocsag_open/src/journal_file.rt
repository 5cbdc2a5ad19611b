ghost use Rattle.std.specs.Prelude.{◌≡◌, ◌≤◌, [], false, length, IfOk};

use crate::fault::OpenFault;
use crate::round_files::{OpenArgs, load_pages};
use pocsag_journal::Disk;
use pocsag_pages::{WholeFault, read_whole};
use pocsag_shell::{Context, FileFault, LoadedFile, Named, Role, StagedFile, SystemDevice};
use pocsag_words::{DeviceFault, Source, write_all};
use std::alloc::Global;
use std::cell::Cell;
use std::fs::{self, File, Metadata, OpenFile, OpenOptions, TryLockError};
use std::io::{ErrorKind, Write};

const ROLE: Role = Role::Journal;

/// Where a journal is.
#[derive(Clone, Copy)]
pub(crate) struct JournalPlace<'a, 'w> {
    pub context: Context<'a>,
    pub path: &'a str,
    /// Why the journal could not be written, if a reason is known.
    pub why: &'w Cell<Option<OpenFault>>,
}

impl JournalPlace<'_, '_> {
    // What was done, as a disk reports it, which has one fault alone.
    fn by_disk<T: Drop>(&self, done: Result<T, OpenFault>) -> Result<T, DeviceFault> {
        match done {
            Ok(done) => Ok(done),
            Err(fault) => {
                self.why.set(Some(fault));
                Err(DeviceFault)
            }
        }
    }
}

/// The file of a journal, which this program alone holds. Nothing is known of its bytes.
#[derive(Drop)]
pub(crate) struct JournalFile<'a, 'w> {
    pub place: JournalPlace<'a, 'w>,
    // Whether there was no file at the path before.
    is_new: bool,
    file: File,
    named: Named,
    /// How many bytes the file has, by what was found first and written since.
    pub len: u64,
}

impl<'a, 'w> JournalFile<'a, 'w> {
    /// Opens or makes the file, and locks it, unless another program holds it. The lock goes with the file, so what stands at
    /// the path must still be the file that is locked.
    pub fn hold(place: JournalPlace<'a, 'w>) -> Result<JournalFile<'a, 'w>, OpenFault> {
        let JournalPlace { context, path, .. } = place;
        let mut options = OpenOptions::new();
        options.read(true).append(true).create_new(true);
        let (found, is_new) = match options.open(context.rt, path) {
            Err(error) if error.kind() == ErrorKind::AlreadyExists => {
                (options.create_new(false).open(context.rt, path), false)
            }
            made => (made, true),
        };
        let file = context.opened(ROLE, found)?;
        let held = held(place, &file);
        if is_new && held.is_err() {
            remove_made(place, &file);
        }
        let metadata = held?;
        Ok(JournalFile {
            place,
            is_new,
            file,
            named: Named::of(&metadata),
            len: metadata.len(),
        })
    }

    /// A handle of the file where it was made, which keeps its lock.
    pub fn made(&self) -> Result<Option<File>, FileFault> {
        if !self.is_new {
            return Ok(None);
        }
        let made = self.place.context.opened(ROLE, self.file.try_clone());
        if made.is_err() {
            remove_made(self.place, &self.file);
        }
        Ok(Some(made?))
    }

    // That what stands at the path is the file that is held, with the bytes that it should have: another program may
    // have moved it, deleted it or written to it.
    fn stands(&self) -> Result<(), OpenFault> {
        let JournalPlace { context, path, .. } = self.place;
        match fs::metadata(context.rt, path) {
            Ok(found) if Named::of(&found) == self.named && found.len() == self.len => Ok(()),
            _ => Err(OpenFault::NotHeld),
        }
    }

    // Puts a file of the text at the path, and holds it.
    fn put(&mut self, text: &[u8]) -> Result<(), OpenFault> {
        let context = self.place.context;
        let staged_file = StagedFile::make(context, ROLE, self.place.path, &[])?;
        if let Err(fault) = self.put_staged(&staged_file, text) {
            staged_file.remove(context);
            return Err(fault);
        }
        let StagedFile { file, named, .. } = staged_file;
        self.file = file;
        self.named = named;
        self.len = text.len() as u64;
        Ok(())
    }

    // Writes the text to the file beside the path, and puts it there once it is on the disk. It is locked before.
    fn put_staged(&self, staged_file: &StagedFile, text: &[u8]) -> Result<(), OpenFault> {
        let context = self.place.context;
        let mut file = &staged_file.file;
        lock(context, file, OpenFault::File(FileFault::Device))?;
        context.written(ROLE, file.write_all(text))?;
        staged_file.sync(context)?;
        self.stands()?;
        Ok(staged_file.put(context)?)
    }
}

// Locks the file of a journal, which must still stand at the path.
fn held(place: JournalPlace<'_, '_>, file: &File) -> Result<Metadata, OpenFault> {
    let JournalPlace { context, path, .. } = place;
    lock(context, file, OpenFault::HeldByAnother)?;
    let metadata = context.opened(ROLE, file.metadata())?;
    if Named::at(context.rt, path) != Some(Named::of(&metadata)) {
        return Err(OpenFault::HeldByAnother);
    }
    Ok(metadata)
}

/// Removes a file that was made, if it is still at the path and no other program holds it. A journal that was written is
/// another file. A failure to remove it changes nothing.
pub(crate) fn remove_made(place: JournalPlace<'_, '_>, made: &File) {
    let rt = place.context.rt;
    if matches!(made.try_lock(), Err(TryLockError::WouldBlock)) {
        return;
    }
    let Ok(metadata) = made.metadata() else {
        return;
    };
    if Named::at(rt, place.path) == Some(Named::of(&metadata)) {
        let _ = fs::remove_file(rt, place.path);
    }
}

// Locks the file, unless another program holds it.
fn lock(context: Context<'_>, file: &File, where_held: OpenFault) -> Result<(), OpenFault> {
    match file.try_lock() {
        Ok(()) => Ok(()),
        Err(TryLockError::WouldBlock) => Err(where_held),
        Err(TryLockError::Error(error)) => Ok(context.opened(ROLE, Err(error))?),
    }
}

impl Disk for JournalFile<'_, '_> {
    ghost is_known = { ⊥ };

    ghost held = { λ _. [] };

    ghost may_leave = { λ _ _. ⊥ };

    ghost moment = { λ _. 0 };

    ghost left_since = { λ _ _ _. ⊥ };

    ghost failures = { λ _. 0 };

    ghost is_sound = { λ _. ⊥ };

    ghost counts_now = { λ file t left is_known le now. absurd is_known };

    ghost only_now = { λ file left is_known since. absurd is_known };

    fn read(&mut self, alloc: Global, most: usize) -> Result<Vec<u8>, WholeFault> {
        let mut source = SystemDevice::new(&self.file, ROLE, self.place.context.diagnostics);
        read_whole(alloc, &mut source, most)
    }

    fn append(&mut self, line: &[u8]) -> Result<(), DeviceFault> {
        self.place.by_disk(self.stands())?;
        let mut sink = SystemDevice::new(&self.file, ROLE, self.place.context.diagnostics);
        write_all(&mut sink, line)?;
        self.len = self.len.saturating_add(line.len() as u64);
        Ok(())
    }

    fn sync(&mut self) -> Result<(), DeviceFault> {
        let synced = self.place.context.written(ROLE, self.file.sync_data());
        let done = match synced {
            Ok(()) => self.stands(),
            Err(fault) => Err(OpenFault::File(fault)),
        };
        self.place.by_disk(done)
    }

    fn replace(&mut self, text: &[u8]) -> Result<(), DeviceFault> {
        let done = self.put(text);
        self.place.by_disk(done)
    }
}

/// The page file that a kept round begins with. It is opened where it is read, once the journal is read.
#[derive(Drop)]
pub(crate) struct FirstPages<'a, 'w> {
    place: JournalPlace<'a, 'w>,
    args: OpenArgs<'a>,
    path: &'a str,
    file: Option<LoadedFile>,
    calls: u64,
    failures: u64,
}

impl<'a, 'w> FirstPages<'a, 'w> {
    pub fn new(
        place: JournalPlace<'a, 'w>,
        args: OpenArgs<'a>,
        path: &'a str,
    ) -> FirstPages<'a, 'w> {
        FirstPages {
            place,
            args,
            path,
            file: None,
            calls: 0,
            failures: 0,
        }
    }

    // Reads the file, which is opened before it is read first.
    fn read_on(&mut self, buffer: &mut [u8]) -> Result<usize, DeviceFault>
        ensures within { IfOk result (λ n. n ≤ length buffer.old) }
        ensures calls { self.new.calls ≡ self.old.calls }
        ensures failures { self.new.failures ≡ self.old.failures }
    {
        if let Some(file) = &mut self.file {
            return file.read(buffer);
        }
        let loaded = load_pages(self.place.context, self.args, self.path);
        let mut file = self.place.by_disk(loaded)?;
        let count = file.read(buffer);
        self.file = Some(file);
        count
    }
}

impl Source for FirstPages<'_, '_> {
    ghost is_known = { ⊥ };

    ghost held = { λ _. [] };

    ghost is_cut = { λ _. false };

    ghost calls = { λ pages. pages.calls };

    ghost failures = { λ pages. pages.failures };

    fn read(&mut self, buffer: &mut [u8]) -> Result<usize, DeviceFault> {
        self.calls = self.calls.saturating_add(1);
        let done = self.read_on(buffer);
        if done.is_err() {
            self.failures = self.failures.saturating_add(1);
        }
        done
    }
}
