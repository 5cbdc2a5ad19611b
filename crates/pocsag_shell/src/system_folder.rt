use crate::context::Context;
use crate::fault::FileFault;
use crate::folder::Folder;
use crate::left_over::lock_or_make;
use crate::placement::put_files;
use crate::role::Role;
use crate::staged_file::{StagedFile, parts_of};
use pocsag_words::DeviceFault;
use std::fs::{self, File};
use std::io::{self, ErrorKind};
use std::thread;
use std::time::Duration;

// How often a run tries to lock a place, and how long it waits in between: five seconds in all.
const TRIES: u32 = 500;

const PAUSE_MS: u64 = 10;

/// The folders of the system. Nothing is known of what stands in them.
#[derive(Drop)]
pub struct SystemFolder<'a> {
    context: Context<'a>,
    // The files that are to be renamed.
    files: &'a [StagedFile],
    // The folders that were opened, by their paths.
    opened: Vec<(String, File)>,
    // The locks of places, by their paths.
    locks: Vec<(String, File)>,
}

/// Brings the files to the disk and puts them at their places, as `put_files` does. Runs that put files at one place take
/// turns.
pub fn put_staged(context: Context<'_>, files: &[StagedFile]) -> Result<(), FileFault> {
    let mut folder = SystemFolder::new(context, files);
    let done = folder.prepare().and_then(|_| put_files(&mut folder, files));
    // The locks last until they are removed.
    for (path, _file) in &folder.locks {
        let _ = fs::remove_file(context.rt, path.as_str());
    }
    done
}

impl<'a> SystemFolder<'a> {
    /// The folders of these files' places. None is opened yet.
    pub fn new(context: Context<'a>, files: &'a [StagedFile]) -> SystemFolder<'a> {
        SystemFolder {
            context,
            files,
            opened: Vec::new(context.alloc),
            locks: Vec::new(context.alloc),
        }
    }

    // Brings the bytes of the files to the disk, opens the folders of their places, and locks the places.
    fn prepare(&mut self) -> Result<(), FileFault> {
        for file in self.files {
            file.sync(self.context)?;
            self.open(file.role, &file.place)?;
        }
        for file in self.files {
            self.lock(file.role, &file.place)?;
        }
        Ok(())
    }

    /// Opens the folder of a path, whose entries `sync_names` brings to the disk.
    pub fn open(&mut self, role: Role, path: &String) -> Result<(), FileFault> {
        let (name, _) = parts_of(path.as_str());
        let folder = self.context.opened(role, fs::open(self.context.rt, name))?;
        let name = String::from_str(self.context.alloc, name)?;
        self.opened.push((name, folder))?;
        Ok(())
    }

    // Locks a place against other runs that put a file there. What is locked is a file of its own beside the place, whose
    // removal ends the lock: what stands at the place is replaced.
    fn lock(&mut self, role: Role, place: &String) -> Result<(), FileFault> {
        let context = self.context;
        let path = format!(in context.alloc; "{place}.pocsag.lock")?;
        for _ in 0..TRIES {
            match lock_or_make(context.rt, path.as_str(), true) {
                Ok(Some(lock)) => {
                    self.locks.push((path, lock))?;
                    return Ok(());
                }
                Ok(None) => thread::sleep(context.rt, Duration::from_millis(PAUSE_MS)),
                Err(error) if error.kind() == ErrorKind::OutOfMemory => {
                    return Err(FileFault::OutOfMemory);
                }
                Err(error) => {
                    context.note(format_args!("{role} {place}: cannot lock {path}: {error}"));
                    return Err(FileFault::Write);
                }
            }
        }
        context.note(format_args!("{role} {place}: another run is putting its files there"));
        Err(FileFault::Write)
    }
}

impl Folder for SystemFolder<'_> {
    ghost use Rattle.std.specs.Prelude.{None};

    ghost is_known = { ⊥ };

    ghost held = { λ _ _. None };

    ghost may_leave = { λ _ _. ⊥ };

    ghost moment = { λ _. 0 };

    ghost left_since = { λ _ _ _. ⊥ };

    ghost failures = { λ _. 0 };

    ghost noted_fault = { λ _. None };

    ghost counts_now = { λ folder t left is_known le now. absurd is_known };

    ghost only_now = { λ folder left is_known since. absurd is_known };

    fn link(&mut self, role: Role, from: &String, to: &String) -> Result<bool, FileFault> {
        let context = self.context;
        let _ = fs::remove_file(context.rt, to.as_str());
        let linked = match fs::hard_link(context.rt, from.as_str(), to.as_str()) {
            // Some file systems have no second names: a copy stands in, with its bytes on the disk.
            Err(error) if error.kind() != ErrorKind::NotFound => {
                fs::copy(context.rt, from.as_str(), to.as_str())
                    .and_then(|_| fs::open(context.rt, to.as_str()))
                    .and_then(|copied| copied.sync_all())
            }
            linked => linked,
        };
        match linked {
            Err(error) if error.kind() == ErrorKind::NotFound => Ok(false),
            linked => {
                context.written(role, linked)?;
                Ok(true)
            }
        }
    }

    fn rename(&mut self, role: Role, from: &String, to: &String) -> Result<(), FileFault> {
        let context = self.context;
        for file in self.files {
            if file.path() == from.as_str() && !file.stands(context) {
                context.note(format_args!("{role} {to}: another program took away {from}"));
                return Err(FileFault::Write);
            }
        }
        let renamed = fs::rename(context.rt, from.as_str(), to.as_str());
        context.written(role, renamed)
    }

    fn sync_names(&mut self, role: Role, path: &String) -> Result<(), FileFault> {
        let (name, _) = parts_of(path.as_str());
        for (opened, folder) in &self.opened {
            if opened.as_str() == name {
                return self.context.written(role, folder.sync_all());
            }
        }
        Err(FileFault::Write)
    }

    fn remove(&mut self, path: &String) -> Result<(), DeviceFault> {
        match fs::remove_file(self.context.rt, path.as_str()) {
            Err(error) if error.kind() != ErrorKind::NotFound => Err(DeviceFault),
            _ => Ok(()),
        }
    }
}
