use crate::context::Context;
use crate::fault::FileFault;
use crate::files::IS_FOLDER;
use crate::folder::Folder;
use crate::left_over::{locked, remove_left_over, remove_unheld};
use crate::paths::Named;
use crate::role::Role;
use crate::system_folder::SystemFolder;
use std::fs::{self, File, Metadata, OpenFile, OpenOptions};
use std::io::{self, ErrorKind};
use std::os::unix::fs::{MetadataExt, OpenOptionsExt, fchown};
use std::{process, slice};

// The mode that lets nobody but the owner read and write.
const OWNER_ALONE: u32 = 0o600;

/// A file that a command writes beside its place and renames to the place once it is whole. An older file stays whole until
/// then.
#[derive(Drop)]
pub struct StagedFile {
    /// What the file is to the command.
    pub role: Role,
    /// Its place.
    pub place: String,
    /// Where it is made, beside the place.
    pub path: String,
    /// Where an older file of the place is kept until all files of a plan are at their places.
    pub kept: String,
    /// The file, locked, so that no other run takes it for one that a killed run left.
    pub file: File,
    /// The file as the system knows it.
    pub named: Named,
}

impl StagedFile {
    /// Makes an empty file beside the place, with the owner, group and mode of an older file at the place. It first removes
    /// what killed runs left in the folder of the place. Its name has the number of this process, or the next one under which
    /// no other run holds a file: processes of two containers may have one number. `made` are the files of this run, and a place
    /// of one of them, under any spelling, is refused.
    pub fn make(
        context: Context<'_>,
        role: Role,
        place: &str,
        made: &[StagedFile],
    ) -> Result<StagedFile, FileFault> {
        remove_left_over(context.rt, place);
        for number in process::id(context.rt.process())..u32::MAX {
            let path = format!(in context.alloc; "{place}.pocsag.{number}.new")?;
            let named = Named::at(context.rt, path.as_str());
            for file in made {
                if named == Some(file.named) {
                    context.diagnostics.note_refusal(role);
                    return Err(FileFault::EqualPaths);
                }
            }
            let Some(file) = create(context, role, place, path.as_str())? else {
                continue;
            };
            let named = Named::of(&context.opened(role, file.metadata())?);
            return Ok(StagedFile {
                role,
                place: String::from_str(context.alloc, place)?,
                path,
                kept: format!(in context.alloc; "{place}.pocsag.{number}.old")?,
                file,
                named,
            });
        }
        Err(FileFault::Write)
    }

    /// The path beside the place.
    pub fn path(&self) -> &str {
        self.path.as_str()
    }

    /// Whether it still stands beside its place.
    pub(crate) fn stands(&self, context: Context<'_>) -> bool {
        Named::at(context.rt, self.path()) == Some(self.named)
    }

    /// Brings the bytes of the file to the disk.
    pub fn sync(&self, context: Context<'_>) -> Result<(), FileFault> {
        context.written(self.role, self.file.sync_all())
    }

    /// Renames the file to its place, and brings the new name to the disk.
    pub fn put(&self, context: Context<'_>) -> Result<(), FileFault> {
        let mut folder = SystemFolder::new(context, slice::from_ref(self));
        folder.open(self.role, &self.place)?;
        folder.rename(self.role, &self.path, &self.place)?;
        folder.sync_names(self.role, &self.place)
    }

    /// Removes the file if it is still beside its place, and then the second name of the older file, which still stands there. A
    /// failure changes nothing.
    pub fn remove(&self, context: Context<'_>) {
        if self.stands(context) && fs::remove_file(context.rt, self.path()).is_ok() {
            let _ = fs::remove_file(context.rt, self.kept.as_str());
        }
    }
}

// Makes and locks an empty file for a place. None where another run holds a file of the name, or has taken this one for what a
// killed run left.
fn create(
    context: Context<'_>,
    role: Role,
    place: &str,
    path: &str,
) -> Result<Option<File>, FileFault> {
    let rt = context.rt;
    let old = match fs::metadata(rt, place) {
        Err(error) if error.kind() == ErrorKind::NotFound => None,
        found => Some(context.opened(role, found)?),
    };
    if old.as_ref().is_some_and(|old| old.is_dir()) {
        context.diagnostics.note_system_error(role, Some(IS_FOLDER));
        return Err(FileFault::Write);
    }
    // A killed process with the same number may have left one.
    remove_unheld(rt, path);
    let mut options = OpenOptions::new();
    options.read(true).append(true).create_new(true);
    if old.is_some() {
        // Nobody else can open the file before it has the mode of the old one.
        options.mode(OWNER_ALONE);
    }
    let made = match options.open(rt, path) {
        Err(error) if error.kind() == ErrorKind::AlreadyExists => return Ok(None),
        made => context.opened(role, made)?,
    };
    // Some file systems have no locks.
    let Some(file) = context.opened(role, locked(rt, made, path, true))? else {
        return Ok(None);
    };
    if let Some(old) = &old {
        if let Err(error) = copy_ownership(&file, old) {
            let _ = fs::remove_file(rt, path);
            context
                .diagnostics
                .note_system_error(role, error.raw_os_error());
            return Err(FileFault::Owner);
        }
    }
    Ok(Some(file))
}

// Gives a new file the owner, group and mode of an old one. The mode comes last, because a change of the owner clears bits of
// it. Some file systems refuse to change the owner at all, so an owner that is right already is left alone.
fn copy_ownership(new: &File, old: &Metadata) -> io::Result<()> {
    let made = new.metadata()?;
    if (made.uid(), made.gid()) != (old.uid(), old.gid()) {
        fchown(new, Some(old.uid()), Some(old.gid()))?;
    }
    new.set_permissions(old.permissions())
}

/// The folder that a path stands in, and the last part of the path.
pub(crate) fn parts_of(path: &str) -> (&str, &str) {
    match path.rsplit_once('/') {
        Some((folder, name)) if folder.is_empty() => ("/", name),
        Some(parts) => parts,
        None => (".", path),
    }
}
