ghost use Rattle.std.specs.Prelude.{◌≡◌, ◌↔◌, ◌^◌, ◌<◌, ◌++◌, ℕ, List, codes, IfNone, IfSome, Some};
ghost use Rattle.std.specs.Fmt.{decimal};
ghost use Rattle.pocsag_shell.specs.StagedFiles.{IsLockName, IsMadeName, IsStagedName};
ghost use Rattle.pocsag_shell.specs.declared.left_over.LeftOver.TheVariants.{Kept, Lock, Made};

use crate::files::is_regular_or_none;
use crate::paths::Named;
use crate::staged_file::parts_of;
use std::fs::{self, File, Permissions, TryLockError};
use std::io::{self, ErrorKind};
use std::os::unix::fs::PermissionsExt;
use std::process;

// The ending of the locks of places.
const LOCK: &str = ".pocsag.lock";

// What marks the names of files that runs make beside places.
const FILE_MARK: &str = ".pocsag";

// The mode that lets everybody read.
const ALL_READ: u32 = 0o444;

// What a killed run may have left under a name.
#[derive(Clone, Copy)]
enum LeftOver {
    // The lock of a place.
    Lock,
    // What the process of this number made beside a place.
    Made(u32),
    // What stood at this place before, which the process of this number kept.
    Kept(u32),
    // Nothing that may be removed.
    Neither,
}

/// Removes what runs that were killed left in the folder of a place, and what nobody holds: the locks of places, the files that
/// runs made beside any place, `PLACE.pocsag.NUMBER.new`, and, of this place alone, the older file that they kept,
/// `PLACE.pocsag.NUMBER.old`. No process has the number now. It removes nothing if the system does not show its processes.
pub(crate) fn remove_left_over(rt: &HostRuntime, place: &str) {
    if fs::metadata(rt, "/proc/self/stat").is_err() {
        return;
    }
    let (folder, name) = parts_of(place);
    let Ok(entries) = fs::read_dir(rt, folder) else {
        return;
    };
    for entry in entries {
        let Ok(entry) = entry else {
            continue;
        };
        let path = entry.path();
        match left_over(name, entry.file_name()) {
            LeftOver::Lock => remove_unheld(rt, path.as_str()),
            LeftOver::Made(number) if is_gone(rt, number) => remove_unheld(rt, path.as_str()),
            LeftOver::Kept(number) if is_gone(rt, number) => remove_kept(rt, place, path.as_str()),
            _ => {}
        }
    }
}

// Whether no process has the number.
fn is_gone(rt: &HostRuntime, number: u32) -> bool {
    let Ok(path) = format!(in rt.alloc(); "/proc/{number}") else {
        return false;
    };
    fs::metadata(rt, path.as_str()).is_err_and(|error| error.kind() == ErrorKind::NotFound)
}

/// Removes a file that nobody holds, if there is one.
pub(crate) fn remove_unheld(rt: &HostRuntime, path: &str) {
    // The lock lasts until the file is removed.
    if let Ok(Some(_file)) = lock_there(rt, path, false) {
        let _ = fs::remove_file(rt, path);
    }
}

// Removes what stood at a place before, unless a run holds the place, which may bring it back.
fn remove_kept(rt: &HostRuntime, place: &str, path: &str) {
    let Ok(lock) = format!(in rt.alloc(); "{place}{LOCK}") else {
        return;
    };
    if let Ok(Some(_file)) = lock_or_make(rt, lock.as_str(), false) {
        let _ = fs::remove_file(rt, path);
        let _ = fs::remove_file(rt, lock.as_str());
    }
}

// What killed runs may have left under the name of a file, in the folder of the place of a name.
fn left_over(name: &str, file: &str) -> LeftOver
    ensures lock { (result ≡ Lock) ↔ IsLockName file.now }
    ensures made { (number : ℕ) → (result ≡ Made number) ↔ IsMadeName number file.now }
    ensures kept { (number : ℕ) → (result ≡ Kept number)
        ↔ IsStagedName (name.now ++ codes ".pocsag") number (codes ".old") file.now }
{
    if file.ends_with(LOCK) {
        return LeftOver::Lock;
    }
    if let Some((front, number)) = process_of(file, ".new") {
        if front.ends_with(FILE_MARK) {
            return LeftOver::Made(number);
        }
        return LeftOver::Neither;
    }
    let Some((front, number)) = process_of(file, ".old") else {
        return LeftOver::Neither;
    };
    let Some(place) = front.strip_suffix(FILE_MARK) else {
        return LeftOver::Neither;
    };
    if place == name {
        return LeftOver::Kept(number);
    }
    LeftOver::Neither
}

/// Opens a file that is not there or that runs lock, and locks it. None where another run holds it, or has just removed it. A file
/// system that has no locks has that of nobody, where `may_lack` says so.
pub(crate) fn lock_or_make(
    rt: &HostRuntime,
    path: &str,
    may_lack: bool,
) -> io::Result<Option<File>> {
    match make_lock(rt, path)? {
        Some(file) => locked(rt, file, path, may_lack),
        None => lock_there(rt, path, may_lack),
    }
}

// The same of a file that is there.
fn lock_there(rt: &HostRuntime, path: &str, may_lack: bool) -> io::Result<Option<File>> {
    // Opening a pipe would wait for who writes to it.
    if !is_regular_or_none(rt, path) {
        return Err(io::Error::other("no regular file"));
    }
    match fs::open(rt, path) {
        Ok(file) => locked(rt, file, path, may_lack),
        Err(error) if error.kind() == ErrorKind::NotFound => Ok(None),
        Err(error) => Err(error),
    }
}

/// The file, locked. None where another run holds it, or has removed it since it was opened.
pub(crate) fn locked(
    rt: &HostRuntime,
    file: File,
    path: &str,
    may_lack: bool,
) -> io::Result<Option<File>> {
    match file.try_lock() {
        Err(TryLockError::WouldBlock) => return Ok(None),
        Err(TryLockError::Error(error)) if !may_lack => return Err(error),
        _ => {}
    }
    let named = Named::of(&file.metadata()?);
    if Named::at(rt, path) != Some(named) {
        return Ok(None);
    }
    Ok(Some(file))
}

// Makes a lock that is not there. Runs of other users open it too, whatever the mask of this one: it has its mode before it has its
// name, so that a run that is killed in between leaves no lock that others cannot open. None where it is there already.
fn make_lock(rt: &HostRuntime, path: &str) -> io::Result<Option<File>> {
    if Named::at(rt, path).is_some() {
        return Ok(None);
    }
    let number = process::id(rt.process());
    let first = format!(in rt.alloc(); "{path}.pocsag.{number}.new")?;
    let first = first.as_str();
    // A killed process with the same number may have left one.
    let _ = fs::remove_file(rt, first);
    if let Ok(file) = readable_by_all(File::create_new(rt, first)) {
        let named = fs::hard_link(rt, first, path);
        let _ = fs::remove_file(rt, first);
        match named {
            Ok(()) => return Ok(Some(file)),
            Err(error) if error.kind() == ErrorKind::AlreadyExists => return Ok(None),
            // Some file systems have no second names.
            Err(_) => {}
        }
    }
    match readable_by_all(File::create_new(rt, path)) {
        Ok(file) => Ok(Some(file)),
        Err(error) if error.kind() == ErrorKind::AlreadyExists => Ok(None),
        Err(error) => Err(error),
    }
}

// The file that was made, which everybody may read now.
fn readable_by_all(made: io::Result<File>) -> io::Result<File> {
    let file = made?;
    let _ = file.set_permissions(Permissions::from_mode(ALL_READ));
    Ok(file)
}

// What stands before the number in the name of a file with this ending, and the number of the process that made it, if a process
// made it.
fn process_of<'a>(file: &'a str, ending: &str) -> Option<(&'a str, u32)>
    ensures named { IfSome result (λ parts. IsStagedName parts.0.now parts.1 ending.now file.now) }
    ensures none { IfNone result ((front : List ℕ) (number : ℕ) → IsStagedName front number ending.now file.now → ⊥) }
{
    let (front, digits) = file.strip_suffix(ending)?.rsplit_once('.')?;
    Some((front, written_number(digits)?))
}

// The number from 1 on that is written so.
fn written_number(digits: &str) -> Option<u32>
    ensures { (number : ℕ) → (result ≡ Some number)
        ↔ ((0 < number) × (number < 2 ^ 32) × (digits.now ≡ decimal number)) }
{
    let first = *digits.as_bytes().first()?;
    // A sign, or a zero in front of others.
    if first <= b'0' {
        return None;
    }
    digits.parse::<u32>().ok()
}
