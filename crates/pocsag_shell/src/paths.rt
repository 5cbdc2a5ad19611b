ghost use Rattle.std.specs.Prelude.{◌↔◌, ◌⊎◌, ◌<◌, IsErrOf, IsTrue, length, map};
ghost use Rattle.pocsag_shell.specs.declared.fault.FileFault.TheVariants.{EqualPaths};
ghost use Rattle.pocsag_shell.specs.Paths.{AreOne, HasEqual, IsNamedBefore, paths_of};

use crate::fault::FileFault;
use std::fs::{self, Metadata};
use std::os::unix::fs::{FileTypeExt, MetadataExt};
use std::rt::Files;

// Whether one of the paths before the place is equal to that at the place.
fn is_named_before(paths: &[&str], place: usize) -> bool
    requires { place < length paths.now }
    ensures { IsTrue result ↔ IsNamedBefore (map (λ path. path.now) paths.now) place }
{
    for earlier in 0..place {
        if paths[earlier] == paths[place] {
            return true;
        }
    }
    false
}

/// Whether two of the paths are equal texts.
pub fn equal_paths(paths: &[&str]) -> bool
    ensures { IsTrue result ↔ HasEqual (map (λ path. path.now) paths.now) }
{
    for place in 0..paths.len() {
        if is_named_before(paths, place) {
            return true;
        }
    }
    false
}

/// Refuses equal texts among the paths of a page file, if there is one, and of two outputs.
pub fn refuse_equal(pages: Option<&str>, tx: &str, cert: &str) -> Result<(), FileFault>
    ensures { HasEqual (map (λ path. path.now) (paths_of pages.entry tx.entry cert.entry)) ↔ IsErrOf result EqualPaths }
{
    let equal = match pages {
        Some(pages) => equal_paths(&[pages, tx, cert]),
        None => equal_paths(&[tx, cert]),
    };
    if equal {
        return Err(FileFault::EqualPaths);
    }
    Ok(())
}

/// A file as the system knows it. A second spelling of a path, or a link, names the same file.
#[derive(Clone, Copy, PartialEq, Eq)]
pub struct Named {
    device: u64,
    number: u64,
}

impl Named {
    /// The file that the metadata describe.
    pub fn of(metadata: &Metadata) -> Named {
        Named {
            device: metadata.dev(),
            number: metadata.ino(),
        }
    }

    /// The file that the path names, if there is one.
    pub fn at<R: Files>(rt: &R, path: &str) -> Option<Named> {
        Some(Named::of(&fs::metadata(rt, path).ok()?))
    }

    /// The file behind a stream with this path, if the stream is open. A character device such as a terminal does not count: it
    /// keeps no bytes.
    pub fn behind<R: Files>(rt: &R, path: &str) -> Option<Option<Named>> {
        let metadata = fs::metadata(rt, path).ok()?;
        if metadata.file_type().is_char_device() {
            return Some(None);
        }
        Some(Some(Named::of(&metadata)))
    }
}

/// Whether two of the files of a plan are one file.
pub fn name_one_file(pages: Option<Named>, tx: Option<Named>, cert: Option<Named>) -> bool
    ensures { IsTrue result ↔ (AreOne pages tx ⊎ AreOne pages cert ⊎ AreOne tx cert) }
{
    are_one(pages, tx) || are_one(pages, cert) || are_one(tx, cert)
}

pub(crate) fn are_one(one: Option<Named>, other: Option<Named>) -> bool
    ensures { IsTrue result ↔ AreOne one other }
{
    match (one, other) {
        (Some(one), Some(other)) => one == other,
        _ => false,
    }
}
