//! What the commands share, over memory: what names a file, and how a line is reported.

use crate::same;
use pocsag_shell::{FileFault, NamedFile, Role, equal_paths, print_fault};
use pocsag_words::MemorySink;
use std::test::Fail;

// A file of a command, and how it is named.
const NAMED: [(Role, &str); 6] = [
    (Role::PageFile, "page file p\n.csv"),
    (Role::Transmission, "transmission"),
    (Role::Certificate, "certificate c"),
    (Role::Journal, "journal j"),
    (Role::Output, "standard output"),
    (Role::Lines, "standard input"),
];

#[test]
fn files_are_named(rt: HostRuntime) -> Result<(), Fail> {
    let files = [
        NamedFile(Role::PageFile, Some("p\n.csv")),
        NamedFile(Role::Certificate, Some("c")),
        NamedFile(Role::Journal, Some("j")),
    ];
    for (role, due) in NAMED {
        let place: NamedFile<'_> = role.among(&files);
        let told = format!(in rt.alloc(); "{place}").expect(&rt, "memory");
        same!(rt; told.as_str(), due);
    }
    Ok(())
}

// Where standard error fails the line is lost behind what was taken, and the status stays.
#[test]
fn faults_are_told(rt: HostRuntime) -> Result<(), Fail> {
    let whole = "pocsag: the file is too large\n";
    let cases = [
        (FileFault::TooLarge, 1000, 1, whole),
        (FileFault::TooLarge, 5, 1, "pocsa"),
        (FileFault::Device, 0, 3, ""),
    ];
    for (fault, fails_at, status, due) in cases {
        let mut err = MemorySink::<100>::new(7, fails_at);
        same!(rt; print_fault(&mut err, fault), status);
        same!(rt; err.bytes(), due.as_bytes());
    }
    Ok(())
}

// Paths are compared as texts.
#[test]
fn equal_paths_are_found(rt: HostRuntime) {
    let cases: [(&[&str], bool); 5] = [
        (&[], false),
        (&["a"], false),
        (&["a", "b", "a"], true),
        (&["a", "./a", "A"], false),
        (&["a", "b", "b"], true),
    ];
    for (paths, equal) in cases {
        same!(rt; equal_paths(paths), equal);
    }
}
