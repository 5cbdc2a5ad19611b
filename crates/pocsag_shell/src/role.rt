use std::fmt::{self, Display};

/// What a file or a stream is to a command.
#[derive(Clone, Copy, PartialEq, Eq)]
pub enum Role {
    PageFile,
    Transmission,
    Certificate,
    /// The page file of the pages that are left.
    Rest,
    /// The page file of the pages that are set aside, since they alone need too many batches.
    Oversized,
    /// The certificate that says why pages are left.
    Why,
    /// The journal of an open round.
    Journal,
    /// Standard output.
    Output,
    /// Standard input, which holds the lines of an open round.
    Lines,
}

impl Display for Role {
    fn fmt<W: fmt::Write>(&self, f: &mut fmt::Formatter<W>) -> fmt::Result {
        f.write_str(match self {
            Role::PageFile => "page file",
            Role::Transmission => "transmission",
            Role::Certificate => "certificate",
            Role::Rest => "page file of the rest",
            Role::Oversized => "page file of the oversized",
            Role::Why => "certificate of one page more",
            Role::Journal => "journal",
            Role::Output => "standard output",
            Role::Lines => "standard input",
        })
    }
}

/// A file of a command: its role, and the word that names it, if there is one.
#[derive(Clone, Copy)]
pub struct NamedFile<'a>(pub Role, pub Option<&'a str>);

impl Role {
    /// The file with this role among those of a command.
    pub fn among<'a>(self, files: &[NamedFile<'a>]) -> NamedFile<'a> {
        for file in files {
            if file.0 == self {
                return *file;
            }
        }
        NamedFile(self, None)
    }
}

impl Display for NamedFile<'_> {
    fn fmt<W: fmt::Write>(&self, f: &mut fmt::Formatter<W>) -> fmt::Result {
        let NamedFile(role, name) = *self;
        match name {
            Some(name) => write!(f, "{role} {name}"),
            None => write!(f, "{role}"),
        }
    }
}
