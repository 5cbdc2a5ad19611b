//! Tables of the words of a command line, and the words that several groups share.

ghost use Rattle.std.specs.Prelude.{◌≡◌, ◌≢◌, IfNone, IfSome, codes};

/// The word for standard input or standard output.
pub const STANDARD: &str = "-";

/// The path in a word, or `None` for a standard stream.
pub fn path_of(word: &str) -> Option<&str>
    ensures stream { IfNone result (word.now ≡ codes "-") }
    ensures path { IfSome result (λ path. (path.now ≡ word.now) × (path.now ≢ codes "-")) }
{
    if word == STANDARD { None } else { Some(word) }
}

/// How the user gives a word.
#[derive(Clone, Copy)]
pub enum ArgForm {
    /// By its place.
    Place,
    /// `--id`.
    Flag,
    /// `--id VALUE`: the name of VALUE in help, and its default.
    Option(&'static str, &'static [&'static str]),
}

/// What a word may be.
#[derive(Clone, Copy)]
pub enum ArgType {
    Text,
    Number,
    /// One of these names.
    Choice(&'static [&'static str]),
}

/// A word of a command line.
#[derive(Clone, Copy)]
pub struct ArgSpec {
    pub id: &'static str,
    pub help: &'static str,
    pub given: ArgForm,
    pub content: ArgType,
    /// Whether the user must give it.
    pub is_required: bool,
    /// Whether it may also stand behind the name of a command.
    pub is_global: bool,
    /// Options that it needs.
    pub needs: &'static [&'static str],
    /// Options that it excludes.
    pub excludes: &'static [&'static str],
}

/// A command and its words, in the order of help.
#[derive(Clone, Copy)]
pub struct CommandSpec {
    pub name: &'static str,
    pub about: &'static str,
    /// The text of help behind the words.
    pub manual: Option<&'static str>,
    pub words: &'static [ArgSpec],
}

/// The defaults of a word by its place.
pub const PLACE: ArgSpec = ArgSpec {
    id: "",
    help: "",
    given: ArgForm::Place,
    content: ArgType::Text,
    is_required: true,
    is_global: false,
    needs: &[],
    excludes: &[],
};

/// The defaults of a flag or an option.
pub const FLAG: ArgSpec = ArgSpec {
    given: ArgForm::Flag,
    is_required: false,
    ..PLACE
};

pub const PAGES: &str = "PAGES";

pub const TX: &str = "TX";

pub const CERT: &str = "CERT";

pub const ALWAYS: &str = "always";

pub const KEEP: &str = "keep";

pub const EXPECT: &str = "expect";

pub const STRICT: &str = "strict";

pub const SVG: &str = "svg";

pub(crate) const VERBOSE: &str = "verbose";

pub const PAGES_PLACE: ArgSpec = ArgSpec {
    id: PAGES,
    help: "The page file, CSV with the header address,kind,message",
    ..PLACE
};

pub const TX_PLACE: ArgSpec = ArgSpec {
    id: TX,
    help: "The transmission",
    ..PLACE
};

pub const CERT_PLACE: ArgSpec = ArgSpec {
    id: CERT,
    help: "The certificate",
    ..PLACE
};

pub const ALWAYS_FLAG: ArgSpec = ArgSpec {
    id: ALWAYS,
    help: "\
Answers every round. If the search reaches its limit,
the plan may have one batch more than its bound",
    ..FLAG
};

pub const KEEP_FLAG: ArgSpec = ArgSpec {
    id: KEEP,
    help: "\
Keeps the old TX and CERT until both new files are
whole, and then renames the new ones to TX and CERT",
    ..FLAG
};

pub(crate) const VERBOSE_FLAG: ArgSpec = ArgSpec {
    id: VERBOSE,
    help: "\
Adds one line on standard error: which file the system
refused and why, or the text of a record that is wrong",
    is_global: true,
    ..FLAG
};
