//! The text of every fault of a command, and the exit status behind it: 1 for what was refused, 3 for a device or memory.

use crate::same;
use pocsag_capture::CaptureFault;
use pocsag_centre::CentreFault;
use pocsag_core_cases::texts::{
    BAD_LIMIT, BAD_RATE, CUT_SHORT, IS_THERE, LIMIT_REACHED, NO_MEMORY, NO_PAGES, NO_READ,
    NO_WRITE, TOO_LARGE,
};
use pocsag_decode::DecodeFault;
use pocsag_findings::ExplanationFault;
use pocsag_journal::JournalFault;
use pocsag_open::{OpenFault, Refusal, UndoneFault, refuse};
use pocsag_pager::PagerFault;
use pocsag_pages::{FieldFault, PageFault, QuoteFault, RecordFault, RoundFault};
use pocsag_plan::{AddFault, NotThere};
use pocsag_receiver::ReceiverFault;
use pocsag_shell::{Failure, FileFault};
use pocsag_show::Rows;
use pocsag_sound::SoundFault;
use pocsag_tree::CertificateFault;
use pocsag_words::MemorySink;
use std::alloc::Global;
use std::fmt::Display;
use std::process::Abort;

fn expect_texts<D: Display>(rt: &impl Abort, alloc: Global, rows: &[(D, &str)]) {
    for (fault, text) in rows {
        let told = format!(in alloc; "{fault}").expect(rt, "memory");
        same!(rt; told.as_str(), *text);
    }
}

// The line that reports a refusal.
fn expect_line(rt: &impl Abort, alloc: Global, why: Refusal, text: &str) {
    let line = format!(in alloc; "refused: {text}\n").expect(rt, "memory");
    let mut told = MemorySink::<200>::new(200, u64::MAX);
    assert!(rt; refuse(why, &mut told).is_ok());
    same!(rt; told.bytes(), line.as_bytes());
}

// The texts of what was refused, of status 1, and of what failed, of status 3.
fn expect_failures<F: Failure>(
    rt: &impl Abort,
    alloc: Global,
    refused: &[(F, &str)],
    failed: &[(F, &str)],
) {
    for (status, rows) in [(1, refused), (3, failed)] {
        expect_texts(rt, alloc, rows);
        for (fault, _) in rows {
            same!(rt; fault.status(), status);
        }
    }
}

const TWICE: &str = "the same file is named twice";

const UNKNOWN_KIND: &str = "record 9: unknown kind";

const UNEXPECTED: &str = "pages 2, where 3 were expected";

const UNCLOSED: &str = "record 9: the quote in line 11 is not closed";

const EXPLANATION_FAULTS: [(ExplanationFault, &str); 2] = [
    (ExplanationFault::WriteFault, NO_WRITE),
    (ExplanationFault::OutOfMemory, NO_MEMORY),
];

// The fault of a record of a page file.
const BAD_KIND: RoundFault = RoundFault::Record(9, RecordFault::Field(FieldFault::BadKind));

const NO_OWNER: &str = "the new file cannot be given the owner, group and mode of the old one";

const REFUSED_FILES: [(FileFault, &str); 2] = [
    (FileFault::EqualPaths, TWICE),
    (FileFault::TooLarge, TOO_LARGE),
];

const FAILED_FILES: [(FileFault, &str); 4] = [
    (FileFault::Device, NO_READ),
    (FileFault::Write, NO_WRITE),
    (FileFault::Owner, NO_OWNER),
    (FileFault::OutOfMemory, NO_MEMORY),
];

#[test]
fn files(rt: HostRuntime) {
    expect_failures(&rt, rt.alloc(), &REFUSED_FILES, &FAILED_FILES);
}

#[test]
fn quotes(rt: HostRuntime) {
    let (number, line) = (9, 11);
    let faults = [
        (QuoteFault::Unclosed { number, line }, UNCLOSED),
        (
            QuoteFault::Inside { number, line },
            "record 9: the quote in line 11 stands inside a field that begins without one",
        ),
        (
            QuoteFault::Followed { number, line },
            "record 9: text follows the closing quote in line 11",
        ),
    ];
    expect_texts(&rt, rt.alloc(), &faults);
}

#[test]
fn centre(rt: HostRuntime) {
    let quote = QuoteFault::Unclosed {
        number: 9,
        line: 11,
    };
    let refused = [
        (CentreFault::File(FileFault::EqualPaths), TWICE),
        (CentreFault::Round(BAD_KIND), UNKNOWN_KIND),
        (CentreFault::Round(RoundFault::TooLarge), TOO_LARGE),
        (CentreFault::Quotes(quote), UNCLOSED),
        (CentreFault::Unexpected(2, 3), UNEXPECTED),
        (CentreFault::BadLimit, BAD_LIMIT),
        (CentreFault::SearchLimit(2, 3), LIMIT_REACHED),
        (CentreFault::FirstPage(2), "page 1 needs 2 batches"),
        (CentreFault::BadRate, BAD_RATE),
        (
            CentreFault::Certificate(CertificateFault::NotCertificate),
            "not a certificate",
        ),
        (CentreFault::Transmission(DecodeFault::Truncated), CUT_SHORT),
        (
            CentreFault::NotThePages,
            "the transmission does not hold the pages of the page file",
        ),
        (
            CentreFault::NotTheEnd,
            "the transmission does not end as was asked for",
        ),
        (
            CentreFault::NotTheBound,
            "the certificate does not show the batches of the transmission",
        ),
    ];
    let failed = [
        (CentreFault::File(FileFault::Write), NO_WRITE),
        (CentreFault::Round(RoundFault::ReadFault), NO_READ),
        (CentreFault::Round(RoundFault::OutOfMemory), NO_MEMORY),
        (
            CentreFault::Certificate(CertificateFault::ReadFault),
            NO_READ,
        ),
        (
            CentreFault::Certificate(CertificateFault::OutOfMemory),
            NO_MEMORY,
        ),
        (
            CentreFault::Transmission(DecodeFault::OutOfMemory),
            NO_MEMORY,
        ),
    ];
    expect_failures(&rt, rt.alloc(), &refused, &failed);
}

#[test]
fn sound(rt: HostRuntime) {
    let preamble = "the preamble must have 576 bits or more, a multiple of 8";
    let samples = "the samples a second must be from the rate to 192000";
    let refused = [
        (SoundFault::BadRate, BAD_RATE),
        (SoundFault::BadSamples, samples),
        (SoundFault::BadPreamble, preamble),
        (SoundFault::File(FileFault::TooLarge), TOO_LARGE),
        (SoundFault::Transmission(DecodeFault::Truncated), CUT_SHORT),
        (SoundFault::TooLong, "the sound is too long for a WAV file"),
    ];
    let failed = [(SoundFault::File(FileFault::Write), NO_WRITE)];
    expect_failures(&rt, rt.alloc(), &refused, &failed);
}

// The fault where a transmission of so many batches has none of these rows.
fn no_such_rows(rt: &impl Abort, first: u64, last: u64, batches: u64) -> ReceiverFault {
    ReceiverFault::NoSuchRows {
        rows: Rows::new(first, last).expect(rt, "rows"),
        batches,
    }
}

#[test]
fn receiver(rt: HostRuntime) {
    let refused = [
        (ReceiverFault::File(FileFault::TooLarge), TOO_LARGE),
        (
            ReceiverFault::Transmission(DecodeFault::Truncated),
            CUT_SHORT,
        ),
        (ReceiverFault::Pager(PagerFault::BadAddress), "bad address"),
        (
            ReceiverFault::Capture(CaptureFault::TooLarge),
            "the capture is too large",
        ),
        (
            ReceiverFault::Capture(CaptureFault::NoSuchTransmission { nth: 3, found: 2 }),
            "transmission 3 of 2: the capture has no such transmission",
        ),
        (
            no_such_rows(&rt, 2, 2, 1),
            "rows 2: the transmission has 1 batch",
        ),
        (
            no_such_rows(&rt, 3, 7, 2),
            "rows 3-7: the transmission has 2 batches",
        ),
        (
            no_such_rows(&rt, 12, u64::MAX, 11),
            "rows 12-: the transmission has 11 batches",
        ),
    ];
    let failed = [
        (ReceiverFault::File(FileFault::Device), NO_READ),
        (
            ReceiverFault::Transmission(DecodeFault::OutOfMemory),
            NO_MEMORY,
        ),
        (ReceiverFault::Pager(PagerFault::OutOfMemory), NO_MEMORY),
        (ReceiverFault::Capture(CaptureFault::OutOfMemory), NO_MEMORY),
    ];
    expect_failures(&rt, rt.alloc(), &refused, &failed);
}

#[test]
fn journals(rt: HostRuntime) {
    let faults = [
        (JournalFault::ReadFault, "cannot read the journal"),
        (JournalFault::WriteFault, "cannot write the journal"),
        (JournalFault::TooLarge, "the journal is too large"),
        (JournalFault::NotJournal, "not a journal"),
        (JournalFault::OtherVersion, "a journal of another version"),
        (
            JournalFault::BadLine(3),
            "journal line 3: no edit that the pages before it accept",
        ),
        (
            JournalFault::NoLine(2),
            "page 2: no line of a journal holds its message",
        ),
        (JournalFault::OutOfMemory, NO_MEMORY),
    ];
    expect_texts(&rt, rt.alloc(), &faults);
}

#[test]
fn open_rounds(rt: HostRuntime) {
    let refused = [
        (OpenFault::File(FileFault::EqualPaths), TWICE),
        (OpenFault::Round(BAD_KIND), UNKNOWN_KIND),
        (
            OpenFault::Quotes(QuoteFault::Unclosed { number: 1, line: 2 }),
            "record 1: the quote in line 2 is not closed",
        ),
        (OpenFault::Unexpected(2, 3), UNEXPECTED),
        (
            OpenFault::HeldByAnother,
            "another program holds the journal",
        ),
        (
            OpenFault::HoldsEdits,
            "the journal holds edits, so the round cannot begin with PAGES",
        ),
        (
            OpenFault::Journal(JournalFault::NotJournal),
            "not a journal",
        ),
    ];
    let failed = [
        (OpenFault::File(FileFault::Device), NO_READ),
        (
            OpenFault::NotHeld,
            "the journal was moved, deleted or changed by another program",
        ),
        (OpenFault::Round(RoundFault::ReadFault), NO_READ),
        (OpenFault::Round(RoundFault::OutOfMemory), NO_MEMORY),
        (
            OpenFault::Journal(JournalFault::ReadFault),
            "cannot read the journal",
        ),
        (
            OpenFault::Journal(JournalFault::WriteFault),
            "cannot write the journal",
        ),
        (OpenFault::Journal(JournalFault::OutOfMemory), NO_MEMORY),
    ];
    expect_failures(&rt, rt.alloc(), &refused, &failed);
}

const FIELD_FAULTS: [(FieldFault, &str); 8] = [
    (FieldFault::BadAddress, "bad address"),
    (FieldFault::ReservedAddress, "reserved address"),
    (FieldFault::BadKind, "unknown kind"),
    (FieldFault::MessageForTone, "a tone page has no message"),
    (FieldFault::EmptyMessage, "the message is empty"),
    (FieldFault::BadCharacter(7), "bad character at 7"),
    (FieldFault::TooLong, "the message is too long"),
    (FieldFault::OutOfMemory, NO_MEMORY),
];

const UNDONE: [(UndoneFault, &str); 4] = [
    (UndoneFault::NoPages, NO_PAGES),
    (
        UndoneFault::SearchLimit { least: 2, found: 3 },
        LIMIT_REACHED,
    ),
    (UndoneFault::FirstPage(2), "page 1 needs 2 batches"),
    (UndoneFault::OutOfMemory, NO_MEMORY),
];

const REFUSALS: [(Refusal, &str); 8] = [
    (Refusal::Unknown, "unknown edit"),
    (Refusal::InQuotes, "the line ends inside quotes"),
    (Refusal::StrayQuote, "a quote is out of place"),
    (
        Refusal::Add(AddFault::Page(PageFault::BadPayload)),
        "bad payload",
    ),
    (Refusal::Add(AddFault::DuplicateAddress), IS_THERE),
    (Refusal::Add(AddFault::Full), "too many pages"),
    (Refusal::Add(AddFault::OutOfMemory), NO_MEMORY),
    (Refusal::Cancel(NotThere), "no such page"),
];

fn expect_undone(rt: &impl Abort, alloc: Global, fault: UndoneFault, text: &str) {
    expect_texts(rt, alloc, &[(fault, text)]);
    expect_line(rt, alloc, Refusal::Undone(fault), text);
}

#[test]
fn refusals(rt: HostRuntime) {
    let alloc = rt.alloc();
    expect_texts(&rt, alloc, &EXPLANATION_FAULTS);
    for (fault, text) in UNDONE {
        expect_undone(&rt, alloc, fault, text);
    }
    for (fault, text) in REFUSED_FILES {
        expect_undone(&rt, alloc, UndoneFault::File(fault), text);
    }
    for (fault, text) in FAILED_FILES {
        expect_undone(&rt, alloc, UndoneFault::File(fault), text);
    }
    for (fault, text) in FIELD_FAULTS {
        expect_line(&rt, alloc, Refusal::Field(fault), text);
    }
    for (why, text) in REFUSALS {
        expect_line(&rt, alloc, why, text);
    }
}
