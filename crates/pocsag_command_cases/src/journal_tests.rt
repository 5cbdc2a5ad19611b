//! Journals on disks in memory: what they hold once an edit is answered, whichever call fails, and what reading them
//! gives.

use crate::crash_disk::CrashDisk;
use crate::outputs::OutputFolder;
use crate::same;
use pocsag_core_cases::given::{Records, round_of_file};
use pocsag_journal::{Journal, JournalFault, Replayed, first_line, read_journal, text_of_pages};
use pocsag_open::{KeptRound, KeptStreams, OpenFault, PlanSettings, open_kept};
use pocsag_plan::{Book, OnLimit};
use pocsag_shell::FileFault;
use pocsag_words::{MemorySink, MemorySource};
use std::alloc::Global;
use std::process::Abort;
use std::test::Fail;

// What a round leaves: its answers, its disk, and how it ended.
#[derive(Drop)]
struct Left {
    answers: MemorySink<8000>,
    disk: CrashDisk,
    done: Result<(), OpenFault>,
}

// Keeps a round on the disk, from what it holds on.
fn keep(alloc: Global, disk: CrashDisk, lines: &[u8]) -> Left {
    let settings = &mut PlanSettings {
        store: OutputFolder { makes: false },
        on_limit: OnLimit::Fewest,
    };
    let mut round = KeptRound {
        book: Book::new(alloc),
        keeper: Journal::on(disk),
    };
    let mut streams = KeptStreams {
        pages: None::<MemorySource<'_>>,
        input: MemorySource::new(lines, 7, u64::MAX),
        out: MemorySink::<8000>::new(5, u64::MAX),
        err: MemorySink::<200>::new(5, u64::MAX),
    };
    let done = open_kept(alloc, settings, &mut round, &mut streams);
    Left {
        answers: streams.out,
        disk: round.keeper.disk,
        done,
    }
}

// A line, its answer, and whether it is an edit that is accepted.
type Lines = &'static [(&'static str, &'static str, bool)];

const LINES: Lines = &[
    ("add,5,alpha,Ward 3\n", "ok 1\n", true),
    ("add,0000013,tone0,\n", "ok 2\n", true),
    (
        "add,13,tone0,\n",
        "refused: the address is already there\n",
        false,
    ),
    ("cancel,5\n", "ok 1\n", true),
    (
        "plan,tx.bin,cert.bin\n",
        "refused: cannot read or open a file\n",
        false,
    ),
    ("add,21,alpha,\"Bed 2, \"\"now\"\"\"\n", "ok 2\n", true),
    ("cancel,22\n", "refused: no such page\n", false),
    ("sent,3\n", "refused: no such page\n", false),
    ("sent,1\n", "ok 1\n", true),
    (
        "add,29,alpha,\"Fire\n",
        "refused: the line ends inside quotes\n",
        false,
    ),
    ("clear\n", "ok 0\n", true),
    ("pocsag journal,1\n", "ok 0\n", false),
    ("add,8,tone1,\n", "ok 1\n", true),
];

fn joined(alloc: Global, lines: Lines) -> Result<Vec<u8>, Fail> {
    let mut bytes = Vec::new(alloc);
    for (line, _, _) in lines {
        bytes.extend_from_slice(line.as_bytes())?;
    }
    Ok(bytes)
}

// What is due of a disk that takes so many bytes of lines and serves so many calls of `sync`: the answers, what no
// crash takes away, and whether all lines are answered.
#[derive(Drop)]
struct Due {
    answers: Vec<u8>,
    safe: Vec<u8>,
    syncs: u64,
    is_all: bool,
}

fn due_of(alloc: Global, takes: usize, compacts: u64) -> Result<Due, Fail> {
    let mut due = Due {
        answers: Vec::new(alloc),
        safe: first_line().to_vec(alloc)?,
        syncs: 0,
        is_all: true,
    };
    let mut left = takes;
    for (line, answer, is_kept) in LINES {
        if *is_kept {
            if left < line.len() {
                due.is_all = false;
                return Ok(due);
            }
            left -= line.len();
            due.syncs = due.syncs.saturating_add(1);
            if due.syncs > compacts {
                due.is_all = false;
                return Ok(due);
            }
            due.safe.extend_from_slice(line.as_bytes())?;
        }
        due.answers.extend_from_slice(answer.as_bytes())?;
    }
    Ok(due)
}

// Whether the round ended with its input; otherwise the disk failed.
fn is_ended(left: &Left) -> bool {
    match left.done {
        Ok(()) => true,
        Err(fault) => !matches!(fault, OpenFault::File(FileFault::Write)),
    }
}

// Keeps the lines on a disk that takes so many bytes of lines and serves so many calls of `sync`, and compares what is due.
fn expect_due(rt: &impl Abort, alloc: Global, takes: usize, compacts: u64) -> Result<(), Fail> {
    let lines = joined(alloc, LINES)?;
    let due = due_of(alloc, takes, compacts)?;
    let disk = CrashDisk::of(alloc, b"", takes, compacts.saturating_add(1))?;
    let left = keep(alloc, disk, lines.as_slice());
    same!(rt; is_ended(&left), due.is_all);
    same!(rt; left.answers.bytes(), due.answers.as_slice());
    same!(rt; left.disk.left(0)?.as_slice(), due.safe.as_slice());
    same!(rt; left.disk.syncs, due.syncs);
    Ok(())
}

// Each edit that is answered `ok` was written whole and synchronised once, and a refused line never; where the disk
// takes no more bytes, or serves no further call, the round ends without an answer.
#[test]
fn edits_are_kept_before_they_are_answered(rt: HostRuntime) -> Result<(), Fail> {
    let alloc = rt.alloc();
    expect_due(&rt, alloc, usize::MAX, u64::MAX)?;
    for takes in 0..100 {
        expect_due(&rt, alloc, takes, u64::MAX)?;
    }
    for compacts in 0..7 {
        expect_due(&rt, alloc, usize::MAX, compacts)?;
    }
    let lines = joined(alloc, LINES)?;
    let none = keep(alloc, CrashDisk::of(alloc, b"", 1000, 0)?, lines.as_slice());
    same!(rt; is_ended(&none), false);
    same!(rt; none.answers.bytes().len(), 0);
    Ok(())
}

// The bytes of a journal behind its first line, and what is read: how many edits, pages and bytes of a torn end, or
// the fault.
type Read = (&'static str, Result<(usize, usize, usize), JournalFault>);

const READ: &[Read] = &[
    ("", Ok((0, 0, 0))),
    ("add", Ok((0, 0, 3))),
    ("add,8,tone0,\n", Ok((1, 1, 0))),
    ("add,8,tone0,\ncancel,8\nadd,8,tone1,\n", Ok((3, 1, 0))),
    ("add,8,tone0,\nadd,16,tone0,\ncle", Ok((2, 2, 3))),
    ("add,8,tone0,\nadd,16,tone0,\nclear\n", Ok((3, 0, 0))),
    ("add,8,tone0,\nlist\n", Err(JournalFault::BadLine(3))),
    ("add,8,tone0,\nlist\nclear\n", Err(JournalFault::BadLine(3))),
    (
        "add,8,tone0,\nadd,8,tone1,\nclear",
        Err(JournalFault::BadLine(3)),
    ),
    ("add,8,tone0,\r\n", Err(JournalFault::BadLine(2))),
    ("add,8,\"tone0\",\n", Err(JournalFault::BadLine(2))),
    ("add,8,alpha,\"Fire\nclear\n", Err(JournalFault::BadLine(2))),
    ("cancel,8\n", Err(JournalFault::BadLine(2))),
    ("\n", Err(JournalFault::BadLine(2))),
];

fn told(read: Result<Replayed, JournalFault>) -> Result<(usize, usize, usize), JournalFault> {
    let replayed = read?;
    Ok((replayed.edits, replayed.book.len(), replayed.torn))
}

// The same of whole journals.
const WHOLE: &[(&[u8], Result<(usize, usize, usize), JournalFault>)] = &[
    (b"", Ok((0, 0, 0))),
    (b"pocsag journal", Ok((0, 0, 14))),
    (b"pocsag journal,1", Ok((0, 0, 16))),
    (b"pocsag journal,2\n", Err(JournalFault::OtherVersion)),
    (b"pocsag journal,2", Err(JournalFault::OtherVersion)),
    (b"pocsag journal,12", Err(JournalFault::OtherVersion)),
    (b"hello world", Err(JournalFault::NotJournal)),
    (b"pocsag journals", Err(JournalFault::NotJournal)),
    (b"add,8,tone0,\n", Err(JournalFault::NotJournal)),
];

// A torn end is passed over, the first bad line reported, and a first line that is another or torn.
#[test]
fn journals_are_read(rt: HostRuntime) -> Result<(), Fail> {
    let alloc = rt.alloc();
    for (lines, due) in READ {
        let mut bytes = first_line().to_vec(alloc)?;
        bytes.extend_from_slice(lines.as_bytes())?;
        let mut source = MemorySource::new(bytes.as_slice(), 7, u64::MAX);
        same!(rt; told(read_journal(alloc, &mut source)), *due);
        let mut cut = MemorySource::new(bytes.as_slice(), 7, 9);
        same!(rt;
            told(read_journal(alloc, &mut cut)),
            Err(JournalFault::ReadFault)
        );
    }
    Ok(())
}

#[test]
fn first_lines_are_read(rt: HostRuntime) {
    for (bytes, due) in WHOLE {
        let mut source = MemorySource::new(bytes, 7, u64::MAX);
        same!(rt; told(read_journal(rt.alloc(), &mut source)), *due);
    }
}

// The records of a page file, and the journal that is written anew of its pages, or the fault.
const ANEW: &[(Records, Result<&str, JournalFault>)] = &[
    (
        &[
            ("24,tone2,", 0),
            ("8,numeric,5 ", 2),
            ("16,alpha,\"a, \"\"b\"\"\"", 0),
        ],
        Ok("add,24,tone2,\nadd,8,numeric,5 11\nadd,16,alpha,\"a, \"\"b\"\"\"\n"),
    ),
    (
        &[("0,numeric,   ", 0), ("8,numeric,12345      ", 0)],
        Ok("add,0,numeric, \nadd,8,numeric,12345      \n"),
    ),
    (
        &[("8,tone0,", 0), ("16,alpha,\"two\nlines\"", 0)],
        Err(JournalFault::NoLine(2)),
    ),
];

#[test]
fn journals_are_written_anew(rt: HostRuntime) -> Result<(), Fail> {
    let alloc = rt.alloc();
    for (records, due) in ANEW {
        let book = Book::of_round(alloc, &round_of_file(alloc, records)?)?;
        match text_of_pages(alloc, book.pages()) {
            Ok(text) => {
                let (front, lines) = text.as_slice().split_at(first_line().len());
                same!(rt; front, first_line());
                same!(rt; Some(lines), due.ok().map(|it| it.as_bytes()));
            }
            Err(fault) => same!(rt; Some(fault), due.err()),
        }
    }
    Ok(())
}

// So often come and go pages of 4,000 letters, in two lines of 4,022 bytes.
fn long_lines(alloc: Global, times: u32) -> Result<Vec<u8>, Fail> {
    let mut lines = Vec::new(alloc);
    for _ in 0..times {
        lines.extend_from_slice(b"add,8,alpha,")?;
        lines.extend_from_slice(vec![in alloc; b'A'; 4000]?.as_slice())?;
        lines.extend_from_slice(b"\ncancel,8\n")?;
    }
    Ok(lines)
}

// How many calls of `sync` the disk serves; whether the round ends with its input, the calls, and the bytes and what is read
// of the journal.
type LongCase = (u64, bool, u64, usize, (usize, usize, usize));

fn expect_long(rt: &impl Abort, alloc: Global, case: LongCase) -> Result<(), Fail> {
    let (compacts, done, syncs, bytes, read) = case;
    let lines = long_lines(alloc, 300)?;
    let disk = CrashDisk::of(alloc, b"", usize::MAX, compacts)?;
    let left = keep(alloc, disk, lines.as_slice());
    same!(rt; is_ended(&left), done);
    same!(rt; left.disk.syncs, syncs);
    let held = left.disk.left(usize::MAX)?;
    same!(rt; held.len(), bytes);
    let mut source = MemorySource::new(held.as_slice(), 4096, u64::MAX);
    same!(rt; told(read_journal(alloc, &mut source)), Ok(read));
    Ok(())
}

// The journal has more than a megabyte once line 521 is kept, and is written anew; where that fails the round ends, and what
// was kept is there.
#[test]
fn long_journals_are_written_anew(rt: HostRuntime) -> Result<(), Fail> {
    let alloc = rt.alloc();
    expect_long(&rt, alloc, (u64::MAX, true, 600, 160_897, (80, 0, 0)))?;
    expect_long(&rt, alloc, (522, false, 521, 1_049_750, (521, 1, 0)))
}

// A crash leaves whole sectors of so many bytes.
const SECTOR: usize = 8;

const EDITS: [&str; 4] = [
    "add,8,tone0,\n",
    "add,16,tone0,\n",
    "cancel,8\n",
    "sent,1\n",
];

// The pages after one of the edits, each by its address, or none where it is refused.
fn after(alloc: Global, pages: &[u32], edit: usize) -> Result<Option<Vec<u32>>, Fail> {
    let mut later = Vec::new(alloc);
    let added = match edit {
        0 => Some(8),
        1 => Some(16),
        _ => None,
    };
    let taken = match edit {
        2 => Some(8),
        3 => pages.first().copied(),
        _ => None,
    };
    for page in pages {
        if added == Some(*page) {
            return Ok(None);
        }
        if taken != Some(*page) {
            later.push(*page)?;
        }
    }
    if let Some(page) = added {
        later.push(page)?;
        return Ok(Some(later));
    }
    if later.len() == pages.len() {
        return Ok(None);
    }
    Ok(Some(later))
}

// What `list` answers.
fn listing(alloc: Global, pages: &[u32]) -> Result<String, Fail> {
    let mut text = String::new(alloc);
    text.push_str("address,kind,message\n")?;
    for page in pages {
        text.push_str(format!(in alloc; "{page},tone0,\n")?.as_str())?;
    }
    let count = pages.len();
    text.push_str(format!(in alloc; "ok {count}\n")?.as_str())?;
    Ok(text)
}

// Edits that are accepted, their pages, and how many bytes and calls of the disk they take.
#[derive(Drop)]
struct Edited {
    lines: String,
    pages: Vec<u32>,
    edits: u64,
}

// What a crash leaves of the disk, with so many bytes behind those that are safe, is read as one of two listings, and as the
// first where no byte is left behind them.
fn expect_listed(
    rt: &impl Abort,
    alloc: Global,
    disk: &CrashDisk,
    more: usize,
    (first, second): (&[u8], &[u8]),
) -> Result<(), Fail> {
    let bytes = disk.left(more)?;
    let disk = CrashDisk::of(alloc, bytes.as_slice(), usize::MAX, u64::MAX)?;
    let next = keep(alloc, disk, b"list\n");
    let told = next.answers.bytes();
    assert!(rt; told == first || more > 0 && told == second);
    Ok(())
}

// Cuts the last of these edits at each write, and compares what each crash leaves.
fn cut_last<R: Abort>(
    rt: &R,
    alloc: Global,
    before: &Edited,
    line: &str,
    later: &[u32],
) -> Result<(), Fail> {
    let mut lines = before.lines.clone()?;
    lines.push_str(line)?;
    let first = listing(alloc, before.pages.as_slice())?;
    let second = listing(alloc, later)?;
    let listed = (first.as_bytes(), second.as_bytes());
    let written = before.lines.len();
    for (takes, compacts) in [
        (written, u64::MAX),
        (written.saturating_add(line.len() / 2), u64::MAX),
        (usize::MAX, before.edits.saturating_add(1)),
    ] {
        let disk = CrashDisk::of(alloc, b"", takes, compacts)?;
        let cut = keep(alloc, disk, lines.as_bytes());
        same!(rt; is_ended(&cut), false);
        for more in (0..line.len().saturating_add(SECTOR)).step_by(SECTOR) {
            expect_listed(rt, alloc, &cut.disk, more, listed)?;
        }
    }
    Ok(())
}

// Cuts this edit after these, if it is accepted, and adds the run with it to the longer ones.
fn cut_next<R: Abort>(
    rt: &R,
    alloc: Global,
    before: &Edited,
    (edit, line): (usize, &str),
    longer: &mut Vec<Edited>,
) -> Result<(), Fail> {
    if let Some(pages) = after(alloc, before.pages.as_slice(), edit)? {
        cut_last(rt, alloc, before, line, pages.as_slice())?;
        let mut lines = before.lines.clone()?;
        lines.push_str(line)?;
        let edits = before.edits.saturating_add(1);
        longer.push(Edited {
            lines,
            pages,
            edits,
        })?;
    }
    Ok(())
}

// Every run of up to six of the edits that begins with this one. The last edit of each is cut at each write: the next start reads
// the pages after the edits that were answered, or after that one more, whatever a crash left.
fn cut_runs<R: Abort>(rt: &R, alloc: Global, first: (usize, &str)) -> Result<(), Fail> {
    let none = Edited {
        lines: String::new(alloc),
        pages: Vec::new(alloc),
        edits: 0,
    };
    let mut runs = Vec::new(alloc);
    cut_next(rt, alloc, &none, first, &mut runs)?;
    for _ in 0..5 {
        let mut longer = Vec::new(alloc);
        for before in &runs {
            for (edit, line) in EDITS.iter().enumerate() {
                cut_next(rt, alloc, before, (edit, *line), &mut longer)?;
            }
        }
        runs = longer;
    }
    Ok(())
}

#[test]
fn cut_edits_survive(rt: HostRuntime) -> Result<(), Fail> {
    cut_runs(&rt, rt.alloc(), (0, EDITS[0]))
}

#[test]
fn cut_edits_of_another_page_survive(rt: HostRuntime) -> Result<(), Fail> {
    cut_runs(&rt, rt.alloc(), (1, EDITS[1]))
}
