//! Open rounds over memory: what answers each line, and the exit status.

use crate::outputs::OutputFolder;
use crate::same;
use pocsag_open::{LINE_LIMIT, PlanSettings, run_open, run_open_pages};
use pocsag_plan::OnLimit;
use pocsag_shell::{Failure, print_fault};
use pocsag_words::{MemorySink, MemorySource};
use std::alloc::Global;
use std::process::Abort;
use std::test::Fail;

const PAGES: &[u8] = b"address,kind,message\n8,tone0,\n16,numeric,12\n";

const TWICE: &[u8] = b"address,kind,message\n8,tone0,\n8,tone0,\n";

// The page file of an open round, if there is one, and after how many bytes it, the input and the output fail.
#[derive(Clone, Copy)]
struct Beginning {
    pages: Option<&'static [u8]>,
    on_limit: OnLimit,
    read: u64,
    asked: u64,
    answered: u64,
}

const EMPTY: Beginning = Beginning {
    pages: None,
    on_limit: OnLimit::Fewest,
    read: u64::MAX,
    asked: u64::MAX,
    answered: u64::MAX,
};

const TWO_PAGES: Beginning = Beginning {
    pages: Some(PAGES),
    ..EMPTY
};

// The exit status, once a fault is reported.
fn status_after<F: Failure>(done: Result<(), F>, err: &mut MemorySink<100>) -> u8 {
    match done {
        Ok(()) => 0,
        Err(fault) => print_fault(err, fault),
    }
}

// Runs an open round on these lines, and compares its status, its answers and its fault.
fn assert_answers<R: Abort>(
    rt: &R,
    alloc: Global,
    beginning: Beginning,
    lines: &[u8],
    due: (u8, &[u8], &[u8]),
) -> Result<(), Fail> {
    let settings = &mut PlanSettings {
        store: OutputFolder { makes: true },
        on_limit: beginning.on_limit,
    };
    let mut input = MemorySource::new(lines, 7, beginning.asked);
    let mut out = MemorySink::<2000>::new(5, beginning.answered);
    let mut err = MemorySink::<100>::new(1, 1000);
    let status = match beginning.pages {
        Some(file) => {
            let mut pages = MemorySource::new(file, 4, beginning.read);
            let done = run_open_pages(alloc, settings, &mut pages, &mut input, &mut out);
            status_after(done, &mut err)
        }
        None => status_after(run_open(alloc, settings, &mut input, &mut out), &mut err),
    };
    let (ended, answers, told) = due;
    same!(rt; out.bytes(), answers);
    same!(rt; err.bytes(), told);
    same!(rt; status, ended);
    Ok(())
}

// Each line and its answer, or the next line.
type Lines = &'static [(&'static str, &'static str)];

const EDITS: Lines = &[
    ("list", "address,kind,message\nok 0"),
    ("add,8,tone0,", "ok 1"),
    ("add,16,alpha,\"Ward 3, \"\"bed\"\" 2\"", "ok 2"),
    ("add,0000024,numeric,17-U", "ok 3"),
    (
        "list",
        "address,kind,message\n8,tone0,\n16,alpha,\"Ward 3, \"\"bed\"\" 2\"\n24,numeric,17-U\nok 3",
    ),
    ("cancel,8", "ok 2"),
    ("add,8,tone3,", "ok 3"),
    ("cancel,16\r", "ok 2"),
    ("\"cancel\",\"24\"", "ok 1"),
    ("\u{feff}\"add\",\"24\",numeric,\"17-U\"\r", "ok 2"),
    (
        "list",
        "address,kind,message\n8,tone3,\n24,numeric,17-U\nok 2",
    ),
    ("clear", "ok 0"),
    ("list", "address,kind,message\nok 0"),
];

// Spaces at the end of a numeric message are listed where they take codewords of their own, and then as few as take them.
const SPACES: Lines = &[
    ("add,0,numeric,   ", "ok 1"),
    ("add,8,numeric,12   ", "ok 2"),
    ("add,16,numeric,12    ", "ok 3"),
    ("add,24,numeric,12345      ", "ok 4"),
    ("add,32,alpha,A  ", "ok 5"),
    (
        "list",
        "address,kind,message\n0,numeric, \n8,numeric,12\n16,numeric,12    \n24,numeric,12345      \n32,alpha,A  \nok 5",
    ),
];

const IN_QUOTES: &str = "refused: the line ends inside quotes";

const STRAY_QUOTE: &str = "refused: a quote is out of place";

const REFUSALS: Lines = &[
    ("add,8,tone0,", "ok 1"),
    ("add,8,tone1,", "refused: the address is already there"),
    (
        "add,0000008,tone1,",
        "refused: the address is already there",
    ),
    ("add,2097152,tone0,", "refused: bad address"),
    ("add,+7,tone0,", "refused: bad address"),
    ("add,2007664,tone0,", "refused: reserved address"),
    ("add,9,fax,", "refused: unknown kind"),
    ("add,9,tone0,1", "refused: a tone page has no message"),
    ("add,9,numeric,", "refused: the message is empty"),
    ("add,9,numeric,12a", "refused: bad character at 2"),
    ("cancel,9", "refused: no such page"),
    ("cancel,+8", "refused: no such page"),
    ("", "refused: unknown edit"),
    ("add,9,tone0", "refused: unknown edit"),
    ("add,9,tone0,,", "refused: unknown edit"),
    ("cancel", "refused: unknown edit"),
    ("List", "refused: unknown edit"),
    ("list,", "refused: unknown edit"),
    ("list\rlist", "refused: unknown edit"),
    ("clear\r\r", "refused: unknown edit"),
    // Calls that were cut at the line feeds of their messages: each line is refused.
    ("add,9,alpha,\"Fire, hall B", IN_QUOTES),
    ("evacuate ward 3\"", STRAY_QUOTE),
    ("add,9,alpha,\"Pump 4\r", IN_QUOTES),
    ("\"clear", IN_QUOTES),
    ("add,9,alpha,\"Say \"\"no\"\"", IN_QUOTES),
    ("add,9,alpha,5\" pipe", STRAY_QUOTE),
    ("add,9,alpha,\"Ward\" 3", STRAY_QUOTE),
    ("add,9,alpha,\"Ward\"\r3", STRAY_QUOTE),
    ("add,9,alpha,a\"b,\"c", STRAY_QUOTE),
    ("plan,tx.bin", "refused: unknown edit"),
    ("plan,tx.bin,cert.bin,soon", "refused: unknown edit"),
    ("list", "address,kind,message\n8,tone0,\nok 1"),
];

const PLANS: Lines = &[
    ("plan,tx.bin,cert.bin", "refused: there are no pages"),
    ("add,5,tone0,", "ok 1"),
    ("plan,tx.bin,cert.bin", "batches 1"),
    ("plan,tx.bin,cert.bin,open", "batches 1"),
    ("add,13,tone0,", "ok 2"),
    ("add,21,tone0,", "ok 3"),
    ("plan,tx.bin,cert.bin,closed", "batches 2"),
    ("plan,tx.bin,cert.bin,idle", "batches 2"),
    (
        "plan,tx.bin,tx.bin",
        "refused: the same file is named twice",
    ),
    ("plan,none,cert.bin", "refused: cannot read or open a file"),
    ("plan,tx.bin,none", "refused: cannot read or open a file"),
    ("plan,full,cert.bin", "refused: cannot write"),
    ("plan,tx.bin,full", "refused: cannot write"),
    ("plan,there,cert.bin", "refused: cannot write"),
    (
        "list",
        "address,kind,message\n5,tone0,\n13,tone0,\n21,tone0,\nok 3",
    ),
    // A batch carries two pages of a tone in one frame.
    ("plan,tx.bin,cert.bin,open,0", "refused: unknown edit"),
    ("plan,full,cert.bin,open,1", "refused: cannot write"),
    ("plan,tx.bin,cert.bin,open,1", "batches 1, sent 2"),
    ("list", "address,kind,message\n21,tone0,\nok 1"),
    ("sent,2", "refused: no such page"),
    ("sent,1", "ok 0"),
    // Sixteen codewords fill a batch from its first frame on.
    (
        "add,1,numeric,111111111111111111111111111111111111111111111111111111111111111111111111111",
        "ok 1",
    ),
    (
        "plan,tx.bin,cert.bin,open,1",
        "refused: page 1 needs 2 batches",
    ),
    ("plan,tx.bin,cert.bin,open,2", "batches 2, sent 1"),
];

const AFTER_PAGES: Lines = &[
    ("plan,tx.bin,cert.bin", "batches 1"),
    ("plan,full,full", "refused: the same file is named twice"),
    ("cancel,8", "ok 1"),
    ("list", "address,kind,message\n16,numeric,12\nok 1"),
];

const ALWAYS: Beginning = Beginning {
    on_limit: OnLimit::Always,
    ..TWO_PAGES
};

const ROUNDS: &[(Beginning, Lines)] = &[
    (EMPTY, EDITS),
    (EMPTY, SPACES),
    (EMPTY, REFUSALS),
    (EMPTY, PLANS),
    (TWO_PAGES, AFTER_PAGES),
    (ALWAYS, AFTER_PAGES),
];

#[test]
fn lines_are_answered_one_by_one(rt: HostRuntime) -> Result<(), Fail> {
    let alloc = rt.alloc();
    for (beginning, cases) in ROUNDS {
        let (mut lines, mut answers) = (Vec::new(alloc), Vec::new(alloc));
        for (line, answer) in *cases {
            lines.extend_from_slice(line.as_bytes())?;
            lines.push(b'\n')?;
            answers.extend_from_slice(answer.as_bytes())?;
            answers.push(b'\n')?;
        }
        let due = (0, answers.as_slice(), b"".as_slice());
        assert_answers(&rt, alloc, *beginning, lines.as_slice(), due)?;
    }
    Ok(())
}

// A line of the limit is read, and a longer one is passed over up to its end.
#[test]
fn long_lines_are_passed_over(rt: HostRuntime) -> Result<(), Fail> {
    let alloc = rt.alloc();
    let mut lines = Vec::new(alloc);
    lines.extend_from_slice(b"add,8,alpha,")?;
    lines.extend_from_slice(vec![in alloc; b'A'; 4001]?.as_slice())?;
    lines.extend_from_slice(b"\nadd,8,tone0,\n")?;
    for length in [LINE_LIMIT, LINE_LIMIT + 1, 3 * LINE_LIMIT] {
        lines.extend_from_slice(vec![in alloc; b'l'; length]?.as_slice())?;
        lines.extend_from_slice(b"\nlist\n")?;
    }
    lines.extend_from_slice(b"cancel,8")?;
    let answers = b"refused: the message is too long\nok 1\n\
        refused: unknown edit\naddress,kind,message\n8,tone0,\nok 1\n\
        refused: unknown edit\naddress,kind,message\n8,tone0,\nok 1\n\
        refused: unknown edit\naddress,kind,message\n8,tone0,\nok 1\nok 0\n";
    let due = (0, answers.as_slice(), b"".as_slice());
    assert_answers(&rt, alloc, EMPTY, lines.as_slice(), due)
}

// A page file with a fault, a page file, an input and an output that fail in mid-stream.
#[test]
fn faults_end_the_round(rt: HostRuntime) -> Result<(), Fail> {
    let twice = Beginning {
        pages: Some(TWICE),
        ..EMPTY
    };
    let cut_file = Beginning {
        read: 9,
        ..TWO_PAGES
    };
    let cut_input = Beginning {
        asked: 12,
        ..TWO_PAGES
    };
    let cut_output = Beginning {
        answered: 7,
        ..TWO_PAGES
    };
    let is_there = "pocsag: record 2: the address is already there\n";
    let no_read = "pocsag: cannot read or open a file\n";
    let cases = [
        (twice, 1, "", is_there),
        (cut_file, 3, "", no_read),
        (cut_input, 3, "ok 1\n", no_read),
        (cut_output, 3, "ok 1\nok", "pocsag: cannot write\n"),
    ];
    for (beginning, status, answers, told) in cases {
        let due = (status, answers.as_bytes(), told.as_bytes());
        assert_answers(&rt, rt.alloc(), beginning, b"cancel,8\ncancel,16\n", due)?;
    }
    Ok(())
}
