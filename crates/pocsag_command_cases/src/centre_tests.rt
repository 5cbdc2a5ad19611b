//! The commands of a paging centre over memory: what each reports, what it leaves, and its exit status.

use crate::outputs::errors;
use crate::same;
use pocsag_centre::{
    CentreFault, FrontAsked, FrontFiles, PlanFiles, ReportAsked, WrittenFront, expected_file,
    run_check, run_front, run_input, run_plan, run_report, run_verify, run_verify_front,
    strict_file,
};
use pocsag_pages::{FieldFault, QuoteFault, RecordFault, RoundFault};
use pocsag_plan::{DEFAULT_LIMIT, OnLimit, Search};
use pocsag_shell::{ErrorStream, LoadedFile};
use pocsag_words::{End, GrowingSink, MemorySink, MemorySource, SliceSource, Source};
use std::alloc::Global;
use std::process::Abort;
use std::test::Fail;

const LONE_TONE: &[u8] = b"address,kind,message\n8,tone0,\n";

const OTHER_TONE: &[u8] = b"address,kind,message\n16,tone0,\n";

const BAD_FILE: &[u8] = b"address,kind,message\n7,numeric,12a\n";

// The worked example `loops-apart`: fewer than three batches are refuted by the third node of the search.
const LOOPS_APART: &[u8] = b"address,kind,message\n\
    0,numeric,111111111111111111111111111111111111111111111111111111111111111111111111111\n\
    3,numeric,111111111111111111111111111111111111111111111111111111111111111111111111111";

// The worked example `one-full-batch`: its message goes on to the end of the transmission.
const ONE_FULL_BATCH: &[u8] = b"address,kind,message\n\
    0,numeric,111111111111111111111111111111111111111111111111111111111111111111111111111";

// A tone for each slot of a batch.
const SIXTEEN_TONES: &[u8] = b"address,kind,message\n\
    0,tone0,\n1,tone0,\n2,tone0,\n3,tone0,\n4,tone0,\n5,tone0,\n6,tone0,\n7,tone0,\n\
    8,tone0,\n9,tone0,\n10,tone0,\n11,tone0,\n12,tone0,\n13,tone0,\n14,tone0,\n15,tone0,\n";

const OPEN: Search = Search {
    limit: DEFAULT_LIMIT,
    end: End::Open,
    on_limit: OnLimit::Fewest,
};

const CLOSED: Search = Search {
    end: End::Closed,
    ..OPEN
};

const IDLE_LAST: Search = Search {
    end: End::Idle,
    ..OPEN
};

const OPEN_ALWAYS: Search = Search {
    on_limit: OnLimit::Always,
    ..OPEN
};

const CLOSED_ALWAYS: Search = Search {
    on_limit: OnLimit::Always,
    ..CLOSED
};

// What is found within one node, and within three, in any case.
const TO_ONE: Search = Search {
    limit: 1,
    ..OPEN_ALWAYS
};

const TO_THREE: Search = Search {
    limit: 3,
    ..OPEN_ALWAYS
};

// What a command answered and reported.
#[derive(Drop)]
struct Printed {
    status: u8,
    out: MemorySink<500>,
    err: ErrorStream<CentreFault, MemorySink<100>>,
}

// The same of a plan, and what its two files took.
#[derive(Drop)]
struct Planned {
    told: Printed,
    tx: MemorySink<300>,
    cert: MemorySink<100>,
}

// After how many bytes the page file and the two outputs fail.
#[derive(Clone, Copy)]
struct Faults {
    pages: u64,
    tx: u64,
    cert: u64,
}

const SOUND: Faults = Faults {
    pages: 1000,
    tx: 1000,
    cert: 1000,
};

fn plan(alloc: Global, search: Search, file: &[u8], faults: Faults) -> Planned {
    let mut files = PlanFiles {
        pages: MemorySource::new(file, 4, faults.pages),
        tx: MemorySink::<300>::new(9, faults.tx),
        cert: MemorySink::<100>::new(3, faults.cert),
    };
    let mut out = MemorySink::<500>::new(1, 1000);
    let mut err = errors();
    let status = run_plan(alloc, search, &mut files, &mut out, &mut err);
    Planned {
        told: Printed { status, out, err },
        tx: files.tx,
        cert: files.cert,
    }
}

// A plan that is asked for, what it reports, the length of its transmission, and the last byte of the number in
// its certificate.
#[derive(Clone, Copy)]
struct PlanCase {
    file: &'static [u8],
    search: Search,
    faults: Faults,
    status: u8,
    out: &'static str,
    err: &'static str,
    sent: usize,
    bound: Option<u8>,
}

const LONE_PLAN: PlanCase = PlanCase {
    file: LONE_TONE,
    search: OPEN,
    faults: SOUND,
    status: 0,
    out: "pages 1\nbatches 1\n",
    err: "",
    sent: 140,
    bound: Some(1),
};

// The worked example, answered in any case.
const APART_PLAN: PlanCase = PlanCase {
    file: LOOPS_APART,
    sent: 72 + 3 * 68,
    ..LONE_PLAN
};

const REFUSED_PLAN: PlanCase = PlanCase {
    search: TO_NINE,
    status: 3,
    out: "",
    err: NO_WRITE,
    bound: None,
    ..LONE_PLAN
};

const NO_PAGE: Faults = Faults { pages: 10, ..SOUND };

const CUT_SENDING: Faults = Faults { tx: 100, ..SOUND };

const CUT_CERTIFICATE: Faults = Faults { cert: 5, ..SOUND };

const TO_NONE: Search = Search { limit: 0, ..OPEN };

const TO_NINE: Search = Search { limit: 9, ..OPEN };

const NO_READ: &str = "pocsag: cannot read or open a file\n";

const NO_WRITE: &str = "pocsag: cannot write\n";

const BAD_LIMIT: &str = "pocsag: the limit must be 1 to 1000000\n";

const PLANS: &[PlanCase] = &[
    LONE_PLAN,
    PlanCase {
        search: CLOSED,
        ..LONE_PLAN
    },
    PlanCase {
        search: TO_ONE,
        out: "pages 2\nbatches 3\nat least 2 batches\n",
        bound: Some(2),
        ..APART_PLAN
    },
    PlanCase {
        search: TO_THREE,
        out: "pages 2\nbatches 3\n",
        bound: Some(3),
        ..APART_PLAN
    },
    PlanCase {
        search: TO_NONE,
        status: 1,
        err: BAD_LIMIT,
        sent: 0,
        ..REFUSED_PLAN
    },
    PlanCase {
        faults: NO_PAGE,
        err: NO_READ,
        sent: 0,
        ..REFUSED_PLAN
    },
    PlanCase {
        faults: CUT_SENDING,
        sent: 100,
        ..REFUSED_PLAN
    },
    PlanCase {
        faults: CUT_CERTIFICATE,
        ..REFUSED_PLAN
    },
];

#[test]
fn plans_are_told(rt: HostRuntime) {
    for case in PLANS {
        let planned = plan(rt.alloc(), case.search, case.file, case.faults);
        same!(rt; planned.told.status, case.status);
        same!(rt; planned.told.out.bytes(), case.out.as_bytes());
        same!(rt; planned.told.err.stream().bytes(), case.err.as_bytes());
        same!(rt; planned.tx.bytes().len(), case.sent);
        same!(rt; planned.cert.bytes().get(8).copied(), case.bound);
    }
}

// A command that reads files, and what its words ask for: of a report the rate, the search, and whether it lists the frames.
#[derive(Clone, Copy)]
enum Command {
    Input,
    Check,
    Verify(Search),
    Report(u32, Search, bool),
}

// Runs a command on the page file and on what was planned.
fn run(alloc: Global, command: Command, file: &[u8], planned: &Planned) -> Printed {
    let mut pages = MemorySource::new(file, 4, 1000);
    let tx = MemorySource::new(planned.tx.bytes(), 4, 1000);
    let mut cert = MemorySource::new(planned.cert.bytes(), 4, 1000);
    let mut out = MemorySink::<500>::new(1, 1000);
    let mut err = errors();
    let status = match command {
        Command::Input => run_input(alloc, &mut pages, &mut out, &mut err),
        Command::Check => run_check(alloc, &mut pages, &mut cert, &mut out, &mut err),
        Command::Verify(search) => {
            let mut files = PlanFiles { pages, tx, cert };
            run_verify(alloc, search, &mut files, &mut out, &mut err)
        }
        Command::Report(rate, search, frames) => {
            let asked = ReportAsked {
                rate,
                search,
                frames,
            };
            run_report(alloc, asked, &mut pages, &mut out, &mut err)
        }
    };
    Printed { status, out, err }
}

const LONE_REPORT: &str =
    "pages 1\ncodewords 1\nin_order 1\nbatches 1\nidles 15\nbits 1120\nairtime_ms 934\n";

// The one page stands in frame 0, whose other slot is idle.
const LONE_FRAMES: &str =
    "pages 1\ncodewords 1\nin_order 1\nbatches 1\nidles 15\nbits 1120\nairtime_ms 934\n\
    frame 0 pages 1 codewords 1 room 1\n\
    frame 1 pages 0 codewords 0 room 2\n\
    frame 2 pages 0 codewords 0 room 2\n\
    frame 3 pages 0 codewords 0 room 2\n\
    frame 4 pages 0 codewords 0 room 2\n\
    frame 5 pages 0 codewords 0 room 2\n\
    frame 6 pages 0 codewords 0 room 2\n\
    frame 7 pages 0 codewords 0 room 2\n";

const APART_REPORT: &str =
    "pages 2\ncodewords 32\nin_order 3\nbatches 3\nidles 16\nbits 2208\nairtime_ms 1840\n";

const APART_REPORT_BELOW: &str =
    "pages 2\ncodewords 32\nin_order 3\nbatches 3\nidles 16\nbits 2208\nairtime_ms 1840\nat least 2 batches\n";

const NOT_THE_PAGES: &str = "pocsag: the transmission does not hold the pages of the page file\n";

const NOT_THE_END: &str = "pocsag: the transmission does not end as was asked for\n";

const NOT_THE_BOUND: &str =
    "pocsag: the certificate does not show the batches of the transmission\n";

const BAD_CHARACTER: &str = "pocsag: record 1: bad character at 2\n";

const BAD_RATE: &str = "pocsag: the rate must be 512, 1200 or 2400\n";

const VERIFIED: &str = "verified\n";

const CLOSED_BATCH: &str = "at least 1 batches with a closed end\n";

const IDLE_BATCH: &str = "at least 1 batches with an idle last\n";

// A command, and its status with what it reports.
type ReadCase = (Command, (u8, &'static str, &'static str));

// A page file and how it is planned; the page file that the commands are given, and what they report.
type PlannedCase = (&'static [u8], Search, &'static [u8], &'static [ReadCase]);

// A certificate for one end is none for the other.
const TONES_READ: &[PlannedCase] = &[
    (
        LONE_TONE,
        OPEN,
        LONE_TONE,
        &[
            (Command::Input, (0, "pages 1\nbatches 1\n", "")),
            (Command::Check, (0, "at least 1 batches\n", "")),
            (Command::Report(1200, CLOSED, false), (0, LONE_REPORT, "")),
            (Command::Report(1201, OPEN, false), (1, "", BAD_RATE)),
            (Command::Report(1200, OPEN, true), (0, LONE_FRAMES, "")),
            (Command::Report(1201, OPEN, true), (1, "", BAD_RATE)),
            (Command::Verify(OPEN), (0, VERIFIED, "")),
            (Command::Verify(CLOSED_ALWAYS), (1, "", NOT_THE_BOUND)),
        ],
    ),
    (
        LONE_TONE,
        CLOSED,
        LONE_TONE,
        &[
            (Command::Check, (0, CLOSED_BATCH, "")),
            (Command::Verify(CLOSED), (0, VERIFIED, "")),
            (Command::Verify(OPEN), (1, "", NOT_THE_BOUND)),
            (Command::Verify(IDLE_LAST), (1, "", NOT_THE_BOUND)),
        ],
    ),
    (
        LONE_TONE,
        IDLE_LAST,
        LONE_TONE,
        &[(Command::Check, (0, IDLE_BATCH, ""))],
    ),
    (
        LONE_TONE,
        OPEN,
        BAD_FILE,
        &[(Command::Input, (1, "", BAD_CHARACTER))],
    ),
    (
        LONE_TONE,
        OPEN,
        OTHER_TONE,
        &[(Command::Verify(OPEN), (1, "", NOT_THE_PAGES))],
    ),
];

// With `--always` alone may the certificate be for one batch less than those that were sent. A lone tone stands in one batch, so
// three are not shown.
const ROUNDS_READ: &[PlannedCase] = &[
    (
        ONE_FULL_BATCH,
        OPEN,
        ONE_FULL_BATCH,
        &[(Command::Verify(CLOSED), (1, "", NOT_THE_END))],
    ),
    (
        SIXTEEN_TONES,
        IDLE_LAST,
        SIXTEEN_TONES,
        &[(Command::Verify(IDLE_LAST), (0, VERIFIED, ""))],
    ),
    (
        SIXTEEN_TONES,
        CLOSED,
        SIXTEEN_TONES,
        &[(Command::Verify(IDLE_LAST), (1, "", NOT_THE_END))],
    ),
    (
        LOOPS_APART,
        TO_ONE,
        LOOPS_APART,
        &[
            (
                Command::Report(1200, TO_ONE, false),
                (0, APART_REPORT_BELOW, ""),
            ),
            (Command::Verify(OPEN), (1, "", NOT_THE_BOUND)),
            (Command::Verify(OPEN_ALWAYS), (0, VERIFIED, "")),
        ],
    ),
    (
        LOOPS_APART,
        TO_THREE,
        LOOPS_APART,
        &[
            (
                Command::Report(1200, TO_THREE, false),
                (0, APART_REPORT, ""),
            ),
            (Command::Verify(OPEN), (0, VERIFIED, "")),
            (Command::Verify(OPEN_ALWAYS), (0, VERIFIED, "")),
        ],
    ),
    (
        LOOPS_APART,
        TO_THREE,
        LONE_TONE,
        &[(Command::Check, (1, "not shown\n", ""))],
    ),
];

// Plans a round and runs commands that read what was written beside a page file.
fn expect_read(rt: &impl Abort, alloc: Global, case: &PlannedCase) {
    let (planned_file, search, file, cases) = *case;
    let planned = plan(alloc, search, planned_file, SOUND);
    same!(rt; planned.told.status, 0);
    for (command, (status, out, err)) in cases {
        let told = run(alloc, *command, file, &planned);
        same!(rt; told.status, *status);
        same!(rt; told.out.bytes(), out.as_bytes());
        same!(rt; told.err.stream().bytes(), err.as_bytes());
    }
}

#[test]
fn what_was_planned_is_read(rt: HostRuntime) {
    for cases in [TONES_READ, ROUNDS_READ] {
        for case in cases {
            expect_read(&rt, rt.alloc(), case);
        }
    }
}

// A round, how it is planned, how many bytes its transmission has, and what is reported.
type LentCase = (&'static [u8], Search, usize, &'static str);

const LENT: &[LentCase] = &[
    (LONE_TONE, OPEN, 72 + 68, "pages 1\nbatches 1\n"),
    (SIXTEEN_TONES, CLOSED, 72 + 68, "pages 16\nbatches 1\n"),
    // An idle codeword behind sixteen others needs a second batch.
    (
        SIXTEEN_TONES,
        IDLE_LAST,
        72 + 2 * 68,
        "pages 16\nbatches 2\n",
    ),
    (
        LOOPS_APART,
        TO_ONE,
        72 + 3 * 68,
        "pages 2\nbatches 3\nat least 2 batches\n",
    ),
];

// The transmission and the certificate of a file that is lent, whose plan is reported so.
fn lent_plan(
    rt: &impl Abort,
    alloc: Global,
    file: &[u8],
    search: Search,
    lines: &[u8],
) -> (Vec<u8>, Vec<u8>) {
    let mut files = PlanFiles {
        pages: SliceSource::new(file),
        tx: GrowingSink::new(alloc),
        cert: GrowingSink::new(alloc),
    };
    let (mut out, mut err) = (MemorySink::<500>::new(1, 1000), errors());
    same!(rt; run_plan(alloc, search, &mut files, &mut out, &mut err), 0);
    same!(rt; err.fault(), None);
    same!(rt; out.bytes(), lines);
    let left = files.pages.lent().map(|rest| rest.len());
    same!(rt; left, Some(file.len()));
    (files.tx.into_bytes(), files.cert.into_bytes())
}

// A source that lends its bytes is judged where it stands, and the outputs are those of one that is read piece by piece.
#[test]
fn lent_files_are_planned_and_verified(rt: HostRuntime) {
    for (file, search, sent, lines) in LENT {
        let (tx, cert) = lent_plan(&rt, rt.alloc(), file, *search, lines.as_bytes());
        let read = plan(rt.alloc(), *search, file, SOUND);
        same!(rt; tx.len(), *sent);
        same!(rt; tx.as_slice(), read.tx.bytes());
        same!(rt; cert.as_slice(), read.cert.bytes());
        let mut back = PlanFiles {
            pages: SliceSource::new(file),
            tx: SliceSource::new(tx.as_slice()),
            cert: SliceSource::new(cert.as_slice()),
        };
        let (mut out, mut err) = (MemorySink::<500>::new(1, 1000), errors());
        let status = run_verify(rt.alloc(), *search, &mut back, &mut out, &mut err);
        same!(rt; status, 0);
    }
}

// A file behind whose first bytes the system refused to read on fails there, and is not planned as if it ended there.
#[test]
fn cut_files_are_refused(rt: HostRuntime) -> Result<(), Fail> {
    let alloc = rt.alloc();
    let read_fault = CentreFault::Round(RoundFault::ReadFault);
    for (is_cut, status, fault) in [(true, 3, Some(read_fault)), (false, 0, None)] {
        let mut pages = LoadedFile::new(alloc, LONE_TONE.to_vec(alloc)?, is_cut);
        let (mut out, mut err) = (MemorySink::<500>::new(1, 1000), errors());
        let done = run_input(alloc, &mut pages, &mut out, &mut err);
        same!(rt; done, status);
        same!(rt; err.fault(), fault);
    }
    Ok(())
}

#[test]
fn cut_files_are_read_to_the_cut(rt: HostRuntime) -> Result<(), Fail> {
    let alloc = rt.alloc();
    let mut pages = LoadedFile::new(alloc, LONE_TONE.to_vec(alloc)?, true);
    let mut piece = [0u8; 40];
    same!(rt; pages.read(&mut piece).ok(), Some(30));
    same!(rt; piece.get(..30), Some(LONE_TONE));
    same!(rt; pages.read(&mut piece).ok(), None);
    Ok(())
}

// What a front reported, and its files.
fn front<P: Source + Drop>(
    alloc: Global,
    asked: FrontAsked,
    pages: P,
) -> (Printed, FrontFiles<P, GrowingSink>) {
    let mut files = FrontFiles {
        pages,
        tx: GrowingSink::new(alloc),
        cert: GrowingSink::new(alloc),
        rest: GrowingSink::new(alloc),
        aside: GrowingSink::new(alloc),
        why: GrowingSink::new(alloc),
        count: 0,
    };
    let (mut out, mut err) = (MemorySink::<500>::new(1, 1000), errors());
    let status = run_front(alloc, asked, &mut files, &mut out, &mut err);
    (Printed { status, out, err }, files)
}

const fn front_of(batches: u32) -> FrontAsked {
    FrontAsked {
        batches,
        may_wait: false,
        sets_aside: false,
        expect: None,
        search: OPEN,
    }
}

// A front that is asked for: the batches, what is reported, the length of the transmission, whether no page is left, and the
// status and the output of a plan of the pages that are left.
type FrontCase = (u32, &'static str, usize, bool, u8, &'static str);

const FRONTS: &[FrontCase] = &[
    (
        2,
        "pages 1\nbatches 1\nleft 1\n",
        72 + 68,
        false,
        0,
        "pages 1\nbatches 2\n",
    ),
    (3, "pages 2\nbatches 3\nleft 0\n", 72 + 3 * 68, true, 1, ""),
];

// The first page of `loops-apart` alone takes a batch, and both take three. Sixteen codewords from slot 6 on end in a second
// batch.
#[test]
fn fronts_are_written(rt: HostRuntime) {
    for (batches, lines, sent, is_all, status, second) in FRONTS {
        let pages = SliceSource::new(LOOPS_APART);
        let (told, files) = front(rt.alloc(), front_of(*batches), pages);
        same!(rt; told.status, 0);
        same!(rt; told.out.bytes(), lines.as_bytes());
        same!(rt; files.tx.into_bytes().len(), *sent);
        same!(rt; files.aside.into_bytes().len(), 0);
        same!(rt; files.why.into_bytes().is_empty(), *is_all);
        let rest = files.rest.into_bytes();
        let mut left = SliceSource::new(rest.as_slice());
        let (mut out, mut err) = (MemorySink::<100>::new(1, 1000), errors());
        same!(rt; run_input(rt.alloc(), &mut left, &mut out, &mut err), *status);
        same!(rt; out.bytes(), second.as_bytes());
    }
}

// A front of another number of pages than is expected is refused before the first of them is judged, and then one without
// room for the first.
#[test]
fn fronts_are_refused(rt: HostRuntime) {
    let counted = FrontAsked {
        expect: Some(3),
        ..front_of(0)
    };
    for (asked, fault, line) in [
        (
            counted,
            CentreFault::Unexpected(2, 3),
            "pocsag: pages 2, where 3 were expected\n",
        ),
        (
            front_of(0),
            CentreFault::FirstPage(1),
            "pocsag: page 1 needs 1 batches\n",
        ),
    ] {
        let (told, files) = front(rt.alloc(), asked, SliceSource::new(LOOPS_APART));
        same!(rt; (told.status, told.err.fault()), (1, Some(fault)));
        same!(rt; told.err.stream().bytes(), line.as_bytes());
        same!(rt; files.tx.into_bytes().len(), 0);
        same!(rt; files.rest.into_bytes().len(), 0);
    }
}

// Two pages for one address: the first is sent, and the second waits.
const QUEUE: &[u8] = b"address,kind,message\n8,tone0,\n8,tone1,\n16,tone2,\n";

#[test]
fn later_pages_wait(rt: HostRuntime) -> Result<(), Fail> {
    let alloc = rt.alloc();
    let asked = FrontAsked {
        may_wait: true,
        expect: Some(3),
        ..front_of(9)
    };
    let queue = LoadedFile::new(alloc, QUEUE.to_vec(alloc)?, false);
    let (told, files) = front(alloc, asked, queue);
    same!(rt; told.status, 0);
    same!(rt; told.out.bytes(), b"pages 2\nbatches 1\nleft 1\n".as_slice());
    let rest = b"address,kind,message\n8,tone1,\n".as_slice();
    same!(rt; files.rest.into_bytes().as_slice(), rest);
    let (tx, cert) = (files.tx.into_bytes(), files.cert.into_bytes());
    let again = CentreFault::Round(RoundFault::Record(2, RecordFault::DuplicateAddress));
    same!(rt; expected_file(alloc, true, QUEUE, 3), Ok(()));
    same!(rt; expected_file(alloc, false, QUEUE, 3), Err(again));
    for (count, status) in [(2, 0), (1, 1), (0, 1), (3, 0)] {
        let mut back = PlanFiles {
            pages: SliceSource::new(QUEUE),
            tx: SliceSource::new(tx.as_slice()),
            cert: SliceSource::new(cert.as_slice()),
        };
        let sent = WrittenFront { asked, count };
        let (mut out, mut err) = (MemorySink::<500>::new(1, 1000), errors());
        let told = run_verify_front(alloc, sent, &mut back, &mut out, &mut err);
        same!(rt; told, status, count);
    }
    Ok(())
}

// The batches of a front that sets pages aside, its status, what it reports, and the pages that are set aside. A page that starts
// in the last frame and has three codewords does not end in its batch.
const OVERSIZED: &[(u32, u8, &str, &str)] = &[
    (
        1,
        0,
        "pages 1\nbatches 1\nleft 0\noversized 1\n",
        "address,kind,message\n15,numeric,1234567890\n",
    ),
    (
        2,
        0,
        "pages 2\nbatches 2\nleft 0\noversized 0\n",
        "address,kind,message\n",
    ),
    (0, 1, "", ""),
];

#[test]
fn oversized_pages_are_set_aside(rt: HostRuntime) {
    let file = b"address,kind,message\n15,numeric,1234567890\n8,tone0,\n".as_slice();
    for (batches, status, lines, due) in OVERSIZED {
        let asked = FrontAsked {
            sets_aside: true,
            ..front_of(*batches)
        };
        let (told, files) = front(rt.alloc(), asked, SliceSource::new(file));
        same!(rt; told.status, *status, batches);
        same!(rt; told.out.bytes(), lines.as_bytes());
        same!(rt; files.aside.into_bytes().as_slice(), due.as_bytes());
    }
}

// What `--strict` and `--expect` refuse.
#[test]
fn page_files_are_refused(rt: HostRuntime) -> Result<(), Fail> {
    let alloc = rt.alloc();
    let unclosed = b"address,kind,message\n8,alpha,\"one\n9,tone0,\n".as_slice();
    let unclosed_quote = CentreFault::Quotes(QuoteFault::Unclosed { number: 1, line: 2 });
    let bad_field = RecordFault::Field(FieldFault::BadCharacter(2));
    let bad_character = CentreFault::Round(RoundFault::Record(1, bad_field));
    same!(rt; strict_file(LONE_TONE), Ok(()));
    same!(rt; strict_file(unclosed), Err(unclosed_quote));
    let cases = [
        (LONE_TONE, 1, Ok(())),
        (LONE_TONE, 3, Err(CentreFault::Unexpected(1, 3))),
        (SIXTEEN_TONES, 16, Ok(())),
        (BAD_FILE, 1, Err(bad_character)),
    ];
    for (file, expected, due) in cases {
        same!(rt; expected_file(alloc, false, file, expected), due);
    }
    Ok(())
}
