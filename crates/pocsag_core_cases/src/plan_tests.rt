//! Plans of worked examples, as calls and as streams.
use crate::given::{ONES, Records, Sent, TIGHT, cut, page_file, round_of_file, transmission};
use crate::same;
use pocsag_branch::SearchLimit;
use pocsag_check::{check, check_open};
use pocsag_pages::{Round, RoundFault};
use pocsag_plan::{
    BadRate, OnLimit, PlanFault, Search, StreamFault, bounded_plan, plan, plan_stream,
    plan_stream_always, report,
};
use pocsag_tree::{nodes, read_certificate};
use pocsag_words::{End, MemorySink, MemorySource, OutOfMemory};
use std::alloc::Global;
use std::process::Abort;
use std::test::Fail;

const ONE_TONE: Records = &[("8,tone0,", 0)];

const LOOPS_APART: Records = &[("0,numeric,", 75), ("3,numeric,", 75)];

const EXACT: Records = &[("0,numeric,", 25), ("3,numeric,", 45)];

const THREE_TIGHT: Records = &[("0,numeric,", 25), ("3,numeric,", 45), ("11,numeric,", 75)];

// Rounds with their codewords, and by end the fewest batches and those in file order.
const PLANNED: &[(Records, u32, &[(End, u32, u32)])] = &[
    (
        ONE_TONE,
        1,
        &[(End::Open, 1, 1), (End::Closed, 1, 1), (End::Idle, 1, 1)],
    ),
    (
        &[("5,tone0,", 0), ("13,tone0,", 0), ("21,tone0,", 0)],
        3,
        &[(End::Open, 2, 2)],
    ),
    (LOOPS_APART, 32, &[(End::Open, 3, 3)]),
    (
        EXACT,
        16,
        &[(End::Open, 1, 1), (End::Closed, 2, 1), (End::Idle, 2, 1)],
    ),
    (THREE_TIGHT, 32, &[(End::Open, 2, 3)]),
    (
        &[("7,numeric,12345", 0), ("15,numeric,12345", 0)],
        4,
        &[(End::Open, 2, 2)],
    ),
    (
        &[("7,numeric,", 241)],
        50,
        &[(End::Open, 4, 4), (End::Closed, 5, 4)],
    ),
    (
        &[("0,numeric,", 65), ("7,tone0,", 0), ("15,numeric,", 80)],
        32,
        &[(End::Closed, 2, 2)],
    ),
    (
        &[
            ("0,numeric,", 65),
            ("7,tone0,", 0),
            ("15,numeric,", 10),
            ("1,numeric,", 65),
        ],
        32,
        &[(End::Open, 2, 2), (End::Closed, 3, 2), (End::Idle, 3, 2)],
    ),
];

// Rounds with a limit of nodes within which `plan` refuses, and the batches and the bound of the plan that is
// never refused.
const LIMITED: &[(Records, u32, u32, u32)] = &[
    (LOOPS_APART, 1, 3, 2),
    // Each tree of the promised shape has at least 354,623 nodes.
    (
        &[
            ("5,numeric,", 20),
            ("8,numeric,", 40),
            ("20,numeric,", 40),
            ("25,numeric,", 10),
            ("39,numeric,", 150),
            ("46,numeric,", 70),
            ("50,numeric,", 150),
            ("57,numeric,", 70),
        ],
        1_000,
        9,
        9,
    ),
];

fn always(limit: u32, end: End) -> Search {
    Search {
        limit,
        end,
        on_limit: OnLimit::Always,
    }
}

// The codewords, the fewest batches, those in file order, and whether the tree proves the fewest.
fn fewest(alloc: Global, round: &Round, end: End) -> Result<(u32, u32, u32, bool), PlanFault> {
    let plan = plan(alloc, round, 100_000, end)?;
    let is_proved = check(round, plan.batches, &plan.tree, end);
    Ok((plan.codewords, plan.batches, plan.in_order, is_proved))
}

// Between which batches a search stopped, after how many nodes, and whether its tree proves the least.
type Stop = (u32, u32, u64, bool);

fn stop_of(round: &Round, stopped: &Option<SearchLimit>, end: End) -> Option<Stop> {
    let Some(stop) = stopped else {
        return None;
    };
    let is_proved = check_open(round, stop.found, &stop.tree, end);
    Some((stop.least, stop.found, nodes(&stop.tree), is_proved))
}

// The batches, the bound, whether the tree proves the bound, and where the search stopped.
type BoundedPlan = (u32, u32, bool, Option<Stop>);

fn bounded(alloc: Global, round: &Round, search: Search) -> Result<BoundedPlan, PlanFault> {
    let told = bounded_plan(alloc, round, search)?;
    let is_proved = check(round, told.bound, &told.plan.tree, search.end);
    let stop = stop_of(round, &told.stopped, search.end);
    Ok((told.plan.batches, told.bound, is_proved, stop))
}

#[test]
fn plans(rt: HostRuntime) -> Result<(), Fail> {
    let alloc = rt.alloc();
    for (records, codewords, ends) in PLANNED {
        let round = round_of_file(alloc, records)?;
        for (end, batches, in_order) in *ends {
            let told = fewest(alloc, &round, *end)?;
            same!(rt; told, (*codewords, *batches, *in_order, true), records);
            let told = bounded(alloc, &round, always(100_000, *end))?;
            same!(rt; told, (*batches, *batches, true, None), records);
        }
    }
    Ok(())
}

// The batches of a plan, or between which batches its search stopped, or nothing where the limit is bad.
type Answer = Option<Result<u32, (u32, u32)>>;

fn answer(alloc: Global, round: &Round, limit: u32) -> Result<Answer, OutOfMemory> {
    match plan(alloc, round, limit, End::Open) {
        Ok(plan) => Ok(Some(Ok(plan.batches))),
        Err(PlanFault::SearchLimit(stop)) => Ok(Some(Err((stop.least, stop.found)))),
        Err(PlanFault::BadLimit) => Ok(None),
        Err(PlanFault::OutOfMemory) => Err(OutOfMemory),
    }
}

#[test]
fn plans_within_a_limit(rt: HostRuntime) -> Result<(), Fail> {
    let alloc = rt.alloc();
    for (records, limit, batches, bound) in LIMITED {
        let round = round_of_file(alloc, records)?;
        let is_stopped = matches!(answer(alloc, &round, *limit), Ok(Some(Err(_))));
        same!(rt; is_stopped, true, records);
        let told = bounded(alloc, &round, always(*limit, End::Open))?;
        let stop = if bound < batches {
            Some((*bound, *batches, u64::from(*limit), true))
        } else {
            None
        };
        same!(rt; told, (*batches, *bound, true, stop), records);
    }
    Ok(())
}

// Limits of nodes for `LOOPS_APART`, with what `plan` answers.
const ANSWERS: &[(u32, Answer)] = &[
    (0, None),
    (1_000_001, None),
    (2, Some(Err((2, 3)))),
    (3, Some(Ok(3))),
];

// Rates, with the airtime of `THREE_TIGHT` where the rate is one.
const AIRTIMES: &[(u32, Option<u64>)] = &[
    (512, Some(3250)),
    (1200, Some(1387)),
    (2400, Some(694)),
    (1201, None),
];

const REPORT: &str =
    "pages 3\ncodewords 32\nin_order 3\nbatches 2\nidles 0\nbits 1664\nairtime_ms 1387\n";

fn expect_reports(rt: &impl Abort, alloc: Global, tight: &Round) -> Result<(), Fail> {
    let plan = plan(alloc, tight, 100_000, End::Open)?;
    for (rate, due) in AIRTIMES {
        let airtime = match report(&plan, *rate) {
            Ok(report) => Some(report.airtime_ms),
            Err(BadRate) => None,
        };
        same!(rt; airtime, *due, rate);
    }
    let report = report(&plan, 1200)?;
    let text = format!(in alloc; "{report}")?;
    same!(rt; text.as_str(), REPORT);
    Ok(())
}

fn expect_answers(rt: &impl Abort, alloc: Global) -> Result<(), Fail> {
    let round = round_of_file(alloc, LOOPS_APART)?;
    for (limit, due) in ANSWERS {
        same!(rt; answer(alloc, &round, *limit), Ok(*due), limit);
        let bounded = bounded_plan(alloc, &round, always(*limit, End::Open));
        let is_bad = matches!(bounded, Err(PlanFault::BadLimit));
        same!(rt; is_bad, due.is_none(), limit);
    }
    Ok(())
}

#[test]
fn limits_and_reports(rt: HostRuntime) -> Result<(), Fail> {
    let alloc = rt.alloc();
    expect_answers(&rt, alloc)?;
    let tight = round_of_file(alloc, THREE_TIGHT)?;
    expect_reports(&rt, alloc, &tight)
}

// How a page file is streamed: within which limit of nodes, whether always, how many bytes are read and written
// at a time, and after how many bytes the source, the transmission and the certificate fail.
#[derive(Clone, Copy)]
struct Way {
    limit: u32,
    is_always: bool,
    step: usize,
    read: u64,
    sent: u64,
    certified: u64,
}

const AMPLE: Way = Way {
    limit: 100_000,
    is_always: false,
    step: 64,
    read: u64::MAX,
    sent: u64::MAX,
    certified: u64::MAX,
};

// What was answered, the batches and the bound, and what was written.
#[derive(Drop)]
pub(crate) struct Streamed {
    pub(crate) answer: Result<(u32, u32), StreamFault>,
    pub(crate) tx: MemorySink<400>,
    pub(crate) cert: MemorySink<100>,
}

fn stream(alloc: Global, records: Records, way: Way) -> Result<Streamed, OutOfMemory> {
    let file = page_file(alloc, records)?;
    let step = way.step.max(1);
    let mut source = MemorySource::new(file.as_slice(), step, way.read);
    let mut tx = MemorySink::<400>::new(step, way.sent);
    let mut cert = MemorySink::<100>::new(step, way.certified);
    let answer = if way.is_always {
        plan_stream_always(alloc, &mut source, &mut tx, &mut cert, way.limit, End::Open).map(
            |bounded| (bounded.plan.batches, bounded.bound),
        )
    } else {
        plan_stream(alloc, &mut source, &mut tx, &mut cert, way.limit, End::Open).map(|plan| (
            plan.batches,
            plan.batches,
        ))
    };
    Ok(Streamed { answer, tx, cert })
}

const fn in_steps(step: usize) -> Way {
    Way { step, ..AMPLE }
}

// A round, how it is streamed, the batches and the bound, and the only transmission, where there is one.
type StreamCase = (Records, Way, u32, u32, Option<Sent>);

const EXACT_SENT: Sent = (16, ONES, &[(0, 0), (6, 0)]);

// The batches of a certificate, and whether it proves that the round takes so many.
fn certified(alloc: Global, bytes: &[u8], records: Records) -> Result<(u32, bool), Fail> {
    let read = read_certificate(alloc, &mut MemorySource::new(bytes, 7, u64::MAX))?;
    let round = round_of_file(alloc, records)?;
    let is_proved = check(&round, read.batches, &read.tree, read.end);
    Ok((read.batches, is_proved))
}

fn expect_streamed(rt: &impl Abort, alloc: Global, case: &StreamCase) -> Result<(), Fail> {
    let (records, way, batches, bound, sent) = case;
    let streamed = stream(alloc, records, *way)?;
    let told = match &streamed.answer {
        Ok(told) => Some(*told),
        Err(_) => None,
    };
    let bytes = streamed.tx.bytes();
    same!(rt; told, Some((*batches, *bound)), records);
    same!(rt; bytes.len(), 72 + 68 * *batches as usize, records);
    let certified = certified(alloc, streamed.cert.bytes(), records)?;
    same!(rt; certified, (*bound, true), records);
    if let Some(sent) = sent {
        same!(rt; bytes, transmission(alloc, *sent)?.as_slice(), sent);
    }
    Ok(())
}

#[test]
fn streams(rt: HostRuntime) -> Result<(), Fail> {
    let alloc = rt.alloc();
    for (step, is_always) in [(1, false), (400, false), (9, true)] {
        let way = Way {
            step,
            is_always,
            ..AMPLE
        };
        expect_streamed(&rt, alloc, &(EXACT, way, 1, 1, Some(EXACT_SENT)))?;
        expect_streamed(&rt, alloc, &(THREE_TIGHT, way, 2, 2, Some(TIGHT)))?;
    }
    let way = Way {
        limit: 1,
        is_always: true,
        ..in_steps(9)
    };
    expect_streamed(&rt, alloc, &(LOOPS_APART, way, 3, 2, None))
}

fn expect_unwritten(rt: &impl Abort, alloc: Global, limit: u32, read: u64) -> Result<(), Fail> {
    let way = Way {
        limit,
        read,
        ..AMPLE
    };
    let told = stream(alloc, ONE_TONE, way)?;
    match told.answer {
        Err(StreamFault::Plan(PlanFault::BadLimit)) => same!(rt; limit, 0),
        Err(StreamFault::Round(RoundFault::ReadFault)) => same!(rt; limit, 100_000),
        _ => assert!(rt; false, "{limit} {read}"),
    }
    assert!(rt; told.tx.bytes().is_empty() && told.cert.bytes().is_empty());
    Ok(())
}

#[test]
fn streams_that_write_nothing(rt: HostRuntime) -> Result<(), Fail> {
    let alloc = rt.alloc();
    expect_unwritten(&rt, alloc, 0, u64::MAX)?;
    expect_unwritten(&rt, alloc, 100_000, 0)?;
    expect_unwritten(&rt, alloc, 100_000, 20)
}

// Streams one tone to a transmission or a certificate that fails after so many bytes.
fn expect_cut(rt: &impl Abort, alloc: Global, whole: &Streamed, way: Way) -> Result<(), Fail> {
    let told = stream(alloc, ONE_TONE, way)?;
    let (is_due, certified) = match told.answer {
        Err(StreamFault::Transmission(_)) => (way.sent < 140, 0),
        Err(StreamFault::Certificate(_)) => (way.sent >= 140, way.certified as usize),
        _ => (false, 0),
    };
    same!(rt; is_due, true, (way.sent, way.certified));
    same!(rt; told.tx.bytes(), cut(whole.tx.bytes(), way.sent as usize));
    same!(rt; told.cert.bytes(), cut(whole.cert.bytes(), certified));
    Ok(())
}

#[test]
fn streams_that_fail(rt: HostRuntime) -> Result<(), Fail> {
    let alloc = rt.alloc();
    let whole = stream(alloc, ONE_TONE, AMPLE)?;
    same!(rt; whole.tx.bytes().len(), 140);
    for sent in 0..140 {
        expect_cut(
            &rt,
            alloc,
            &whole,
            Way {
                sent,
                ..in_steps(5)
            },
        )?;
    }
    for certified in 0..whole.cert.bytes().len() as u64 {
        expect_cut(
            &rt,
            alloc,
            &whole,
            Way {
                certified,
                ..in_steps(5)
            },
        )?;
    }
    Ok(())
}
