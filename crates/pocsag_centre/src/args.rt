//! What the words of a command ask for.

use crate::words::{
    AIRTIME, AT_MOST, CLOSED_END, DEPTH, EACH_FRAME, END, IDLE_END, IDLE_LAST, JSON, LATER, LIMIT,
    OPEN_END, OVERSIZED, RATE, REST, VERIFY, WHY,
};
use clap::ArgMatches;
use pocsag_findings::Format;
use pocsag_plan::{OnLimit, Search};
use pocsag_shell::{ALWAYS, CERT, EXPECT, KEEP, PAGES, STANDARD, STRICT, SVG, TX, path_of};
use pocsag_words::End;

/// What is asked of the planner, and of the page file.
#[derive(Clone, Copy)]
pub(crate) struct SearchArgs {
    /// How many pages the round must have, if that is given.
    pub(crate) expect: Option<u32>,
    /// Whether a misplaced quote refuses the page file.
    pub(crate) strict: bool,
    /// Whether a page may wait for an earlier one of its address.
    pub(crate) may_wait: bool,
    pub(crate) search: Search,
}

/// What bounds the front of a page file, where one is planned.
#[derive(Clone, Copy)]
pub(crate) enum FrontLimit {
    /// Nothing: all pages of the round are planned.
    All,
    /// So many batches.
    Batches(u32),
    /// So many milliseconds at a rate.
    Airtime { ms: u32, rate: u32 },
}

/// What `plan` is asked for.
#[derive(Clone, Copy)]
pub(crate) struct PlanArgs<'a> {
    /// The path of the page file.
    pub(crate) pages: Option<&'a str>,
    /// The words for the transmission and for the certificate, of which one may name standard output.
    pub(crate) tx: &'a str,
    pub(crate) cert: &'a str,
    pub(crate) search: SearchArgs,
    /// Whether the files are read back.
    pub(crate) verify: bool,
    /// Whether the old files are kept until all new ones are whole.
    pub(crate) keep: bool,
    /// What bounds the front, where not all pages need to be planned.
    pub(crate) front: Option<FrontLimit>,
    /// The words for the page file of the pages that are left, for that of the pages that are set aside, and for the certificate
    /// of one page more.
    pub(crate) rest: Option<&'a str>,
    pub(crate) oversized: Option<&'a str>,
    pub(crate) why: Option<&'a str>,
}

/// What `report` is asked for.
#[derive(Clone, Copy)]
pub(crate) struct ReportArgs<'a> {
    pub(crate) rate: u32,
    /// Whether the frames are reported too.
    pub(crate) frames: bool,
    /// The plan that is reported, which writes no file. It is one of a front where one is bounded, or where pages are set aside.
    pub(crate) plan: PlanArgs<'a>,
}

fn search_in(found: &ArgMatches<'_>) -> Option<SearchArgs> {
    let on_limit = if found.get_flag(ALWAYS) {
        OnLimit::Always
    } else {
        OnLimit::Fewest
    };
    let end = match found.get_str(END)? {
        _ if found.get_flag(IDLE_LAST) => End::Idle,
        OPEN_END => End::Open,
        CLOSED_END => End::Closed,
        IDLE_END => End::Idle,
        _ => return None,
    };
    Some(SearchArgs {
        expect: found.get_one::<u32>(EXPECT),
        strict: found.get_flag(STRICT),
        may_wait: found.get_flag(LATER),
        search: Search {
            limit: found.get_one::<u32>(LIMIT)?,
            end,
            on_limit,
        },
    })
}

// What bounds the front, where one is asked for.
fn front_in(found: &ArgMatches<'_>) -> Option<FrontLimit> {
    if let Some(batches) = found.get_one::<u32>(AT_MOST) {
        return Some(FrontLimit::Batches(batches));
    }
    let Some(ms) = found.get_one::<u32>(AIRTIME) else {
        return found.get_flag(LATER).then_some(FrontLimit::All);
    };
    let rate = found.get_one::<u32>(RATE)?;
    Some(FrontLimit::Airtime { ms, rate })
}

/// What the words of `plan` or of `report` ask of a plan. `None` if a word is missing, which clap has refused before.
pub(crate) fn plan_args<'a>(found: &ArgMatches<'a>) -> Option<PlanArgs<'a>> {
    Some(PlanArgs {
        pages: path_of(found.get_str(PAGES)?),
        tx: found.get_str(TX).unwrap_or(STANDARD),
        cert: found.get_str(CERT).unwrap_or(STANDARD),
        search: search_in(found)?,
        verify: found.get_flag(VERIFY),
        keep: found.get_flag(KEEP),
        front: front_in(found),
        rest: found.get_str(REST),
        oversized: found.get_str(OVERSIZED),
        why: found.get_str(WHY),
    })
}

/// What the words of `report` ask for.
pub(crate) fn report_args<'a>(found: &ArgMatches<'a>) -> Option<ReportArgs<'a>> {
    let mut plan = plan_args(found)?;
    // It is a flag here.
    plan.oversized = found.get_flag(OVERSIZED).then_some(STANDARD);
    Some(ReportArgs {
        rate: found.get_one::<u32>(RATE)?,
        frames: found.get_flag(EACH_FRAME),
        plan,
    })
}

/// How a certificate is explained, by the words of `explain`. `check` has none of them.
pub(crate) fn wanted_format(found: &ArgMatches<'_>) -> Option<Format> {
    let depth = found.get_one::<u32>(DEPTH)?;
    Some(if found.get_flag(SVG) {
        Format::Drawing
    } else if found.get_flag(JSON) {
        Format::Json(depth)
    } else {
        Format::Lines(depth)
    })
}
