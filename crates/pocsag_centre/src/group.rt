use crate::args::{
    FrontLimit, PlanArgs, ReportArgs, SearchArgs, plan_args, report_args, wanted_format,
};
use crate::check::run_check;
use crate::explain::{ExplainFiles, run_explain};
use crate::fault::CentreFault;
use crate::note::{note_file, note_first, quote_asked};
use crate::plan::{DEFAULT_SEARCH, run_input};
use crate::plan_files::{Streams, front_asked, plan_command, refuse_unmet, written};
use crate::report::{ReportAsked, run_report};
use crate::slot::{SlotAsked, run_slot_report};
use crate::words::{
    BAD_SLOT, CHECK, CHECK_COMMAND, EARLY_STRICT, EXPLAIN, EXPLAIN_COMMAND, OVERSIZED, PLAN,
    PLAN_COMMAND, REPORT, REPORT_COMMAND, REST, STRICT_FLAG, WHY,
};
use clap::{ArgMatches, Error};
use pocsag_findings::Format;
use pocsag_shell::{
    CERT, Call, Context, Group, NamedFile, PAGES, PAGES_READ, Role, STANDARD, STRICT, TX, Tables,
    first_asked, is_kept, load_both, load_file, path_of, put_whole,
};
use pocsag_words::Source;
use std::alloc::AllocError;
use std::io::IsTerminal;

// What a person at a terminal sees who gave no words. It is no fault.
const AT_TERMINAL: &str =
    "reading a page file from standard input; 'pocsag --help' tells the commands\n";

// The longest certificate of which the text of `explain` is kept until it is whole.
const KEPT_CERTIFICATE: usize = 4_096;

/// The commands of a paging centre.
#[derive(Clone, Copy)]
pub struct Centre;

impl Group for Centre {
    fn add_to(&self, tables: &mut Tables) -> Result<(), AllocError> {
        tables.words.push(STRICT_FLAG)?;
        tables.commands.push(PLAN_COMMAND)?;
        tables.commands.push(CHECK_COMMAND)?;
        tables.commands.push(REPORT_COMMAND)?;
        tables.commands.push(EXPLAIN_COMMAND)?;
        Ok(())
    }

    fn misplaced(&self, found: &ArgMatches<'_>) -> Option<&'static str> {
        found.get_flag(STRICT).then_some(EARLY_STRICT)
    }

    fn run(&self, context: Context<'_>, call: Call<'_, '_>) -> Option<Result<u8, Error>> {
        let found = call.found;
        let mut streams = Streams::new(context.alloc);
        let done = match call.name {
            None => plan_input(context, found.get_flag(STRICT), &mut streams),
            Some(PLAN) => plan_command(context, plan_args(found)?, &mut streams),
            Some(CHECK | EXPLAIN) => {
                let (pages, cert) = (found.get_str(PAGES)?, found.get_str(CERT)?);
                judge_paths(context, wanted_format(found), pages, cert, &mut streams)
            }
            Some(REPORT) => report_path(context, report_args(found)?, &mut streams),
            _ => return None,
        };
        let fault = done.err().or(streams.err.fault());
        if let Some(role) = fault.and_then(|fault| fault.refused()) {
            context.diagnostics.note_refusal(role);
        }
        Some(Ok(streams.end(context, &files_of(call), done)))
    }
}

// The files of a call, with the words for them. A command that has not all of these words has none for the others.
fn files_of<'a>(call: Call<'a, '_>) -> [NamedFile<'a>; 6] {
    let found = call.found;
    let pages = match call.name {
        None => Some(STANDARD),
        Some(_) => found.get_str(PAGES),
    };
    // A flag of `report` has the name of a file of `plan`.
    let word = |id| match call.name {
        None | Some(REPORT) => None,
        Some(_) => found.get_str(id),
    };
    [
        NamedFile(Role::PageFile, pages),
        NamedFile(Role::Transmission, word(TX)),
        NamedFile(Role::Certificate, word(CERT)),
        NamedFile(Role::Rest, word(REST)),
        NamedFile(Role::Oversized, word(OVERSIZED)),
        NamedFile(Role::Why, word(WHY)),
    ]
}

// Plans the page file of standard input.
fn plan_input(
    context: Context<'_>,
    strict: bool,
    streams: &mut Streams,
) -> Result<u8, CentreFault> {
    if context.rt.stdin().is_terminal() {
        let _ = put_whole(&mut context.err(), AT_TERMINAL.as_bytes());
    }
    let asked = SearchArgs {
        expect: None,
        strict,
        may_wait: false,
        search: DEFAULT_SEARCH,
    };
    let mut pages = load_file(context, Role::PageFile, None, PAGES_READ)?;
    let quote = refuse_unmet(context, None, &pages, asked, false)?;
    let (out, err) = (&mut streams.out, &mut streams.err);
    let status = run_input(context.alloc, &mut pages, out, err);
    note_file(context, None, &pages, quote, streams.err.fault());
    Ok(status)
}

// Judges a certificate, and explains it in the format where there is one; the status is 1 where it does not show its batches.
fn judge_paths(
    context: Context<'_>,
    format: Option<Format>,
    pages: &str,
    cert: &str,
    streams: &mut Streams,
) -> Result<u8, CentreFault> {
    let path = path_of(pages);
    let (pages, cert) = load_both(context, pages, cert)?;
    let quote = quote_asked(context, &pages);
    let (alloc, out, err) = (context.alloc, &mut streams.out, &mut streams.err);
    let in_memory = format.is_none() || is_kept(&cert, KEPT_CERTIFICATE);
    let mut files = ExplainFiles { pages, cert };
    let status = match format {
        None => run_check(alloc, &mut files.pages, &mut files.cert, out, err),
        Some(format) if in_memory => run_explain(alloc, format, &mut files, out, err),
        Some(format) => run_explain(alloc, format, &mut files, &mut context.out(), err),
    };
    note_file(context, path, &files.pages, quote, streams.err.fault());
    if in_memory {
        return Ok(status);
    }
    written(streams, status)
}

// Reports on the plan of a page file.
fn report_path(
    context: Context<'_>,
    args: ReportArgs<'_>,
    streams: &mut Streams,
) -> Result<u8, CentreFault> {
    let ReportArgs { rate, frames, plan } = args;
    if plan.front.is_some() || plan.oversized.is_some() {
        return report_slot(context, rate, plan, streams);
    }
    let mut pages = load_file(context, Role::PageFile, plan.pages, PAGES_READ)?;
    let quote = refuse_unmet(context, plan.pages, &pages, plan.search, false)?;
    let asked = ReportAsked {
        rate,
        search: plan.search.search,
        frames,
    };
    let (out, err) = (&mut streams.out, &mut streams.err);
    let status = run_report(context.alloc, asked, &mut pages, out, err);
    note_file(context, plan.pages, &pages, quote, streams.err.fault());
    Ok(status)
}

// Reports what a plan of the front of a page file would send.
fn report_slot(
    context: Context<'_>,
    rate: u32,
    slot: PlanArgs<'_>,
    streams: &mut Streams,
) -> Result<u8, CentreFault> {
    let limit = slot.front.unwrap_or(FrontLimit::All);
    if slot.oversized.is_some() && matches!(limit, FrontLimit::All) {
        let _ = put_whole(&mut context.err(), BAD_SLOT.as_bytes());
        return Ok(2);
    }
    let front = front_asked(slot, limit)?;
    let mut pages = load_file(context, Role::PageFile, slot.pages, PAGES_READ)?;
    let quote = refuse_unmet(context, slot.pages, &pages, slot.search, true)?;
    let begins = first_asked(context, pages.lent().unwrap_or(&[]));
    let asked = SlotAsked { rate, front };
    let (out, err) = (&mut streams.out, &mut streams.err);
    let status = run_slot_report(context.alloc, asked, &mut pages, out, err);
    let fault = streams.err.fault();
    note_file(context, slot.pages, &pages, quote, fault);
    note_first(context, slot, front, begins, fault);
    Ok(status)
}
