ghost use Rattle.std.specs.Prelude.{◌≡◌, ◌++◌, OnOk};
ghost use Rattle.pocsag_plan.specs.Reports.{report_text};
ghost use Rattle.pocsag_shell.specs.Runs.{IsAnswerOf, Ran};
ghost use Rattle.pocsag_centre.specs.FrontFiles.{others_text};
ghost use Rattle.pocsag_centre.specs.Lines.{below_text};
ghost use Rattle.pocsag_centre.specs.Slots.{reports_slot};

use crate::fault::CentreFault;
use crate::front::{FrontAsked, FrontRead, print_others, read_front};
use crate::report::print_report;
use pocsag_plan::{Report, report};
use pocsag_shell::{CommandAnswer, ErrorStream, FileFault, print_answer};
use pocsag_words::{GrowingSink, Sink, Source};
use std::alloc::Global;

/// What the report of a slot is asked for.
#[derive(Clone, Copy)]
pub struct SlotAsked {
    /// Bits a second.
    pub rate: u32,
    pub front: FrontAsked,
}

/// `report PAGES --rate R --at-most B`: reports what `plan` with `--at-most B` would send, and writes no file: what the
/// transmission of the front takes on the air at a rate, its bound where that is below the batches, how many pages are left, what
/// is shown of one page more, and how many pages are set aside. Faults in order: those of `run_front`, then `BadRate`. Returns
/// the exit status.
pub fn run_slot_report<P: Source, O: Sink, E: Sink + Drop>(
    alloc: Global,
    asked: SlotAsked,
    pages: &mut P,
    out: &mut O,
    err: &mut ErrorStream<CentreFault, E>,
) -> u8
    ensures ran { Ran (reports_slot P.Source asked pages.old pages.new) O.Sink E.Sink
        result out.old out.new err.old err.new }
{
    print_answer(answer_slot(alloc, asked, pages), out, err)
}

// What it answers.
fn answer_slot<P: Source>(
    alloc: Global,
    asked: SlotAsked,
    pages: &mut P,
) -> Result<CommandAnswer, CentreFault>
    ensures answers { IsAnswerOf (reports_slot P.Source asked pages.old pages.new) result }
{
    let read = read_front(alloc, asked.front, pages)?;
    let report = match report(&read.front.bounded.plan, asked.rate) {
        Ok(report) => report,
        Err(_) => return Err(CentreFault::BadRate),
    };
    let mut text = GrowingSink::new(alloc);
    match print_slot(asked.front, &read, report, &mut text) {
        Ok(()) => Ok(CommandAnswer {
            status: 0,
            text: text.into_bytes(),
        }),
        Err(_) => Err(CentreFault::File(FileFault::OutOfMemory)),
    }
}

// Prints the report of a front, and behind it the lines on the other pages.
fn print_slot<O: Sink>(
    asked: FrontAsked,
    read: &FrontRead,
    report: Report,
    out: &mut O,
) -> Result<(), FileFault>
    ensures printed { O.is_known → OnOk result (O.taken out.new ≡ O.taken out.old ++ report_text report
        ++ below_text report.batches read.now.front.bounded.bound
        ++ others_text asked read.now.front read.now.aside.items) }
{
    print_report(report, read.front.bounded.bound, out)?;
    print_others(asked, read, out)
}
