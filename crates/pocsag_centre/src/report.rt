ghost use Rattle.std.specs.Prelude.{◌≡◌, ◌++◌, [], IfErr, IfOk, IsFalse, IsTrue, OnOk};
ghost use Rattle.std.specs.List.{flat_map};
ghost use Rattle.pocsag_words.specs.Devices.{CountsFailures};
ghost use Rattle.pocsag_plan.specs.Frames.{HasClasses};
ghost use Rattle.pocsag_plan.specs.Reports.{report_text};
ghost use Rattle.pocsag_shell.specs.Runs.{IsAnswerOf, Ran};
ghost use Rattle.pocsag_centre.specs.Lines.{below_text};
ghost use Rattle.pocsag_centre.specs.Reports.{AreByRoom, frame_text};
ghost use Rattle.pocsag_centre.specs.Works.{reports};

use crate::fault::CentreFault;
use crate::lines::print_below;
use crate::plan::{RoundPlan, read_plan};
use pocsag_plan::{FrameRoom, Report, Search, frames_of, report};
use pocsag_shell::{CommandAnswer, ErrorStream, FileFault, print_answer, print_numbers};
use pocsag_words::{GrowingSink, OutOfMemory, Sink, Source};
use std::alloc::Global;

/// What a report is asked for.
#[derive(Clone, Copy)]
pub struct ReportAsked {
    /// Bits a second.
    pub rate: u32,
    pub search: Search,
    /// Whether the frames are reported too.
    pub frames: bool,
}

/// `report PAGES --rate R`: reports what the plan of a page file takes on the air at a rate, and its bound where
/// that is below the batches; with `--frames` then a line for each frame, the least room first. Returns the exit status.
pub fn run_report<P: Source, O: Sink, E: Sink + Drop>(
    alloc: Global,
    asked: ReportAsked,
    pages: &mut P,
    out: &mut O,
    err: &mut ErrorStream<CentreFault, E>,
) -> u8
    ensures ran { Ran (reports P.Source asked pages.old pages.new) O.Sink E.Sink
        result out.old out.new err.old err.new }
{
    print_answer(answer_report(alloc, asked, pages), out, err)
}

// What `report` answers.
fn answer_report<P: Source>(
    alloc: Global,
    asked: ReportAsked,
    pages: &mut P,
) -> Result<CommandAnswer, CentreFault>
    ensures answers { IsAnswerOf (reports P.Source asked pages.old pages.new) result }
{
    let found = read_plan(alloc, pages, asked.search)?;
    let report = match report(&found.bounded.plan, asked.rate) {
        Ok(report) => report,
        Err(_) => return Err(CentreFault::BadRate),
    };
    let rooms = match rooms_asked(alloc, &found, asked.frames) {
        Ok(rooms) => rooms,
        Err(_) => return Err(CentreFault::File(FileFault::OutOfMemory)),
    };
    let mut text = GrowingSink::new(alloc);
    match print_frames(report, found.bounded.bound, rooms.as_slice(), &mut text) {
        Ok(()) => Ok(CommandAnswer {
            status: 0,
            text: text.into_bytes(),
        }),
        Err(_) => Err(CentreFault::File(FileFault::OutOfMemory)),
    }
}

// The frames of the plan, the least room first, where they are asked for.
fn rooms_asked(
    alloc: Global,
    found: &RoundPlan,
    frames: bool,
) -> Result<Vec<FrameRoom>, OutOfMemory>
    requires { HasClasses found.now.bounded.plan.steps.items }
    ensures none { IsFalse frames → IfOk result (λ rooms. rooms.items ≡ []) }
    ensures all { IsTrue frames → IfOk result (λ rooms.
        AreByRoom found.now.round found.now.bounded.plan.steps.items rooms.items) }
{
    if !frames {
        return Ok(Vec::new(alloc));
    }
    let by_number = frames_of(&found.round, found.bounded.plan.steps.as_slice());
    let mut rooms = Vec::from_slice(alloc, &by_number)?;
    rooms.sort_by_key(|room| room.room)?;
    Ok(rooms)
}

/// Prints a report, and the bound where it is below the batches.
#[tactic(auto, using(crate::proofs::ReportLines::report_numbered))]
pub(crate) fn print_report<O: Sink>(
    report: Report,
    bound: u32,
    out: &mut O,
) -> Result<(), FileFault>
    ensures printed { O.is_known → OnOk result
        (O.taken out.new ≡ O.taken out.old ++ report_text report ++ below_text report.batches bound) }
    ensures lost { IfErr result (λ e. e ≡ FileFault.Write) }
    ensures failures { CountsFailures result (O.failures out.old) (O.failures out.new) }
{
    let numbers = [
        ("pages ", report.pages as u64),
        ("\ncodewords ", report.codewords as u64),
        ("\nin_order ", report.in_order as u64),
        ("\nbatches ", report.batches as u64),
        ("\nidles ", report.idles),
        ("\nbits ", report.bits),
        ("\nairtime_ms ", report.airtime_ms),
    ];
    print_numbers(out, &numbers, "\n")?;
    print_below(report.batches, bound, out)
}

// The same, and a line for each frame.
fn print_frames<O: Sink>(
    report: Report,
    bound: u32,
    rooms: &[FrameRoom],
    out: &mut O,
) -> Result<(), FileFault>
    ensures printed { O.is_known → OnOk result (O.taken out.new ≡ O.taken out.old ++ report_text report
        ++ below_text report.batches bound ++ flat_map frame_text rooms.now) }
    ensures lost { IfErr result (λ e. e ≡ FileFault.Write) }
    ensures failures { CountsFailures result (O.failures out.old) (O.failures out.new) }
{
    print_report(report, bound, out)?;
    for room in rooms {
        print_frame(room, out)?;
    }
    Ok(())
}

#[tactic(auto, unfolding(crate::specs::Reports::frame_text))]
fn print_frame<O: Sink>(room: &FrameRoom, out: &mut O) -> Result<(), FileFault>
    ensures printed { O.is_known → OnOk result (O.taken out.new ≡ O.taken out.old ++ frame_text room.now) }
    ensures lost { IfErr result (λ e. e ≡ FileFault.Write) }
    ensures failures { CountsFailures result (O.failures out.old) (O.failures out.new) }
{
    let numbers = [
        ("frame ", room.frame as u64),
        (" pages ", room.pages as u64),
        (" codewords ", room.codewords),
        (" room ", room.room),
    ];
    print_numbers(out, &numbers, "\n")
}
