use crate::args::{FrontLimit, PlanArgs};
use crate::fault::CentreFault;
use crate::front::FrontAsked;
use pocsag_pages::{QuoteFault, quote_fault};
use pocsag_shell::{Context, LoadedFile, NamedFile, Role, STANDARD, note_record};
use pocsag_words::Source;

/// The first misplaced quote of a page file, which `--strict` would refuse, where `--verbose` asks for it.
pub(crate) fn quote_asked(context: Context<'_>, pages: &LoadedFile) -> Option<QuoteFault> {
    if !context.diagnostics.is_asked() {
        return None;
    }
    quote_fault(pages.lent()?)
}

/// Keeps a note on a page file that a command was run over: on the record that its fault names, on the limit of the search, or,
/// where it had no fault, on the first misplaced quote.
pub(crate) fn note_file(
    context: Context<'_>,
    path: Option<&str>,
    pages: &LoadedFile,
    quote: Option<QuoteFault>,
    fault: Option<CentreFault>,
) {
    let place = NamedFile(Role::PageFile, Some(path.unwrap_or(STANDARD)));
    match (fault, quote) {
        (Some(CentreFault::Round(fault)), _) => {
            if let Some(file) = pages.lent() {
                note_record(context, place, file, fault);
            }
        }
        (Some(CentreFault::SearchLimit(..)), _) => {
            context.note(format_args!("{place}: --always plans every round"));
        }
        (None, Some(quote)) => context.note(format_args!("{place}: {quote}")),
        _ => {}
    }
}

/// Keeps a note on a first page that does not fit: its line and address, the batches that it needs, and what is allowed.
pub(crate) fn note_first(
    context: Context<'_>,
    args: PlanArgs<'_>,
    asked: FrontAsked,
    begins: Option<String>,
    fault: Option<CentreFault>,
) {
    let (Some(first), Some(CentreFault::FirstPage(needed))) = (begins, fault) else {
        return;
    };
    let place = NamedFile(Role::PageFile, Some(args.pages.unwrap_or(STANDARD)));
    let batches = asked.batches;
    let noun = if needed == 1 { "batch" } else { "batches" };
    match args.front {
        Some(FrontLimit::Airtime { ms, rate }) => context.note(format_args!(
            "{place}: {first} needs {needed} {noun}, allowed are {batches} in {ms} ms at {rate} bit/s"
        )),
        _ => context.note(format_args!(
            "{place}: {first} needs {needed} {noun}, allowed are {batches}"
        )),
    }
}
