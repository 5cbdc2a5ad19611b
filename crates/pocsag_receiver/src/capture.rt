//! `decode`, `hear` and `show` of a capture: of each transmission that it holds, or of one of them.
ghost use Rattle.std.specs.Prelude.{◌≡◌, ℕ, List, None, IfErr, IfNone, IfSome, OnOk};
ghost use Rattle.pocsag_pages.specs.declared.page.Page.{Page};
ghost use Rattle.pocsag_capture.specs.Bits.{capture_bits};
ghost use Rattle.pocsag_capture.specs.Sent.{HoldsSent};
ghost use Rattle.pocsag_pager.specs.Faults.{address_fault};
ghost use Rattle.pocsag_shell.specs.ErrorStreams.{printed_by};
ghost use Rattle.pocsag_shell.specs.Readers.{over_reader};
ghost use Rattle.pocsag_shell.specs.Runs.{IsStreamOf, Ran};
ghost use Rattle.pocsag_receiver.specs.Captures.{ExplainsCaptured, ListsAmong, ListsWhole};
ghost use Rattle.pocsag_receiver.specs.Works.{lists_capture, shows_capture};

use crate::captured::{CaptureOptions, CaptureRows};
use crate::fault::ReceiverFault;
use crate::form::list_rows;
use crate::show::show_bytes;
use pocsag_capture::{Extracted, ReceptionStats, extract_one, receptions_in};
use pocsag_decode::readings_have_no_fault;
use pocsag_pager::Pager;
use pocsag_shell::{ErrorStream, FileFault, read_transmission};
use pocsag_show::View;
use pocsag_words::{Sink, Source};
use std::alloc::Global;

/// Which pages of a capture are listed and in which form, and how each transmission was received.
#[derive(Drop)]
pub struct CaptureListing {
    pub picking: CaptureOptions,
    pub heard: Vec<ReceptionStats>,
}

/// Which transmission of a capture is shown, counted from 1, and how, and how it was received.
#[derive(Drop)]
pub struct CaptureView {
    pub view: View,
    pub nth: u64,
    pub heard: Vec<ReceptionStats>,
}

// An address that no pager can have is refused, if pages of one are asked for.
fn judge_address(alloc: Global, only: Option<u32>) -> Result<(), ReceiverFault>
    ensures ok { OnOk result (IfSome only (λ a. address_fault a ≡ None)) }
    ensures explained { (capture : List ℕ) → IfErr result (ExplainsCaptured only capture) }
{
    if let Some(address) = only {
        Pager::new(alloc, address)?;
    }
    Ok(())
}

// Lists the pages of all transmissions of a capture, one behind the other, or those of one address.
fn list_captured<T: Source, O: Sink>(
    alloc: Global,
    capture_listing: &mut CaptureListing,
    tx: &mut T,
    out: &mut O,
) -> Result<u8, ReceiverFault>
    ensures streams { IsStreamOf
        (over_reader (lists_capture capture_listing.old.picking capture_listing.new.heard.items)
        T.Source O.Sink tx.old tx.new)
        O.Sink out.old out.new result }
{
    let read = read_transmission(alloc, tx)?;
    let capture = read.as_slice();
    let found = receptions_in(alloc, capture).map_err(ReceiverFault::Capture)?;
    let picking = capture_listing.picking;
    judge_address(alloc, picking.only)?;
    let Ok(mut rows) = CaptureRows::new(alloc, capture, picking.only, found.as_slice()) else {
        return Err(ReceiverFault::File(FileFault::OutOfMemory));
    };
    let names = b"address,kind,message,state\n";
    let listed = list_rows(alloc, picking.form, names, &mut rows, out);
    capture_listing.heard = rows.finish();
    listed?;
    Ok(0)
}

/// `decode TX --capture` and `hear ADDRESS TX --capture`: lists the pages of all transmissions of a capture, one behind the
/// other, or those of one address, each with its state, and says how each transmission was received. Returns the exit status.
pub fn run_list_capture<T: Source, O: Sink, E: Sink + Drop>(
    alloc: Global,
    capture_listing: &mut CaptureListing,
    tx: &mut T,
    out: &mut O,
    err: &mut ErrorStream<ReceiverFault, E>,
) -> u8
    ensures ran { Ran
        (over_reader (lists_capture capture_listing.old.picking capture_listing.new.heard.items)
        T.Source O.Sink tx.old tx.new)
        O.Sink E.Sink result out.old out.new err.old err.new }

    // *Listed as whole*: each page that is listed as whole stands in the capture with all its codewords and one that ends it, each
    // within two bits and in step.
    ensures whole { T.is_known → O.is_known → IfNone (printed_by err.new)
        (ListsWhole (T.held tx.old) capture_listing.old.picking (O.taken out.old) (O.taken out.new)) }

    // *A capture that holds a sent transmission shows its pages*, one behind the other, whatever else it holds.
    ensures sent { T.is_known → O.is_known → (pages : List Page) → HoldsSent (capture_bits (T.held tx.old)) pages →
        IfNone (printed_by err.new) (ListsAmong capture_listing.old.picking pages (O.taken out.old) (O.taken out.new)) }
{
    err.end(list_captured(alloc, capture_listing, tx, out))
}

// Shows one of the transmissions of a capture.
fn show_captured<T: Source, O: Sink>(
    alloc: Global,
    viewing: &mut CaptureView,
    tx: &mut T,
    out: &mut O,
) -> Result<u8, ReceiverFault>
    ensures streams { IsStreamOf
        (over_reader (shows_capture viewing.old.view viewing.old.nth viewing.new.heard.items)
        T.Source O.Sink tx.old tx.new)
        O.Sink out.old out.new result }
{
    let read = read_transmission(alloc, tx)?;
    let capture = read.as_slice();
    readings_have_no_fault();
    let Extracted { bytes, heard } = extract_one(alloc, capture, viewing.nth).map_err(
        ReceiverFault::Capture,
    )?;
    viewing.heard = heard;
    show_bytes(alloc, viewing.view, bytes.as_slice(), out)
}

/// `show TX --capture`: shows one of the transmissions of a capture, and says how it was received. Returns the exit status.
pub fn run_show_capture<T: Source, O: Sink, E: Sink + Drop>(
    alloc: Global,
    viewing: &mut CaptureView,
    tx: &mut T,
    out: &mut O,
    err: &mut ErrorStream<ReceiverFault, E>,
) -> u8
    ensures ran { Ran
        (over_reader (shows_capture viewing.old.view viewing.old.nth viewing.new.heard.items)
        T.Source O.Sink tx.old tx.new)
        O.Sink E.Sink result out.old out.new err.old err.new }
{
    err.end(show_captured(alloc, viewing, tx, out))
}
