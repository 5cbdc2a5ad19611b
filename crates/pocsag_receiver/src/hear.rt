ghost use Rattle.pocsag_shell.specs.Readers.{over_reader};
ghost use Rattle.pocsag_shell.specs.Runs.{IsStreamOf, Ran};
ghost use Rattle.pocsag_receiver.specs.Works.{hears};

use crate::fault::ReceiverFault;
use crate::form::{ListForm, list_from};
use pocsag_decode::list_owned;
use pocsag_pager::hear_all;
use pocsag_shell::{ErrorStream, read_transmission};
use pocsag_words::{Sink, Source};
use std::alloc::Global;

/// The address of a pager, and the form in which the pages that it shows are listed.
#[derive(Clone, Copy)]
pub struct Hearing {
    pub form: ListForm,
    pub address: u32,
}

// Lists what the pager of the address shows of a transmission, in a form.
fn list_heard<T: Source, O: Sink>(
    alloc: Global,
    hearing: Hearing,
    tx: &mut T,
    out: &mut O,
) -> Result<u8, ReceiverFault>
    ensures streams { IsStreamOf (over_reader (hears hearing) T.Source O.Sink tx.old tx.new) O.Sink
        out.old out.new result }
{
    let read = read_transmission(alloc, tx)?;
    let bytes = read.as_slice();
    let pages = hear_all(alloc, bytes, hearing.address)?;
    if let ListForm::Listing = hearing.form {
        list_owned(alloc, pages, out)?;
        return Ok(0);
    }
    list_from(alloc, hearing.form, &mut pages.into_iter(), out)
}

/// `hear ADDRESS TX`: lists what the pager of the address shows of a transmission. Returns the exit status.
pub fn run_hear<T: Source, O: Sink, E: Sink + Drop>(
    alloc: Global,
    hearing: Hearing,
    tx: &mut T,
    out: &mut O,
    err: &mut ErrorStream<ReceiverFault, E>,
) -> u8
    ensures ran { Ran (over_reader (hears hearing) T.Source O.Sink tx.old tx.new) O.Sink E.Sink
        result out.old out.new err.old err.new }
{
    err.end(list_heard(alloc, hearing, tx, out))
}
