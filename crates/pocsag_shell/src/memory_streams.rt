use crate::context::Context;
use crate::error_stream::ErrorStream;
use crate::fault::{Failure, FileFault};
use crate::lines::{LONGEST, print_fault, put_whole};
use crate::role::NamedFile;
use pocsag_words::{GrowingSink, MemorySink};
use std::alloc::Global;

/// Standard output and standard error of a command that runs over memory. What they took is printed when it has ended.
#[derive(Drop)]
pub struct MemoryStreams<F: Failure + Drop> {
    pub out: GrowingSink,
    pub err: ErrorStream<F, MemorySink<LONGEST>>,
}

impl<F: Failure + From<FileFault> + PartialEq + Drop> MemoryStreams<F> {
    /// Streams that took nothing.
    pub fn new(alloc: Global) -> MemoryStreams<F> {
        MemoryStreams {
            out: GrowingSink::new(alloc),
            err: ErrorStream::new(MemorySink::new(LONGEST, LONGEST as u64)),
        }
    }

    /// Prints what the streams took, and behind it the line of `--verbose`. `done` is the exit status of the command, or a fault
    /// of the files that it was to run over or has to write. A writer over memory fails where memory is refused, and nowhere
    /// else, so its fault is reported as refused memory. Returns the exit status.
    pub fn end(self, context: Context<'_>, files: &[NamedFile<'_>], done: Result<u8, F>) -> u8 {
        let MemoryStreams { out, err } = self;
        let errors = &mut context.err();
        let status = match (done, err.fault()) {
            (Err(fault), _) => print_fault(errors, fault),
            (Ok(_), Some(fault)) if fault == F::from(FileFault::Write) => {
                print_fault(errors, FileFault::OutOfMemory)
            }
            (Ok(status), Some(_)) => {
                let _ = put_whole(errors, err.stream().bytes());
                status
            }
            (Ok(status), None) => match put_whole(&mut context.out(), out.into_bytes().as_slice()) {
                Ok(()) => {
                    context.forget_refused_call();
                    status
                }
                Err(fault) => print_fault(errors, fault),
            },
        };
        context.print_more(files);
        status
    }
}
