use crate::fault::Failure;
use crate::lines::print_fault;
use pocsag_words::Sink;

/// Standard error of a command. It takes the line of the fault that the command ends with, and keeps that fault.
#[derive(Drop)]
pub struct ErrorStream<F: Failure + Drop, S: Sink + Drop> {
    sink: S,
    fault: Option<F>,
}

impl<F: Failure + Drop, S: Sink + Drop> ErrorStream<F, S> {
    ghost use Rattle.std.specs.Prelude.{◌≡◌, None, IfErr, IfOk};
    ghost use Rattle.pocsag_shell.specs.ErrorStreams.{EndedWell, EndedWith, stream_of, printed_by};

    /// A stream without a fault over this writer.
    pub fn new(sink: S) -> ErrorStream<F, S>
        ensures stream { stream_of result ≡ sink }
        ensures printed { printed_by result ≡ None }
    {
        ErrorStream { sink, fault: None }
    }

    /// Ends a command: writes the line of its fault, if there is one, and keeps the fault. If the writer fails, the line is lost,
    /// or only its beginning is written. Returns the exit status.
    pub fn end(&mut self, done: Result<u8, F>) -> u8
        ensures done { IfOk done (λ status. (result ≡ status) × EndedWell self.old self.new) }
        ensures fault { IfErr done (EndedWith F.status_is S.Sink self.old self.new result) }
    {
        self.fault = done.err();
        match done {
            Ok(status) => status,
            Err(fault) => print_fault(&mut self.sink, fault),
        }
    }

    /// The fault that the command ended with, if it ended with one.
    pub fn fault(&self) -> Option<F>
        ensures { result ≡ printed_by self.now }
    {
        self.fault
    }

    /// The writer.
    pub fn stream(&self) -> &S
        ensures { result.now ≡ stream_of self.now }
    {
        &self.sink
    }
}
