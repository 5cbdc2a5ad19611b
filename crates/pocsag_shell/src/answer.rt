ghost use Rattle.pocsag_shell.specs.declared.fault.FileFault.TheVariants as file;
ghost use Rattle.pocsag_shell.specs.Runs.{Ran, answering};

use crate::error_stream::ErrorStream;
use crate::fault::{Failure, FileFault};
use crate::lines::put_whole;
use pocsag_words::Sink;

/// The result of a command over bytes: its exit status, and the text that it prints.
#[derive(Drop)]
pub struct CommandAnswer {
    pub status: u8,
    pub text: Vec<u8>,
}

/// Prints the text of a command, or its fault. Returns the exit status.
pub fn print_answer<F: Failure + From<FileFault> + Drop, O: Sink, E: Sink + Drop>(
    answer: Result<CommandAnswer, F>,
    out: &mut O,
    err: &mut ErrorStream<F, E>,
) -> u8
    ensures ran { Ran (answering (F.from_gives file.Write) F.status_is answer) O.Sink E.Sink
        result out.old out.new err.old err.new }
{
    let answer = match answer {
        Ok(answer) => answer,
        Err(fault) => return err.end(Err(fault)),
    };
    match put_whole(out, answer.text.as_slice()) {
        Ok(()) => err.end(Ok(answer.status)),
        Err(fault) => err.end(Err(F::from(fault))),
    }
}
