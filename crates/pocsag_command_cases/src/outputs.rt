//! What the tests give to commands for their outputs.

ghost use Rattle.std.specs.Prelude.{◌≡◌, [], ◌∷◌, ◌++◌, None, IfErr, OnOk, Some};
ghost use Rattle.pocsag_words.specs.MemorySink.{taken_of};
ghost use Rattle.pocsag_open.specs.Plans.{failed_plan, no_names, no_plans, placed_plan};

use pocsag_open::OutputStore;
use pocsag_shell::{ErrorStream, Failure, FileFault, Outputs};
use pocsag_words::MemorySink;

/// The stream of errors of a command.
pub(crate) fn errors<F: Failure + Drop>() -> ErrorStream<F, MemorySink<100>> {
    ErrorStream::new(MemorySink::new(1, 1000))
}

/// A folder for the outputs of an open round, which looks at what is written and keeps none of it: `full` takes nothing, `none`
/// cannot be made, `there` cannot be put in its place, and any other name is a file; or no file can be made.
#[derive(Drop)]
pub(crate) struct OutputFolder {
    pub(crate) makes: bool,
}

fn sink_at(path: &str) -> Result<MemorySink<1000>, FileFault> {
    match path {
        "none" => Err(FileFault::Device),
        "full" => Ok(MemorySink::new(5, 0)),
        _ => Ok(MemorySink::new(5, 1000)),
    }
}

impl OutputStore for OutputFolder {
    type Output = MemorySink<1000>;

    ghost is_known = { ⊥ };

    ghost placed = { λ _. no_plans };

    ghost made_for = { λ _. no_names };

    fn make(&mut self, tx: &str, cert: &str) -> Result<Outputs<MemorySink<1000>>, FileFault> {
        if !self.makes {
            return Err(FileFault::Device);
        }
        if tx == cert {
            return Err(FileFault::EqualPaths);
        }
        Ok(Outputs {
            tx: sink_at(tx)?,
            cert: sink_at(cert)?,
        })
    }

    // What is written is a transmission of whole batches behind its preamble, and a certificate of its version.
    fn put(
        &mut self,
        tx: &str,
        cert: &str,
        outputs: Outputs<MemorySink<1000>>,
    ) -> Result<(), FileFault>
        ensures placed { ⊥ → no_names ≡ Some (tx.now, cert.now) → OnOk result (no_plans ≡
            no_plans ++ placed_plan tx.now cert.now (taken_of outputs.tx, taken_of outputs.cert) ∷ []) }
        ensures failed { ⊥ → IfErr result (λ fault. no_plans ≡
            no_plans ++ failed_plan tx.now cert.now fault ∷ []) }
        ensures none_left { ⊥ → no_names ≡ Some (tx.now, cert.now) → no_names ≡ None }
    {
        let sent = outputs.tx.bytes().len();
        let is_whole = sent > 72 && (sent - 72) % 68 == 0;
        if tx == "there" || !is_whole || !outputs.cert.bytes().starts_with(b"PCB") {
            return Err(FileFault::Write);
        }
        Ok(())
    }

    fn leave<'n>(&mut self, _tx: &'n str, _cert: &'n str) {}
}
