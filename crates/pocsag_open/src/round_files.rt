ghost use Rattle.std.specs.Prelude.{◌≡◌, ◌≤◌, [], ◌∷◌, ◌++◌, length, ℕ, None, Option, IfErr, IfSome, IsTrue, OnOk, Some};
ghost use Rattle.pocsag_words.specs.Frame.{input_limit};
ghost use Rattle.pocsag_pages.specs.Quotes.{IsWellQuoted, text_of_file};
ghost use Rattle.pocsag_open.specs.FirstFiles.{ExplainsRefused, HoldsRoundOf};
ghost use Rattle.pocsag_open.specs.Plans.{failed_plan, no_names, no_plans, placed_plan};

use crate::fault::OpenFault;
use crate::line_note::print_refused;
use crate::outputs::OutputStore;
use crate::session::PlanSettings;
use pocsag_pages::{FILE_LIMIT, held_pages, quote_fault};
use pocsag_plan::OnLimit;
use pocsag_shell::{
    Context, FileFault, LoadedFile, NamedFile, Output, Outputs, PAGES_READ, Role, STANDARD,
    StagedFile, SystemDevice, is_unkept, load, note_record, open_outputs, open_source, put_staged,
    refuse_equal, refuse_one_file, refuse_shared,
};
use pocsag_words::Source;

/// What `open` is asked for.
#[derive(Clone, Copy)]
pub(crate) struct OpenArgs<'a> {
    /// The path of the page file that the round begins with, if there is one.
    pub pages: Option<&'a str>,
    /// The path of the journal, if there is one.
    pub journal: Option<&'a str>,
    /// Whether the journal is only listed.
    pub read_only: bool,
    /// How many pages the page file must have, if that is given.
    pub expect: Option<u32>,
    /// Whether a misplaced quote refuses the page file.
    pub strict: bool,
    /// Whether a plan whose search reaches its limit is refused.
    pub on_limit: OnLimit,
    /// Whether the old files are kept until both files of a plan are whole.
    pub keep: bool,
}

/// Reads the page file that a round begins with, which is not standard input: that holds the lines. It refuses one that does not
/// meet what is asked of it.
pub(crate) fn load_pages(
    context: Context<'_>,
    args: OpenArgs<'_>,
    path: &str,
) -> Result<LoadedFile, OpenFault> {
    if path == STANDARD {
        context.note("page file -: standard input holds the lines");
        return Err(OpenFault::File(FileFault::EqualPaths));
    }
    let mut source = open_source(context, Role::PageFile, Some(path))?;
    let Ok(pages) = load(context, &mut source, PAGES_READ) else {
        return Err(OpenFault::File(FileFault::OutOfMemory));
    };
    if let Some(file) = pages.lent() {
        refuse_pages(context, args, path, file)?;
    }
    Ok(pages)
}

// Refuses the bytes of a page file that do not meet what is asked of them. What else is wrong with them is for the round to refuse,
// unless `--verbose` asks for the record.
fn refuse_pages(
    context: Context<'_>,
    args: OpenArgs<'_>,
    path: &str,
    file: &[u8],
) -> Result<(), OpenFault>
    ensures strict { length file.now ≤ input_limit → IsTrue args.entry.strict →
        OnOk result (IsWellQuoted (text_of_file file.now)) }
    ensures expected { length file.now ≤ input_limit →
        IfSome args.entry.expect (λ count. OnOk result (HoldsRoundOf count file.now)) }
    ensures explained { IfErr result (ExplainsRefused args.entry.strict args.entry.expect file.now) }
{
    if file.len() > FILE_LIMIT {
        return Ok(());
    }
    refuse_quotes(args.strict, file)?;
    if args.expect.is_none() && !context.diagnostics.is_asked() {
        return Ok(());
    }
    let found = match held_pages(context.alloc, false, file) {
        Ok(queue) => queue.len() as u32,
        Err(fault) => {
            let place = NamedFile(Role::PageFile, Some(path));
            note_record(context, place, file, fault);
            return Err(OpenFault::Round(fault));
        }
    };
    match args.expect {
        Some(expected) if found != expected => Err(OpenFault::Unexpected(found, expected)),
        _ => Ok(()),
    }
}

// Refuses a misplaced quote, where quotes are judged.
fn refuse_quotes(strict: bool, file: &[u8]) -> Result<(), OpenFault>
    ensures strict { IsTrue strict → OnOk result (IsWellQuoted (text_of_file file.now)) }
    ensures explained { IfErr result (λ e. (expect : Option ℕ) → ExplainsRefused strict expect file.now e) }
{
    if !strict {
        return Ok(());
    }
    match quote_fault(file) {
        Some(quote) => Err(OpenFault::Quotes(quote)),
        None => Ok(()),
    }
}

/// The files that the plans of an open round are written to, none of which is the page file that the round
/// began with or its journal, and none standard output, which the answers take.
#[derive(Drop)]
pub(crate) struct RoundFiles<'a> {
    pub context: Context<'a>,
    pub args: OpenArgs<'a>,
    /// What was made beside the places of a plan and is not put there yet, the certificate first.
    pub made: Vec<StagedFile>,
}

impl<'a> RoundFiles<'a> {
    /// How plans are made in an open round with these options.
    pub fn settings(context: Context<'a>, args: OpenArgs<'a>) -> PlanSettings<RoundFiles<'a>> {
        PlanSettings {
            store: RoundFiles {
                context,
                args,
                made: Vec::new(context.alloc),
            },
            on_limit: args.on_limit,
        }
    }

    // Refuses the places of a plan where one is the page file, the journal or a standard stream.
    fn refuse_taken(&self, tx: &str, cert: &str) -> Result<(), FileFault> {
        let OpenArgs { pages, journal, .. } = self.args;
        refuse_equal(pages, tx, cert)?;
        refuse_equal(journal, tx, cert)?;
        refuse_one_file(self.context.rt, journal, tx, cert)?;
        if tx == STANDARD || cert == STANDARD {
            self.context.note("-: standard output takes the answers");
            return Err(FileFault::EqualPaths);
        }
        Ok(())
    }
}

impl<'a> OutputStore for RoundFiles<'a> {
    type Output = SystemDevice<'a, Output>;

    ghost is_known = { ⊥ };

    ghost placed = { λ _. no_plans };

    ghost made_for = { λ _. no_names };

    fn make(
        &mut self,
        tx: &str,
        cert: &str,
    ) -> Result<Outputs<SystemDevice<'a, Output>>, FileFault> {
        let OpenArgs { pages, keep, .. } = self.args;
        let context = self.context;
        let role = match refuse_one_file(context.rt, pages, cert, STANDARD) {
            Ok(()) => Role::Transmission,
            Err(_) => Role::Certificate,
        };
        context.diagnostics.note_refusal(role);
        self.refuse_taken(tx, cert)?;
        let opened = if keep {
            for (role, path) in [(Role::Transmission, tx), (Role::Certificate, cert)] {
                if is_unkept(context, NamedFile(role, Some(path))) {
                    return Err(FileFault::Device);
                }
            }
            refuse_shared(context, pages, tx, cert)?;
            // No transmission ever stands without its certificate.
            for (role, place) in [(Role::Certificate, cert), (Role::Transmission, tx)] {
                let made = StagedFile::make(context, role, place, self.made.as_slice())?;
                self.made.push(made)?;
            }
            let [made_cert, made_tx] = self.made.as_slice() else {
                return Err(FileFault::Device);
            };
            open_outputs(context, pages, made_tx.path(), made_cert.path())?
        } else {
            open_outputs(context, pages, tx, cert)?
        };
        let outputs = opened.emptied(context)?;
        context.forget_refused_call();
        Ok(outputs)
    }

    fn put(
        &mut self,
        tx: &str,
        cert: &str,
        outputs: Outputs<SystemDevice<'a, Output>>,
    ) -> Result<(), FileFault>
        // Nothing is known of what files hold.
        ensures placed { ⊥ → no_names ≡ Some (tx.now, cert.now) → OnOk result
            (no_plans ≡ no_plans ++ placed_plan tx.now cert.now ([], []) ∷ []) }
        ensures failed { ⊥ → IfErr result (λ fault. no_plans ≡
            no_plans ++ failed_plan tx.now cert.now fault ∷ []) }
        ensures none_left { ⊥ → no_names ≡ Some (tx.now, cert.now) → no_names ≡ None }
    {
        drop(outputs);
        let done = put_staged(self.context, self.made.as_slice());
        self.leave(tx, cert);
        done
    }

    fn note_line(&self, line: &[u8], is_done: bool) {
        if !is_done && self.context.diagnostics.is_asked() {
            print_refused(self.context, line);
        }
    }

    fn leave<'n>(&mut self, tx: &'n str, cert: &'n str) {
        for file in &self.made {
            file.remove(self.context);
        }
        self.made.clear();
        self.context.print_more(&[
            NamedFile(Role::Transmission, Some(tx)),
            NamedFile(Role::Certificate, Some(cert)),
        ]);
    }
}
