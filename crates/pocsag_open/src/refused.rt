//! The lines that report why a line of an open round is refused.
ghost use Rattle.std.specs.Prelude.{◌≡◌, IfErr};
ghost use Rattle.pocsag_words.specs.Devices.{CountsFailures, Delivers};
ghost use Rattle.pocsag_open.specs.Answers.{refusal_answer};
ghost use Rattle.pocsag_open.specs.Words.{HaveNumber};

use pocsag_journal::{Refusal, UndoneFault};
use pocsag_pages::{FieldFault, PageFault};
use pocsag_plan::AddFault;
use pocsag_shell::{FileFault, print_numbers, put_whole};
use pocsag_words::Sink;

/// Prints why a line is refused, in one line.
pub fn refuse<O: Sink>(refusal: Refusal, out: &mut O) -> Result<(), FileFault>
    ensures printed { O.is_known → Delivers result (O.taken out.old) (O.taken out.new) (refusal_answer refusal) }
    ensures lost { IfErr result (λ e. e ≡ FileFault.Write) }
    ensures failures { CountsFailures result (O.failures out.old) (O.failures out.new) }
{
    match refusal {
        Refusal::Field(FieldFault::BadCharacter(place)) => {
            print_numbers(out, &[("refused: bad character at ", place as u64)], "\n")
        }
        Refusal::Undone(UndoneFault::SearchLimit { least, found }) => {
            let least = ("refused: search limit reached: at least ", least as u64);
            print_numbers(out, &[least, (" batches, ", found as u64)], " would do\n")
        }
        Refusal::Undone(UndoneFault::FirstPage(needed)) => {
            print_numbers(
                out,
                &[("refused: page 1 needs ", needed as u64)],
                " batches\n",
            )
        }
        _ => put_whole(out, plain_line(refusal).as_bytes()),
    }
}

// The line whose words hold no number.
fn plain_line(refusal: Refusal) -> &'static str
    requires { ¬ HaveNumber refusal }
    ensures { result.now ≡ refusal_answer refusal }
{
    match refusal {
        Refusal::Unknown => "refused: unknown edit\n",
        Refusal::InQuotes => "refused: the line ends inside quotes\n",
        Refusal::StrayQuote => "refused: a quote is out of place\n",
        Refusal::Cancel(_) => "refused: no such page\n",
        Refusal::Field(FieldFault::BadAddress) => "refused: bad address\n",
        Refusal::Field(FieldFault::ReservedAddress) => "refused: reserved address\n",
        Refusal::Field(FieldFault::BadKind) => "refused: unknown kind\n",
        Refusal::Field(FieldFault::MessageForTone) => "refused: a tone page has no message\n",
        Refusal::Field(FieldFault::EmptyMessage) => "refused: the message is empty\n",
        Refusal::Field(FieldFault::TooLong) => "refused: the message is too long\n",
        Refusal::Add(AddFault::Page(PageFault::BadAddress)) => "refused: bad address\n",
        Refusal::Add(AddFault::Page(PageFault::ReservedAddress)) => "refused: reserved address\n",
        Refusal::Add(AddFault::Page(PageFault::BadPayload)) => "refused: bad payload\n",
        Refusal::Add(AddFault::DuplicateAddress) => "refused: the address is already there\n",
        Refusal::Add(AddFault::Full) => "refused: too many pages\n",
        Refusal::Undone(UndoneFault::NoPages) => "refused: there are no pages\n",
        Refusal::Undone(UndoneFault::File(fault)) => match fault {
            FileFault::EqualPaths => "refused: the same file is named twice\n",
            FileFault::Device => "refused: cannot read or open a file\n",
            FileFault::Write => "refused: cannot write\n",
            FileFault::Owner => {
                "refused: the new file cannot be given the owner, group and mode of the old one\n"
            }
            FileFault::TooLarge => "refused: the file is too large\n",
            FileFault::OutOfMemory => "refused: out of memory\n",
        },
        _ => "refused: out of memory\n",
    }
}
