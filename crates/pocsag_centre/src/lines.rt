ghost use Rattle.std.specs.Prelude.{◌≡◌, IfErr};
ghost use Rattle.pocsag_words.specs.Devices.{CountsFailures, Delivers};
ghost use Rattle.pocsag_centre.specs.Lines.{below_text, bound_text, plan_text};

use pocsag_shell::{FileFault, print_numbers};
use pocsag_words::{End, Sink};

/// Prints the pages and the batches of a plan.
#[tactic(auto, unfolding(crate::specs::Lines::plan_text))]
pub(crate) fn print_plan<O: Sink>(pages: u32, batches: u32, out: &mut O) -> Result<(), FileFault>
    ensures delivers { O.is_known → Delivers result (O.taken out.old) (O.taken out.new) (plan_text pages batches) }
    ensures lost { IfErr result (λ e. e ≡ FileFault.Write) }
    ensures failures { CountsFailures result (O.failures out.old) (O.failures out.new) }
{
    let numbers = [("pages ", pages as u64), ("\nbatches ", batches as u64)];
    print_numbers(out, &numbers, "\n")
}

/// Prints that fewer batches do not suffice.
#[tactic(auto, unfolding(crate::specs::Lines::bound_text))]
pub(crate) fn print_bound<O: Sink>(end: End, batches: u32, out: &mut O) -> Result<(), FileFault>
    ensures delivers { O.is_known → Delivers result (O.taken out.old) (O.taken out.new) (bound_text end batches) }
    ensures lost { IfErr result (λ e. e ≡ FileFault.Write) }
    ensures failures { CountsFailures result (O.failures out.old) (O.failures out.new) }
{
    let number = [("at least ", batches as u64)];
    match end {
        End::Open => print_numbers(out, &number, " batches\n"),
        End::Closed => print_numbers(out, &number, " batches with a closed end\n"),
        End::Idle => print_numbers(out, &number, " batches with an idle last\n"),
    }
}

/// Prints the bound of a plan where it is below its batches.
#[tactic(auto, unfolding(crate::specs::Lines::below_text, crate::specs::Lines::bound_text))]
pub(crate) fn print_below<O: Sink>(batches: u32, bound: u32, out: &mut O) -> Result<(), FileFault>
    ensures delivers { O.is_known → Delivers result (O.taken out.old) (O.taken out.new) (below_text batches bound) }
    ensures lost { IfErr result (λ e. e ≡ FileFault.Write) }
    ensures failures { CountsFailures result (O.failures out.old) (O.failures out.new) }
{
    if bound < batches {
        return print_bound(End::Open, bound, out);
    }
    Ok(())
}
