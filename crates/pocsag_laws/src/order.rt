ghost use Rattle.std.specs.Prelude.{◌≡◌, ℕ, ◌/◌, ◌<◌, List, length};
ghost use Rattle.pocsag_words.specs.declared.codeword.Kind.{Kind};
ghost use Rattle.pocsag_words.specs.declared.ending.End.TheVariants.{Open};
ghost use Rattle.pocsag_words.specs.declared.ending.End.{End};
ghost use Rattle.pocsag_pages.specs.declared.page.Page.{Page};
ghost use Rattle.pocsag_pages.specs.Reading.{IsLegalFor};
ghost use Rattle.pocsag_slots.specs.declared.step.Step.{Step};
ghost use Rattle.pocsag_slots.specs.Layout.{laid};
ghost use Rattle.pocsag_slots.specs.Tours.{IsTourFor};
ghost use Rattle.pocsag_batch.specs.FileOrder.{IsFileOrder};
ghost use Rattle.pocsag_batch.specs.Placement.{HavePlaces, IsOrder, laid_by};

/// Each list of pages has one file order, which is a legal transmission with the open end.
pub fn pages_have_one_file_order()
    ensures some { (R : List Page) → (T : List Kind) × IsFileOrder R T }
    ensures one { (R : List Page) (T U : List Kind) → IsFileOrder R T → IsFileOrder R U → T ≡ U }
    ensures legal { (R : List Page) (T : List Kind) →
        0 < length R → IsFileOrder R T → IsLegalFor Open T (length T / 16) R }
{}

/// The steps of a tour have one order. It has a place of the round for each run, and by it the steps give the codewords
/// that they give where each run is the first page of its class that is left.
pub fn tours_have_one_order()
    ensures some { (end : End) (R : List Page) (steps : List Step) →
        IsTourFor end R steps → (order : List ℕ) × IsOrder end R steps order }
    ensures one { (end : End) (R : List Page) (steps : List Step) (order other : List ℕ) →
        IsOrder end R steps order → IsOrder end R steps other → order ≡ other }
    ensures places { (end : End) (R : List Page) (steps : List Step) (order : List ℕ) →
        IsOrder end R steps order → HavePlaces (length R) order steps }
    ensures layout { (end : End) (R : List Page) (steps : List Step) (order : List ℕ) →
        IsOrder end R steps order → laid_by R order steps ≡ laid end R steps }
{}
