ghost use Rattle.pocsag_pages.specs.Pages.{IsRound};
ghost use Rattle.pocsag_pages.specs.Reading.{AreApart, IsLegalFor, IsLegalList};
ghost use Rattle.pocsag_pages.specs.declared.page.Page.{Page};
ghost use Rattle.pocsag_slots.specs.Arcs.{arcs, early_in};
ghost use Rattle.pocsag_slots.specs.Layout.{laid};
ghost use Rattle.pocsag_slots.specs.Loads.{AreClassesOf, IsChoice, IsLeast, load};
ghost use Rattle.pocsag_slots.specs.Tours.{AsksForLast, IsTour};
ghost use Rattle.pocsag_slots.specs.declared.class.Classes.{Classes};
ghost use Rattle.pocsag_slots.specs.declared.step.Step.{Step};
ghost use Rattle.pocsag_tour.specs.Reached.{IsApart, IsUnclosed};
ghost use Rattle.pocsag_words.specs.Codeword.{IsCodeword};
ghost use Rattle.pocsag_words.specs.Kinds.{kind_of};
ghost use Rattle.pocsag_words.specs.declared.codeword.Kind.{Kind};
ghost use Rattle.pocsag_words.specs.declared.ending.End.{End};
ghost use Rattle.std.specs.Prelude.{ℕ, ◌<◌, List, ◌≡◌, ◌≤◌, map, All};

/// The arcs of a legal transmission, in order, are a tour of the choice that counts its early starts, which loads no slot
/// above the number of batches.
pub fn transmissions_are_tours()
    ensures kinds { (k : Classes) (end : End) (T : List Kind) (R : List Page) (b : ℕ) →
        AreApart R → AreClassesOf k end R → IsLegalFor end T b R →
        IsTour k end (early_in end T) b (arcs end 0 T) }
    ensures codewords { (k : Classes) (end : End) (T : List ℕ) (R : List Page) (b : ℕ) →
        AreApart R → AreClassesOf k end R → IsLegalList end T b R →
        IsTour k end (early_in end (map kind_of T)) b (arcs end 0 (map kind_of T)) }
    ensures choice { (k : Classes) (end : End) (T : List Kind) (R : List Page) (b : ℕ) →
        AreApart R → AreClassesOf k end R → IsLegalFor end T b R → IsChoice k (early_in end T) }
    ensures loads { (k : Classes) (end : End) (T : List Kind) (R : List Page) (b : ℕ) →
        AreApart R → AreClassesOf k end R → IsLegalFor end T b R →
        (slot : ℕ) → slot < 16 → load k (early_in end T) slot ≤ b }
{}

/// The codewords of a tour's steps, in order, are a legal transmission, whose arcs are the steps; so is each list of codewords of the
/// kinds that these steps lay out, and of a round there is such a list.
pub fn tours_are_transmissions()
    ensures kinds { (k : Classes) (end : End) (choice : ℕ → ℕ) (b : ℕ) (steps : List Step) (R : List Page) →
        0 < b → AreClassesOf k end R → IsTour k end choice b steps →
        IsLegalFor end (laid end R steps) b R × (arcs end 0 (laid end R steps) ≡ steps) }
    ensures codewords { (k : Classes) (end : End) (choice : ℕ → ℕ) (b : ℕ) (steps : List Step)
        (R : List Page) (U : List ℕ) →
        0 < b → AreClassesOf k end R → IsTour k end choice b steps →
        All IsCodeword U → map kind_of U ≡ laid end R steps → IsLegalList end U b R }
    ensures some { (k : Classes) (end : End) (choice : ℕ → ℕ) (b : ℕ) (steps : List Step) (R : List Page) →
        0 < b → IsRound R → AreClassesOf k end R → IsTour k end choice b steps →
        (U : List ℕ) × (map kind_of U ≡ laid end R steps) × IsLegalList end U b R }
{}

/// Every legal transmission has at least as many batches as the least `a` for which some choice of
/// starts loads no slot above `a`.
pub fn no_transmission_has_fewer()
    ensures kinds { (k : Classes) (end : End) (T : List Kind) (R : List Page) (a b : ℕ) →
        AreApart R → AreClassesOf k end R → IsLeast k a → IsLegalFor end T b R → a ≤ b }
    ensures codewords { (k : Classes) (end : End) (T : List ℕ) (R : List Page) (a b : ℕ) →
        AreApart R → AreClassesOf k end R → IsLeast k a → IsLegalList end T b R → a ≤ b }
{}

/// A choice has a tour, for any end, with any number of batches that is above each of its loads: so one batch more than the
/// loads need always has a tour. It has none for any end where its runs are apart, and none for an end for which its tours
/// cannot end.
pub fn spare_batches_have_tours()
    ensures spare { (k : Classes) (end : End) (choice : ℕ → ℕ) (b : ℕ) →
        IsChoice k choice → ((slot : ℕ) → slot < 16 → load k choice slot < b) →
        (steps : List Step) × IsTour k end choice b steps }
    ensures apart { (k : Classes) (end : End) (choice : ℕ → ℕ) (b set : ℕ) (steps : List Step) →
        IsApart k choice b set → IsTour k end choice b steps → ⊥ }
    ensures unclosed { (k : Classes) (end : End) (choice : ℕ → ℕ) (b : ℕ) (steps : List Step) →
        AsksForLast end → IsUnclosed k end choice b → IsTour k end choice b steps → ⊥ }
{}
