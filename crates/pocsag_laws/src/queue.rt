ghost use Rattle.std.specs.Prelude.{◌≡◌, ◌+◌, ℕ, List, [], ◌∷◌, ◌++◌, false, take};
ghost use Rattle.pocsag_words.specs.declared.ending.End.{End};
ghost use Rattle.pocsag_pages.specs.declared.page.Page.{Page};
ghost use Rattle.pocsag_pages.specs.Queues.{firsts, left_of, pages_for};
ghost use Rattle.pocsag_plan.specs.Plans.{NoneHasFewer};
ghost use Rattle.pocsag_centre.specs.Oversized.{fits_alone};

/// Pages that are sent first and those that are left are the queue, for each address in its order: of the first pages of the
/// addresses, so many are sent, and no page overtakes an earlier one of its address.
pub fn queues_keep_order()
    ensures { (queue : List Page) (count address : ℕ) →
        pages_for address (take count (firsts queue)) ++ pages_for address (left_of (take count (firsts queue)) queue)
        ≡ pages_for address queue }
{}

/// A page that does not fit alone into so many batches has no transmission in so many: any codewords whatever that are legal for
/// it alone have more.
pub fn oversized_pages_need_more()
    ensures { (end : End) (batches : ℕ) (p : Page) →
        fits_alone end batches p ≡ false → NoneHasFewer end (p ∷ []) (batches + 1) }
{}
