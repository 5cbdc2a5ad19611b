// Class tables that are kept by each edit and never counted again.
ghost use Rattle.std.specs.Prelude.{◌≤◌, List, [], ◌∷◌, ◌++◌, drop, length};
ghost use Rattle.pocsag_words.specs.declared.ending.End.{End};
ghost use Rattle.pocsag_pages.specs.Pages.{AreGood, page_limit};
ghost use Rattle.pocsag_pages.specs.declared.page.Page.{Page};
ghost use Rattle.pocsag_slots.specs.Loads.{AreClassesOf};
ghost use Rattle.pocsag_plan.specs.Tallies.{CanGain, CanLose};

use pocsag_pages::Page;
use pocsag_slots::{CLASSES, Classes, class_of, whole_turns};
use pocsag_words::End;

// The table of no pages, which is the same for every end.
pub(crate) fn no_classes() -> Classes
    ensures { (end : End) → AreClassesOf result end [] }
{
    Classes {
        count: [0; CLASSES],
        turns: [0; CLASSES],
    }
}

// Counts one page more, wherever it is put among those that the table counts.
pub(crate) fn count_page(classes: &mut Classes, page: &Page, end: End)
    requires { CanGain classes.old end page.now }
    ensures { (before after : List Page) →
        AreClassesOf classes.old end (before ++ after) → AreClassesOf classes.new end (before ++ page.now ∷ after) }
{
    let class = class_of(page, end).number as usize;
    let turns = whole_turns(page);
    classes.count[class] += 1;
    classes.turns[class] += turns;
}

// Counts one page fewer, wherever it stood among those that the table counts.
pub(crate) fn discount_page(classes: &mut Classes, page: &Page, end: End)
    requires { CanLose classes.old end page.now }
    ensures { (before after : List Page) →
        AreClassesOf classes.old end (before ++ page.now ∷ after) → AreClassesOf classes.new end (before ++ after) }
{
    let class = class_of(page, end).number as usize;
    let turns = whole_turns(page);
    classes.count[class] -= 1;
    classes.turns[class] -= turns;
}

// Counts the first pages, so many, no longer.
pub(crate) fn discount_first(classes: &mut Classes, pages: &[Page], count: usize, end: End)
    requires good { AreGood pages.now }
    requires few { length pages.now ≤ page_limit }
    requires among { count ≤ length pages.now }
    requires counted { AreClassesOf classes.old end pages.now }
    ensures { AreClassesOf classes.new end (drop count pages.now) }
{
    for page in &pages[..count] {
        discount_page(classes, page, end);
    }
}
