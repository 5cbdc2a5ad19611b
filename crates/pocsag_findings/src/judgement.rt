ghost use Rattle.std.specs.Prelude.{◌≡◌, ◌&&◌, nat_lt, IfOk};
ghost use Rattle.pocsag_slots.specs.Loads.{AreInOrder};
ghost use Rattle.pocsag_slots.specs.Classes.{class_count};
ghost use Rattle.pocsag_slots.specs.Ways.{class_certain};
ghost use Rattle.pocsag_tree.specs.Views.{bound_tree_of};
ghost use Rattle.pocsag_findings.specs.Rules.{columns_at, fact_holds, fact_of, is_narrower, least_of_set, narrowed_of, shares_at};

use crate::finding::{Column, Fact, Narrowed, Share};
use crate::position::NodeContext;
use pocsag_slots::{
    CLASSES, Class, Classes, Limits, SLOTS, ending_ways, holds, is_certain, least_by_class,
    least_load, total_cap, ways,
};
use pocsag_tree::Tree;
use pocsag_words::{End, OutOfMemory};

// How deep the nodes are of which the columns are found: the root, and the nodes right below it.
pub(crate) const DRAWN_DEPTH: u32 = 2;

// Whether what a node states meets the rule of its kind, for the end and so many batches.
pub(crate) fn is_met(fact: Fact, end: End, batches: u32) -> bool
    ensures { result ≡ fact_holds end batches fact }
{
    match fact {
        Fact::Overload { set, least, room } => 0 < set && room < least,
        Fact::Split { class, m, lo, hi } => {
            (class as usize) < CLASSES && lo < u32::from(m) && u32::from(m) <= hi
        }
        Fact::Cut {
            set,
            is_certain,
            ways,
            children,
            ..
        } => 0 < batches && holds(set, 0) && is_certain && ways == children,
        Fact::Close { ways, children } => {
            matches!(end, End::Closed | End::Idle) && 0 < batches && ways == children
        }
        Fact::Open | Fact::Unjudged => false,
    }
}

// Whether the class is one that is certain for the set of boundaries.
fn may_cut(classes: &Classes, limits: &Limits, set: u16, class: u8) -> bool
    ensures { result ≡ (nat_lt class class_count && class_certain classes.now limits.now set class) }
{
    (class as usize) < CLASSES && is_certain(classes, limits, set, class)
}

// The least load of the set of slots, as the sum of those by each class.
fn least_of_set(classes: &Classes, limits: &Limits, set: u16) -> u64
    requires { AreInOrder classes.now limits.now }
    ensures { result ≡ least_of_set classes.now limits.now set }
{
    least_load(classes, limits, set)
}

// The columns that are found of a node below so many: what must stand in each slot under the limits, and the room in it.
pub(crate) fn columns_at(
    context: &NodeContext,
    limits: &Limits,
    above: u32,
) -> Result<Vec<Column>, OutOfMemory>
    requires { AreInOrder context.now.classes.now limits.now }
    ensures { IfOk result (λ found. found.items ≡ columns_at context.now.classes.now limits.now above) }
{
    let mut found = Vec::new(context.alloc);
    if above >= DRAWN_DEPTH {
        return Ok(found);
    }
    for slot in 0..SLOTS as u8 {
        found.push(Column {
            least: least_of_set(context.classes, limits, 1 << slot),
            room: limits.cap[slot as usize],
        })?;
    }
    Ok(found)
}

// What the node states under the limits.
pub(crate) fn fact_of(context: &NodeContext, limits: &Limits, tree: &Tree) -> Fact
    requires { AreInOrder context.now.classes.now limits.now }
    ensures { result ≡ fact_of context.now.classes.now context.now.end limits.now (bound_tree_of tree.now) }
{
    match tree {
        Tree::Overload(set) => Fact::Overload {
            set: *set,
            least: least_of_set(context.classes, limits, *set),
            room: total_cap(limits, *set),
        },
        Tree::Split { class, m, .. } => Fact::Split {
            class: *class,
            m: *m,
            lo: limits.lo.get(*class as usize).copied().unwrap_or(0),
            hi: limits.hi.get(*class as usize).copied().unwrap_or(0),
        },
        Tree::Cut {
            set,
            needed,
            children,
        } => Fact::Cut {
            set: *set,
            needed: *needed,
            is_certain: may_cut(context.classes, limits, *set, *needed),
            ways: ways(context.classes, limits, *set, context.batches).len(),
            children: children.len(),
        },
        Tree::Close { children } => Fact::Close {
            ways: ending_ways(context.classes, context.end, limits).len(),
            children: children.len(),
        },
        Tree::Open => Fact::Open,
    }
}

// The shares that the node states: of an overload those of the classes in the least load of its set.
pub(crate) fn shares_at(
    context: &NodeContext,
    limits: &Limits,
    tree: &Tree,
) -> Result<Vec<Share>, OutOfMemory>
    requires { AreInOrder context.now.classes.now limits.now }
    ensures { IfOk result
        (λ found. found.items ≡ shares_at context.now.classes.now limits.now (bound_tree_of tree.now)) }
{
    let mut found = Vec::new(context.alloc);
    let Tree::Overload(set) = tree else {
        return Ok(found);
    };
    for class in 0..CLASSES as u8 {
        let least = least_by_class(context.classes, limits, *set, Class { number: class });
        if 0 < least {
            found.push(Share {
                class,
                pages: context.classes.count[class as usize],
                least,
            })?;
        }
    }
    Ok(found)
}

// Whether not each number of the pages may start early.
fn is_narrower(early: Narrowed) -> bool
    ensures { result ≡ is_narrower early }
{
    0 < early.lo || early.hi < early.pages
}

// The classes that the limits narrow.
pub(crate) fn narrowed_of(
    context: &NodeContext,
    limits: &Limits,
) -> Result<Vec<Narrowed>, OutOfMemory>
    ensures { IfOk result (λ found. found.items ≡ narrowed_of context.now.classes.now limits.now) }
{
    let mut found = Vec::new(context.alloc);
    for number in 0..CLASSES as u8 {
        let early = Narrowed {
            class: number,
            pages: context.classes.count[number as usize],
            lo: limits.lo[number as usize],
            hi: limits.hi[number as usize],
        };
        if is_narrower(early) {
            found.push(early)?;
        }
    }
    Ok(found)
}
