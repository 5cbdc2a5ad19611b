ghost use Rattle.std.specs.Prelude.{◌≡◌, ◌<◌, ◌∷◌, [], ◌++◌, All, if◌then◌else◌};
ghost use Rattle.arrayvec.specs.ArrayVec.{array_vec_len};
ghost use Rattle.pocsag_slots.specs.Ways.{class_certain, early_open, late_open, MayTake, ways_across, ways_to_close};

use crate::class::{CLASS_COUNT, CLASSES, Class, Classes, SLOT_COUNT, SLOTS};
use crate::limit::Limits;
use crate::set::{crosses, holds, touches};
use arrayvec::ArrayVec;
use pocsag_words::End;

/// How many ways there are: an idle for each slot, and two runs for each class.
pub const WAYS: usize = SLOTS + 2 * CLASSES;

/// A way out of a set of boundaries: an idle in a slot, or an early or a late run of a class.
#[derive(Clone, Copy, PartialEq, Eq)]
pub enum Way {
    IdleIn(u8),
    Early(u8),
    Late(u8),
}

impl Default for Way {
    ghost use Rattle.pocsag_slots.specs.declared.way.Way.TheVariants.{IdleIn};

    ghost is_default = { λ way. way ≡ IdleIn 0 };

    fn default() -> Way {
        Way::IdleIn(0)
    }
}

/// Whether some run of the class has an end outside the set of boundaries, whatever choice within the
/// limits is taken.
#[tactic(auto, unfolding(crate::specs::Ways::class_certain))]
pub fn is_certain(classes: &Classes, limits: &Limits, set: u16, class: u8) -> bool
    requires { class < 136 }
    ensures { result ≡ class_certain classes.now limits.now set class }
{
    let count = classes.count[class as usize];
    if count == 0 {
        return false;
    }
    let early = touches(class, true, set);
    let late = touches(class, false, set);
    let some_early = early && 0 < limits.lo[class as usize];
    let some_late = late && limits.hi[class as usize] < count;
    (early && late) || some_early || some_late
}

#[tactic(auto, unfolding(crate::specs::Ways::early_open))]
fn is_open_early(classes: &Classes, limits: &Limits, set: u16, class: Class) -> bool
    ensures { result ≡ early_open classes.now limits.now set class.number }
{
    if classes.count[class.number as usize] == 0 {
        return false;
    }
    crosses(class.number, true, set) && 0 < limits.hi[class.number as usize]
}

#[tactic(auto, unfolding(crate::specs::Ways::late_open))]
fn is_open_late(classes: &Classes, limits: &Limits, set: u16, class: Class) -> bool
    ensures { result ≡ late_open classes.now limits.now set class.number }
{
    if classes.count[class.number as usize] == 0 {
        return false;
    }
    crosses(class.number, false, set)
        && limits.lo[class.number as usize] < classes.count[class.number as usize]
}

fn push_if<const N: usize>(ways: &mut ArrayVec<Way, N>, allowed: bool, way: Way)
    requires { array_vec_len ways.old < N }
    ensures { ways.new.items ≡ ways.old.items ++ (if allowed then way ∷ [] else []) }
{
    if allowed {
        ways.push(way);
    }
}

/// The ways out of the set of boundaries that the limits allow: an idle of a crossing slot, slots in
/// order, and then a run of a crossing class, early before late, classes in order. They do not depend
/// on the number of batches.
#[tactic(auto, unfolding(crate::specs::Ways::ways_across))]
pub fn ways(classes: &Classes, limits: &Limits, set: u16, _batches: u32) -> ArrayVec<Way, WAYS>
    ensures items { result.items ≡ ways_across classes.now limits.now set }
    ensures allowed { All (MayTake classes.now limits.now) result.items }
{
    let mut found = ArrayVec::new();
    for slot in 0..SLOT_COUNT {
        let across = holds(set, slot) != holds(set, (slot + 1) % SLOT_COUNT);
        push_if(&mut found, across, Way::IdleIn(slot));
    }
    for number in 0..CLASS_COUNT {
        let class = Class { number };
        let early = is_open_early(classes, limits, set, class);
        push_if(&mut found, early, Way::Early(number));
        let late = is_open_late(classes, limits, set, class);
        push_if(&mut found, late, Way::Late(number));
    }
    found
}

/// The ways in which a transmission may end as the closed end asks for: an idle in slot 15, or an address codeword alone
/// there, where the limits allow one.
#[tactic(auto, unfolding(crate::specs::Ways::ways_to_close))]
pub fn closing_ways(classes: &Classes, limits: &Limits) -> ArrayVec<Way, 2>
    ensures items { result.items ≡ ways_to_close classes.now End.Closed limits.now }
    ensures allowed { All (MayTake classes.now limits.now) result.items }
{
    let mut found = ArrayVec::new();
    found.push(Way::IdleIn(SLOT_COUNT - 1));
    push_if(
        &mut found,
        limits.lo[CLASSES - 1] < classes.count[CLASSES - 1],
        Way::Late(CLASS_COUNT - 1),
    );
    found
}

/// The ways in which a transmission may end as the end asks for: none is asked for by the open end, and an idle in slot 15 by the
/// idle end.
#[tactic(auto, unfolding(crate::specs::Ways::ways_to_close))]
pub fn ending_ways(classes: &Classes, end: End, limits: &Limits) -> ArrayVec<Way, 2>
    ensures items { result.items ≡ ways_to_close classes.now end limits.now }
    ensures allowed { All (MayTake classes.now limits.now) result.items }
{
    let mut found = ArrayVec::new();
    match end {
        End::Open => {}
        End::Closed => return closing_ways(classes, limits),
        End::Idle => found.push(Way::IdleIn(SLOT_COUNT - 1)),
    }
    found
}
