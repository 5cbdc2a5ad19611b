ghost use Rattle.std.specs.Prelude.{◌≡◌, ◌<◌, ◌≤◌, slice_index};
ghost use Rattle.pocsag_slots.specs.declared.class.Classes.{Classes};
ghost use Rattle.pocsag_slots.specs.Loads.{AreInOrder, limits_of_all};
ghost use Rattle.pocsag_slots.specs.Ways.{limits_below, limits_from, MayTake, narrowed_limits};

use crate::class::{CLASSES, Classes, SLOTS};
use crate::way::Way;

/// Bounds on the early count of each class, and on the load of each slot.
#[derive(Clone, Copy)]
pub struct Limits {
    pub lo: [u32; CLASSES],
    pub hi: [u32; CLASSES],
    pub cap: [u32; SLOTS],
}

/// The limits that all choices are within, with a cap of so many batches for each slot.
pub fn all_limits(classes: &Classes, batches: u32) -> Limits
    ensures value { result ≡ limits_of_all classes.now batches }
    ensures ordered { AreInOrder classes.now result }
{
    Limits {
        lo: [0; CLASSES],
        hi: classes.count,
        cap: [batches; SLOTS],
    }
}

/// The limits where fewer than `m` pages of the class start early.
pub fn below_split(limits: &Limits, class: u8, m: u32) -> Limits
    requires class { class < 136 }
    requires above { slice_index limits.now.lo class < m }
    requires within { m ≤ slice_index limits.now.hi class }
    ensures value { result ≡ limits_below limits.now class m }
    ensures ordered { (k : Classes) → AreInOrder k limits.now → AreInOrder k result }
{
    let mut below = *limits;
    below.hi[class as usize] = m - 1;
    below
}

/// The limits where at least `m` pages of the class start early.
pub fn from_split(limits: &Limits, class: u8, m: u32) -> Limits
    requires class { class < 136 }
    requires above { slice_index limits.now.lo class < m }
    requires within { m ≤ slice_index limits.now.hi class }
    ensures value { result ≡ limits_from limits.now class m }
    ensures ordered { (k : Classes) → AreInOrder k limits.now → AreInOrder k result }
{
    let mut from = *limits;
    from.lo[class as usize] = m;
    from
}

/// The limits of the transmissions that take the way: at least one idle stands in the slot, so that
/// pages cover it at most `batches - 1` times, however often the way is taken; or at least one run of
/// the class starts early, or late.
pub fn narrow(classes: &Classes, limits: &Limits, way: Way, batches: u32) -> Limits
    requires batches { 0 < batches }
    requires ordered { AreInOrder classes.now limits.now }
    requires way { MayTake classes.now limits.now way }
    ensures value { result ≡ narrowed_limits classes.now limits.now way batches }
    ensures ordered { AreInOrder classes.now result }
{
    let mut narrowed = *limits;
    match way {
        Way::IdleIn(slot) => {
            let cap = narrowed.cap[slot as usize].min(batches - 1);
            narrowed.cap[slot as usize] = cap;
        }
        Way::Early(class) => {
            let lo = narrowed.lo[class as usize].max(1);
            narrowed.lo[class as usize] = lo;
        }
        Way::Late(class) => {
            let hi = narrowed.hi[class as usize].min(classes.count[class as usize] - 1);
            narrowed.hi[class as usize] = hi;
        }
    }
    narrowed
}
