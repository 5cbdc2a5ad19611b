ghost use Rattle.std.specs.Prelude.{◌≡◌, ◌≢◌, ℕ, ◌+◌, ◌*◌, ◌^◌, ◌<◌, ◌≤◌, IfErr, IfNone, IfOk, IfSome, length, OnOk, slice_index};
ghost use Rattle.pocsag_slots.specs.Loads.{AreInOrder, IsAdmitted, IsWithin, Overloads};
ghost use Rattle.pocsag_slots.specs.Sums.{IsSet};
ghost use Rattle.pocsag_flow.specs.Choices.{IsBelowLeast, overload, set_of};
ghost use Rattle.pocsag_flow.specs.Search.{IsLoaded, same_slot};

use crate::fault::ChooseFault;
use crate::network::{Network, Progress};
use crate::way::leave;
use pocsag_slots::{CLASSES, Choice, Classes, Limits, SLOTS, loads, with_member};

/// A choice of starts within the limits that loads no slot above its cap, or a set of slots that every
/// choice within the limits loads above the sum of their caps.
///
/// It begins with all runs early, as far as the limits let them.
pub fn choose(classes: &Classes, limits: &Limits) -> Result<Choice, ChooseFault>
    requires { AreInOrder classes.now limits.now }
    ensures admitted { IfOk result (λ choice. IsAdmitted classes.now limits.now (slice_index choice.early)) }
    ensures set { IfErr result (λ fault. IsSet (set_of fault)) }
    ensures overloads { IfErr result (λ fault. Overloads classes.now limits.now (set_of fault)) }
    ensures least { IfErr result (λ fault. IsBelowLeast classes.now limits.now (set_of fault)) }
{
    choose_within(classes, limits, &Choice { early: limits.hi })
}

/// The same. The given choice is a hint for speed: the nearer it is to an admitted one, the sooner the call returns.
pub fn choose_from(
    classes: &Classes,
    limits: &Limits,
    start: &Choice,
) -> Result<Choice, ChooseFault>
    requires { AreInOrder classes.now limits.now }
    ensures admitted { IfOk result (λ choice. IsAdmitted classes.now limits.now (slice_index choice.early)) }
    ensures set { IfErr result (λ fault. IsSet (set_of fault)) }
    ensures overloads { IfErr result (λ fault. Overloads classes.now limits.now (set_of fault)) }
    ensures least { IfErr result (λ fault. IsBelowLeast classes.now limits.now (set_of fault)) }
{
    let choice = clamped(limits, start);
    choose_within(classes, limits, &choice)
}

// The same of a choice that is within the limits.
fn choose_within(classes: &Classes, limits: &Limits, within: &Choice) -> Result<Choice, ChooseFault>
    requires ordered { AreInOrder classes.now limits.now }
    requires within { IsWithin limits.now (slice_index within.now.early) }
    ensures admitted { IfOk result (λ choice. IsAdmitted classes.now limits.now (slice_index choice.early)) }
    ensures set { IfErr result (λ fault. IsSet (set_of fault)) }
    ensures overloads { IfErr result (λ fault. Overloads classes.now limits.now (set_of fault)) }
    ensures least { IfErr result (λ fault. IsBelowLeast classes.now limits.now (set_of fault)) }
{
    let mut counted = loads(classes, within);
    let mut search = Progress {
        early: within.early,
        reached: 0,
        end: 0,
    };
    while let Some(slot) = overfull(&counted, limits) {
        move_load(classes, limits, &mut counted, &mut search, slot)?;
    }
    Ok(Choice {
        early: search.early,
    })
}

// The choice within the limits that is nearest to the given one.
fn clamped(limits: &Limits, start: &Choice) -> Choice
    requires { (class : ℕ) → class < 136 → slice_index limits.now.lo class ≤ slice_index limits.now.hi class }
    ensures { IsWithin limits.now (slice_index result.early) }
{
    let mut early = [0; CLASSES];
    for class in 0..CLASSES {
        early[class] = start.early[class]
            .max(limits.lo[class])
            .min(limits.hi[class]);
    }
    Choice { early }
}

// The first slot that is loaded above its cap.
fn overfull(counted: &[u32; 16], limits: &Limits) -> Option<u8>
    ensures none { IfNone result ((slot : ℕ) → slot < 16 →
        slice_index counted.now slot ≤ slice_index limits.now.cap slot) }
    ensures slot { IfSome result (λ slot. slot < 16) }
    ensures some { IfSome result (λ slot. slice_index limits.now.cap slot < slice_index counted.now slot) }
{
    for slot in 0..SLOTS as u8 {
        if limits.cap[slot as usize] < counted[slot as usize] {
            return Some(slot);
        }
    }
    None
}

// Moves some of the load of the slot to one with room, which leaves less overload; or returns the set of all slots
// to which load can be moved from there.
fn move_load(
    classes: &Classes,
    limits: &Limits,
    counted: &mut [u32; 16],
    search: &mut Progress,
    slot: u8,
) -> Result<(), ChooseFault>
    requires ordered { AreInOrder classes.now limits.now }
    requires loaded { IsLoaded classes.now limits.now search.old.early counted.old }
    requires slot { slot < 16 }
    requires above { slice_index limits.now.cap slot < slice_index counted.old slot }
    ensures loaded { OnOk result (IsLoaded classes.now limits.now search.new.early counted.new) }
    ensures less { OnOk result (overload classes.now limits.now (slice_index search.new.early)
        < overload classes.now limits.now (slice_index search.old.early)) }
    ensures set { IfErr result (λ fault. IsSet (set_of fault)) }
    ensures overloads { IfErr result (λ fault. Overloads classes.now limits.now (set_of fault)) }
{
    let excess = counted[slot as usize] - limits.cap[slot as usize];
    let network = Network {
        classes,
        limits,
        loads: *counted,
    };
    search.reached = with_member(0, slot);
    search.end = slot;
    let moved = leave(&network, search, slot, excess);
    if moved == 0 {
        return Err(overload_of(search.reached));
    }
    *counted = shifted(network.loads, slot, search.end, moved);
    Ok(())
}

// The loads where so much is taken from one slot and given to another.
fn shifted(loads: [u32; 16], from: u8, to: u8, moved: u32) -> [u32; 16]
    requires from { from < 16 }
    requires to { to < 16 }
    requires apart { to ≢ from }
    requires taken { moved ≤ slice_index loads from }
    requires given { slice_index loads to + moved < 2 ^ 32 }
    ensures length { length result ≡ 16 }
    ensures loads { (slot : ℕ) → slot < 16 →
        slice_index result slot + moved * same_slot from slot ≡ slice_index loads slot + moved * same_slot to slot }
{
    let mut after = loads;
    after[from as usize] -= moved;
    after[to as usize] += moved;
    after
}

// The fault that names the set of slots.
fn overload_of(set: u16) -> ChooseFault
    ensures fault { set_of result ≡ set }
    ensures small { set < 2 ^ 16 }
{
    ChooseFault::Overload(set)
}
