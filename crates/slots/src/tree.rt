// Parents of live keys (document 02, request 13): the tests of a parent, and the slots that go with a slot. A step goes from a live slot to its
// parent.
ghost use Rattle.std.specs.Prelude.{◌≡◌, true};
ghost use Rattle.refusal.specs.Checks.{◌and_then◌};
ghost use Rattle.refusal.specs.Answers.{checked_as};
ghost use Rattle.slot_rules.specs.Table.{is_live, word_gone};
ghost use Rattle.slot_rules.specs.Calls.{check48, check49};
ghost use Rattle.slot_rules.specs.Stored.{Fits, table_of, parent_of, gone_with};
ghost use Rattle.slots.specs.Internal.{up_in, root_in, root_within_two_in, step_in, HasSteps, reaches_by};

use crate::bits::has_bit;
use refusal::{Refusal, unless};
use slot_rules::Slots;

// ---- the tests of a parent

// The parent that a byte holds.
fn parent_in(byte: u8) -> Option<u64>
    ensures { result ≡ parent_of byte }
{
    if byte == 255 {
        None
    } else {
        Some(u64::from(byte))
    }
}

// One step up: the parent of a live slot, and none of a free one or where there is no slot.
fn up(slots: &Slots, place: Option<u64>) -> Option<u64>
    ensures { result ≡ up_in slots.now place }
{
    let s = place?;
    if has_bit(slots.taken, s) {
        parent_in(slots.parents[s as usize])
    } else {
        None
    }
}

// Whether a place is a live slot that has no parent.
fn is_root(slots: &Slots, place: Option<u64>) -> bool
    ensures { result ≡ root_in slots.now place }
{
    match place {
        None => false,
        Some(s) => has_bit(slots.taken, s) && slots.parents[s as usize] == 255,
    }
}

// Whether no step, one or two from a place come to a root.
#[tactic(auto, unfolding(crate::specs::Internal::root_within_two_in))]
fn root_within_two(slots: &Slots, place: Option<u64>) -> bool
    ensures { result ≡ root_within_two_in slots.now place }
{
    let a = up(slots, place);
    let b = up(slots, a);
    is_root(slots, place) || (is_root(slots, a) || is_root(slots, b))
}

// The tests of a parent: it is none or live, and a root is near.
pub(crate) fn check_parent(slots: &Slots, parent: Option<u64>) -> Result<(), Refusal>
    requires { Fits slots.now }
    ensures { checked_as result ≡ (check48 (table_of slots.now) parent and_then check49 (table_of slots.now) parent) }
{
    match parent {
        None => Ok(()),
        Some(p) => {
            unless(has_bit(slots.taken, p), Refusal::ParentNotLive)?;
            unless(root_within_two(slots, parent), Refusal::TooDeep)
        }
    }
}

// ---- the slots that go with a slot

// The steps of all slots, so that the many that a drop makes ask for no bit: the byte of a live slot's parent, and 255 for a free slot.
fn all_steps(taken: u64, parents: &[u8; 64]) -> [u8; 64]
    ensures { HasSteps result taken parents.now }
{
    let mut steps = [255; 64];
    let mut left = taken;
    for s in 0..64 {
        steps[s] = if left % 2 == 1 { parents[s] } else { 255 };
        left /= 2;
    }
    steps
}

// One step up from slot s.
fn step_in(steps: &[u8; 64], s: u8) -> u8
    ensures { result ≡ step_in steps.now s }
{
    if s < 64 { steps[usize::from(s)] } else { 255 }
}

// Whether no step, one, two or three from slot s come to slot n.
#[tactic(auto, unfolding(crate::specs::Internal::reaches_by))]
fn reaches(steps: &[u8; 64], n: u8, s: u8) -> bool
    ensures { result ≡ reaches_by (step_in steps.now) n s }
{
    let a = step_in(steps, s);
    let b = step_in(steps, a);
    let c = step_in(steps, b);
    (s == n) | ((a == n) | ((b == n) | (c == n)))
}

// The word of the slots that reach slot n, from the highest down.
fn reaching(steps: &[u8; 64], n: u8) -> u64
    ensures { result ≡ word_gone (reaches_by (step_in steps.now) n) 0 64 }
{
    let mut word = 0;
    for s in (0..64).rev() {
        word = word * 2 + u64::from(reaches(steps, n, s));
    }
    word
}

// The word of the slots that go with a live slot. What reaches a live slot is live. The steps are made from a copy of the parents: slots that are lent
// are kept whole on the stack.
pub(crate) fn gone(slots: Slots, number: u64) -> u64
    requires { is_live (table_of slots) number ≡ true }
    ensures { result ≡ gone_with slots number }
{
    let parents = slots.parents;
    reaching(&all_steps(slots.taken, &parents), number as u8)
}
