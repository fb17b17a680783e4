// Sixty-four slots for live keys, each free or holding the name of a key and its parent (document 02, requests 12 and 13). The slots are passed by
// value, and come back with the answer.
#![tactic(auto)]

ghost use Rattle.std.specs.Prelude.{◌≡◌, ◌<◌};
ghost use Rattle.refusal.specs.Answers.{checked_as, answer_of};
ghost use Rattle.slot_rules.specs.Table.{lowest_free, live_slot_count};
ghost use Rattle.slot_rules.specs.Calls.{put_check, put_answer, drop_answer};
ghost use Rattle.slot_rules.specs.Stored.{Fits, table_of, byte_of, put_stored, drop_stored};

mod bits; // bits of the word of taken slots
mod tree; // the tests of a parent, and what goes with a slot

use bits::{has_bit, mask};
use refusal::{Refusal, unless};
use slot_rules::{Name, Slots};
use tree::{check_parent, gone};

// What a call answers, a put the number of its slot and a drop how many went, and the slots after it. A call makes one copy of the slots, lends it to
// the function that changes it or not, and returns it at its end. A put returns it whole, and the compiler keeps it on the stack: where a refusal
// returns its argument by a way of its own, it keeps three copies there. A drop returns it field by field, and the compiler keeps of it the parents alone.
#[derive(Clone, Copy)]
pub struct After {
    pub answer: Result<usize, Refusal>,
    pub slots: Slots,
}

// How many slots are live.
pub fn live(slots: Slots) -> u32
    ensures { result ≡ live_slot_count (table_of slots) }
{
    slots.taken.count_ones()
}

// ---- a put

// The lowest free slot, 64 where none is free.
fn lowest_free(slots: &Slots) -> u32
    requires { Fits slots.now }
    ensures { result ≡ lowest_free (table_of slots.now) }
{
    (!slots.taken).trailing_zeros()
}

// The tests of a put: those of its parent, and that a slot is free.
#[tactic(auto, unfolding(slot_rules::specs::Calls::put_check))]
fn check_put(slots: &Slots, parent: Option<u64>) -> Result<(), Refusal>
    requires { Fits slots.now }
    ensures { checked_as result ≡ put_check (table_of slots.now) parent }
{
    check_parent(slots, parent)?;
    unless(lowest_free(slots) < 64, Refusal::SlotsFull)
}

// The byte that holds a parent.
fn parent_byte(parent: Option<u64>) -> u8
    requires { byte_of parent < 256 }
    ensures { result ≡ byte_of parent }
{
    match parent {
        None => 255,
        Some(p) => p as u8,
    }
}

// Name and parent stand in the lowest free slot, or the slots stay as they are.
#[tactic(auto, unfolding(slot_rules::specs::Calls::put_answer, slot_rules::specs::Stored::put_stored), using(crate::proofs::Calls::below, crate::proofs::Calls::byte_fits))]
fn put_lowest(slots: &mut Slots, name: Name, parent: Option<u64>) -> Result<usize, Refusal>
    requires { Fits slots.old }
    ensures answer { answer_of result ≡ put_answer (table_of slots.old) parent }
    ensures stored { slots.new ≡ put_stored slots.old name parent }
{
    check_put(slots, parent)?;
    let number = lowest_free(slots);
    let at = number as usize;
    slots.taken |= mask(number);
    slots.names[at] = name;
    slots.parents[at] = parent_byte(parent);
    Ok(at)
}

// A name is put below a parent into the lowest free slot; where there is no parent, the key is a root.
#[tactic(auto, using(crate::proofs::BitLaws::length_mapped))]
pub fn put(slots: Slots, name: Name, parent: Option<u64>) -> After
    ensures answer { answer_of result.answer ≡ put_answer (table_of slots) parent }
    ensures stored { result.slots ≡ put_stored slots name parent }
{
    let mut next = slots;
    let answer = put_lowest(&mut next, name, parent);
    After {
        answer,
        slots: next,
    }
}

// ---- a drop

// A live slot and all that descend from it are free, or the slots stay as they are.
#[tactic(auto, unfolding(slot_rules::specs::Calls::drop_answer, slot_rules::specs::Stored::drop_stored))]
fn drop_below(slots: &mut Slots, number: u64) -> Result<usize, Refusal>
    requires { Fits slots.old }
    ensures answer { answer_of result ≡ drop_answer (table_of slots.old) number }
    ensures stored { slots.new ≡ drop_stored slots.old number }
{
    if has_bit(slots.taken, number) {
        let word = gone(*slots, number);
        slots.taken &= !word;
        Ok(word.count_ones() as usize)
    } else {
        Err(Refusal::NoSuchSlot)
    }
}

// A slot and all that descend from it are freed. Nothing but the word of taken slots changes.
#[tactic(auto, using(crate::proofs::BitLaws::length_mapped))]
pub fn drop(slots: Slots, number: u64) -> After
    ensures answer { answer_of result.answer ≡ drop_answer (table_of slots) number }
    ensures stored { result.slots ≡ drop_stored slots number }
{
    let mut next = slots;
    let answer = drop_below(&mut next, number);
    let Slots {
        taken,
        names,
        parents,
    } = next;
    After {
        answer,
        slots: Slots {
            taken,
            names,
            parents,
        },
    }
}
