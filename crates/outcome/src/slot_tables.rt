// How C names a parent, and what the calls that put and drop return to C. The slots are passed by value, and come back with the answer.
ghost use Rattle.std.specs.Prelude.{◌≡◌};
ghost use Rattle.outcome.specs.SlotTables.{parent_for};

use slot_rules::Slots;

// What a put and a drop return to C: 0 and the slot's number or how many went, or the refusal's number and 0; and the slots after the call.
#[repr(C)]
#[derive(Clone, Copy)]
pub struct SlotsOutcome {
    pub refusal: u32,
    pub value: u64,
    pub slots: Slots,
}

// A parent by its number in C; KV_NO_PARENT is none.
pub fn parent_for(number: u64) -> Option<u64>
    ensures { result ≡ parent_for number }
{
    if number == u64::MAX {
        None
    } else {
        Some(number)
    }
}
