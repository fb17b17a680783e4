// The exported functions: slots. Each call takes the answer and the slots apart by itself: a function for both costs two copies of the slots on the stack.
ghost use Rattle.std.specs.Prelude.{◌≡◌};
ghost use Rattle.outcome.specs.Outcomes.{outcome_of};
ghost use Rattle.slot_rules.specs.Table.{live_slot_count};
ghost use Rattle.slot_rules.specs.Calls.{put_answer, drop_answer};
ghost use Rattle.slot_rules.specs.Stored.{table_of, put_stored, drop_stored};
ghost use Rattle.outcome.specs.SlotTables.{parent_for, slots_outcome};

use outcome::Outcome;
use outcome::slot_tables::SlotsOutcome;
use slot_rules::{Name, Slots};

// Document 02, requests 12 and 13: a name is put below a parent into the lowest free slot.
#[unsafe(no_mangle)]
pub extern "C" fn kv_put_slot(slots: Slots, name: Name, parent: u64) -> SlotsOutcome
    ensures { result ≡ slots_outcome (outcome_of (put_answer (table_of slots) (parent_for parent))) (put_stored slots name (parent_for parent)) }
{
    let put = slots::put(slots, name, outcome::slot_tables::parent_for(parent));
    let Outcome { refusal, value } = put.answer.into();
    SlotsOutcome {
        refusal,
        value,
        slots: put.slots,
    }
}

// Document 02, requests 12 and 13: a slot and all that descend from it are freed.
#[unsafe(no_mangle)]
pub extern "C" fn kv_drop_slot(slots: Slots, number: u64) -> SlotsOutcome
    ensures { result ≡ slots_outcome (outcome_of (drop_answer (table_of slots) number)) (drop_stored slots number) }
{
    let dropped = slots::drop(slots, number);
    let Outcome { refusal, value } = dropped.answer.into();
    SlotsOutcome {
        refusal,
        value,
        slots: dropped.slots,
    }
}

// Document 02, request 12: the live slots are counted.
#[unsafe(no_mangle)]
pub extern "C" fn kv_live_slots(slots: Slots) -> u32
    ensures { result ≡ live_slot_count (table_of slots) }
{
    slots::live(slots)
}
