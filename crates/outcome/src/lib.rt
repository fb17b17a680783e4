// What the calls return to C: the structs of include/ketvaulo.h, each made `From` the answer of the function that does the work. Here is
// `kv_outcome`, which most calls return; a module has the struct of each family that has one of its own.
#![tactic(auto)]

pub mod areas;
pub mod comparisons;
pub mod key_attributes;
pub mod negotiations;
pub mod slot_tables;

ghost use Rattle.std.specs.Prelude.{◌≡◌, ◌%◌, ◌^◌};
ghost use Rattle.refusal.specs.Answers.{reason_of, answer_of, checked_as};
ghost use Rattle.outcome.specs.Outcomes.{outcome_of, accepted_outcome, refused_outcome, check_outcome};

use refusal::Refusal;

// What a call returns to C: 0 and what an accepted call answers, or the refusal's number and the place that it carries, which is 0 where it
// carries none.
#[repr(C)]
#[derive(Clone, Copy)]
pub struct Outcome {
    pub refusal: u32,
    pub value: u64,
}

// The low 32 bits of a number.
pub(crate) fn low(n: usize) -> u32
    ensures { result ≡ n % 2 ^ 32 }
{
    (n as u64 % 0x1_0000_0000) as u32
}

// Acceptance, for C.
pub(crate) fn accepted(n: u64) -> Outcome
    ensures { result ≡ accepted_outcome n }
{
    Outcome {
        refusal: 0,
        value: n,
    }
}

// A refusal, for C.
impl From<Refusal> for Outcome {
    ghost from_gives = { λ why outcome. outcome ≡ refused_outcome (reason_of why) };

    fn from(why: Refusal) -> Outcome {
        Outcome {
            refusal: why.number(),
            value: why.place().unwrap_or(0) as u64,
        }
    }
}

// The answer of a call, for C.
impl From<Result<usize, Refusal>> for Outcome {
    ghost from_gives = { λ answer outcome. outcome ≡ outcome_of (answer_of answer) };

    fn from(answer: Result<usize, Refusal>) -> Outcome {
        match answer {
            Ok(n) => accepted(n as u64),
            Err(why) => why.into(),
        }
    }
}

// The answer of a call that only tests, for C: 0 where all tests pass.
impl From<Result<(), Refusal>> for Outcome {
    ghost from_gives = { λ check outcome. outcome ≡ check_outcome (checked_as check) };

    fn from(check: Result<(), Refusal>) -> Outcome {
        match check {
            Ok(()) => accepted(0),
            Err(why) => why.into(),
        }
    }
}
