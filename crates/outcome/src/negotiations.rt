// What the calls on AT_KDF offers return to C.
ghost use Rattle.std.specs.Prelude.{◌≡◌};
ghost use Rattle.offers.specs.Answers.{first_round_of, renewed_of};
ghost use Rattle.outcome.specs.Negotiations.{first_round_outcome, renewed_outcome};
ghost use Rattle.outcome.specs.Internal.{position_low};

use crate::Outcome;
use offers::FirstRound;
use refusal::Refusal;

// What the peer's first round returns to C. `ask` is 0 for Carry On and 1 for Ask; every field but the number is 0 on a refusal.
#[repr(C)]
#[derive(Clone, Copy, Default)]
pub struct FirstRoundOutcome {
    pub refusal: u32,
    pub ask: u32,
    pub value: u32,
    pub position: u32,
}

// The first round's answer, for C. A position is one of at most 16, so the low bits are all of it.
impl From<Result<FirstRound, Refusal>> for FirstRoundOutcome {
    ghost from_gives = { λ answer outcome. outcome ≡ first_round_outcome (position_low (first_round_of answer)) };

    fn from(answer: Result<FirstRound, Refusal>) -> FirstRoundOutcome {
        match answer {
            Ok(FirstRound::CarryOn(value)) => FirstRoundOutcome {
                value: u32::from(value),
                ..FirstRoundOutcome::default()
            },
            Ok(FirstRound::Ask(value, position)) => FirstRoundOutcome {
                refusal: 0,
                ask: 1,
                value: u32::from(value),
                position: crate::low(position),
            },
            Err(why) => FirstRoundOutcome {
                refusal: why.number(),
                ..FirstRoundOutcome::default()
            },
        }
    }
}

// The answer to a renewed list, for C: the choice, or a refusal.
impl From<Result<u16, Refusal>> for Outcome {
    ghost from_gives = { λ answer outcome. outcome ≡ renewed_outcome (renewed_of answer) };

    fn from(answer: Result<u16, Refusal>) -> Outcome {
        match answer {
            Ok(choice) => crate::accepted(u64::from(choice)),
            Err(why) => why.into(),
        }
    }
}
