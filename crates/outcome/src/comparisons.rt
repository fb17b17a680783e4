// What the call that compares two bundles returns to C.
ghost use Rattle.std.specs.Prelude.{◌≡◌};
ghost use Rattle.bundle_compare.specs.Answers.{answer_in, counts_in};
ghost use Rattle.outcome.specs.Comparisons.{comparison_outcome};

use bundle_compare::Counts;
use refusal::Refusal;

// What a comparison returns to C: the counts of the list, kind by kind. Every field but the number is 0 on a refusal.
#[repr(C)]
#[derive(Clone, Copy, Default)]
pub struct Comparison {
    pub refusal: u32,
    pub only_first: u32,
    pub changed: u32,
    pub only_second: u32,
}

// What a comparison answers, for C.
impl From<Result<Counts, Refusal>> for Comparison {
    ghost from_gives = { λ answer outcome. outcome ≡ comparison_outcome (answer_in answer) (counts_in answer) };

    fn from(answer: Result<Counts, Refusal>) -> Comparison {
        match answer {
            Ok(counts) => Comparison {
                refusal: 0,
                only_first: counts.only_first,
                changed: counts.changed,
                only_second: counts.only_second,
            },
            Err(why) => Comparison {
                refusal: why.number(),
                ..Comparison::default()
            },
        }
    }
}
