// What the calls that read an attribute area return to C.
ghost use Rattle.std.specs.Prelude.{◌≡◌};
ghost use Rattle.area.specs.Area.{area_answer_of};
ghost use Rattle.outcome.specs.Areas.{area_outcome};
ghost use Rattle.outcome.specs.Internal.{count_low};

use crate::Outcome;
use area::Offered;
use refusal::Refusal;

// What reading an area returns to C. `at` is the place that a refusal carries, and 0 where it carries none; every other field but the
// number is 0 on a refusal.
#[repr(C)]
#[derive(Clone, Copy, Default)]
pub struct AreaOutcome {
    pub refusal: u32,
    pub offers: u32,
    pub at: u64,
    pub name_at: u64,
    pub name_len: u64,
    pub same_name: u32,
}

// What reading an area answers, for C. An area has at most 17 offers, so the low bits are all of their count.
#[tactic(auto, using(crate::proofs::Flags::as_flag))]
impl From<Result<Offered, Refusal>> for AreaOutcome {
    ghost from_gives = { λ answer outcome. outcome ≡ area_outcome (count_low (area_answer_of answer)) };

    fn from(answer: Result<Offered, Refusal>) -> AreaOutcome {
        match answer {
            Ok(found) => AreaOutcome {
                refusal: 0,
                offers: crate::low(found.count),
                at: 0,
                name_at: found.name_at as u64,
                name_len: found.name_len as u64,
                same_name: u32::from(found.same_name),
            },
            Err(why) => {
                let refused = Outcome::from(why);
                AreaOutcome {
                    refusal: refused.refusal,
                    at: refused.value,
                    ..AreaOutcome::default()
                }
            }
        }
    }
}
