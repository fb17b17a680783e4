// The exported functions: AT_KDF offers.
ghost use Rattle.std.specs.Prelude.{◌≡◌};
ghost use Rattle.outcome.specs.Outcomes.{outcome_of};
ghost use Rattle.offer_rules.specs.Answers.{first_round, server_answer, server_buffer, renewed_answer};
ghost use Rattle.outcome.specs.Negotiations.{first_round_outcome, renewed_outcome};

use outcome::Outcome;
use outcome::negotiations::FirstRoundOutcome;

// RFC 5448, section 3.2: the peer's first round.
#[unsafe(no_mangle)]
pub extern "C" fn kv_choose_offer(offers: &[u16], supported: &[u16]) -> FirstRoundOutcome
    ensures { result ≡ first_round_outcome (first_round offers.now supported.now) }
{
    offers::choose(offers, supported).into()
}

// RFC 5448, section 3.2: the server, on the peer's reply.
#[unsafe(no_mangle)]
pub extern "C" fn kv_answer_offer(offers: &[u16], reply: u16, out: &mut [u16]) -> Outcome
    ensures answer { result ≡ outcome_of (server_answer offers.now reply out.old) }
    ensures buffer { out.new ≡ server_buffer offers.now reply out.old }
{
    offers::answer(offers, reply, out).into()
}

// RFC 5448, section 3.2: the peer, on the renewed list.
#[unsafe(no_mangle)]
pub extern "C" fn kv_check_renewed(original: &[u16], choice: u16, renewed: &[u16]) -> Outcome
    ensures { result ≡ renewed_outcome (renewed_answer original.now choice renewed.now) }
{
    offers::recheck(original, choice, renewed).into()
}
