// A whole negotiation of the key derivation function between a peer and a server in which each gets what the other sent (RFC 5448 section 3.2).
#![tactic(auto)]

ghost use Rattle.std.specs.Prelude.{◌≡◌};
ghost use Rattle.offer_rules.specs.Negotiation.{negotiated, negotiated_buffer};
ghost use Rattle.offers.specs.Answers.{renewed_of};
ghost use Rattle.offer_exchange.specs.Internal.{value_named};

use offers::FirstRound;
use refusal::Refusal;

// The value that a first round names.
fn value_named(first: FirstRound) -> u16
    ensures { result ≡ value_named first }
{
    match first {
        FirstRound::CarryOn(value) => value,
        FirstRound::Ask(value, _) => value,
    }
}

// After Carry On and after a refusal the first round's answer stands. After an Ask the server writes the renewed list, and the peer checks it.
#[tactic(auto, unfolding(offer_rules::specs::Negotiation::negotiated, offer_rules::specs::Negotiation::negotiated_buffer))]
pub fn negotiate(offered: &[u16], supported: &[u16], renewed: &mut [u16]) -> Result<u16, Refusal>
    ensures answer { renewed_of result ≡ negotiated offered.now supported.now renewed.old }
    ensures buffer { renewed.new ≡ negotiated_buffer offered.now supported.now renewed.old }
{
    let first = offers::choose(offered, supported)?;
    let FirstRound::Ask(value, _) = first else {
        return Ok(value_named(first));
    };
    let count = offers::answer(offered, value, renewed)?;
    offers::recheck(offered, value, &renewed[..count])
}
