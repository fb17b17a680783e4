// The peer's calls on offers: the first round, and the check of the renewed list (RFC 5448 section 3.2; document 01, "Offers"). A list of offers is
// in the server's order of preference. Lists of any length may be lent, and none is copied.
ghost use Rattle.std.specs.Prelude.{◌≡◌, position};
ghost use Rattle.slices.specs.Same.{same_list};
ghost use Rattle.offer_rules.specs.Rfc5448.{stands, renewed_list};
ghost use Rattle.offer_rules.specs.Answers.{first_round, renewed_answer};
ghost use Rattle.offers.specs.Answers.{first_round_of, renewed_of};

use crate::checks::{check_offers, check_reply, contains};
use refusal::{Refusal, unless};

// What the peer does in the first round, where nothing is refused. Carry On and Ask are document 01's terms: the first offer is taken into use with no
// further negotiation, or a later one, with its position counted from 0, is asked of the server.
#[derive(Drop)]
pub enum FirstRound {
    CarryOn(u16),
    Ask(u16, usize),
}

// The position of the first offer that stands in the supported list.
fn first_supported(offers: &[u16], supported: &[u16]) -> Option<usize>
    ensures { result ≡ position (λ offer. stands offer supported.now) offers.now }
{
    offers.iter().position(|offer| contains(supported, *offer))
}

// The peer's first round: the first offer, in the server's order, that stands in the supported list. Order 10, 11, 12.
#[tactic(auto, unfolding(offer_rules::specs::Answers::first_round, offer_rules::specs::Rfc5448::choose_check))]
pub fn choose(offers: &[u16], supported: &[u16]) -> Result<FirstRound, Refusal>
    ensures { first_round_of result ≡ first_round offers.now supported.now }
{
    check_offers(offers)?;
    let Some(position) = first_supported(offers, supported) else {
        return Err(Refusal::NoOfferSupported);
    };
    let offer = offers[position];
    Ok(if position == 0 {
        FirstRound::CarryOn(offer)
    } else {
        FirstRound::Ask(offer, position)
    })
}

// Whether two lists are the same, value by value.
fn same_values(s: &[u16], t: &[u16]) -> bool
    ensures { result ≡ same_list s.now t.now }
{
    if s.len() != t.len() {
        return false;
    }
    let mut same = true;
    for i in 0..s.len() {
        same = same & (s[i] == t[i]);
    }
    same
}

// Whether the renewed list is the choice followed by the original.
fn is_renewal(original: &[u16], choice: u16, renewed: &[u16]) -> bool
    ensures { result ≡ same_list renewed.now (renewed_list original.now choice) }
{
    match renewed {
        [first, others @ ..] => *first == choice && same_values(others, original),
        [] => false,
    }
}

// The peer, on the renewed list: accepts its choice where the list is the choice followed by the original. Order 10, 11, 13, 14, 15.
#[tactic(auto, unfolding(offer_rules::specs::Answers::renewed_answer, offer_rules::specs::Rfc5448::renewed_check))]
pub fn recheck(original: &[u16], choice: u16, renewed: &[u16]) -> Result<u16, Refusal>
    ensures { renewed_of result ≡ renewed_answer original.now choice renewed.now }
{
    check_reply(original, choice)?;
    unless(is_renewal(original, choice, renewed), Refusal::RenewedList)?;
    Ok(choice)
}
