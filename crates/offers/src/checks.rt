// The tests that several calls on offers make: 10, 11, 13 and 14 (RFC 5448 section 3.2; document 01, "Offers"). A list of offers is in the server's order of preference.
// Lists of any length may be lent, and none is copied. Every test after 10 goes through the list, so it is made only on a list that 10 passes.
ghost use Rattle.std.specs.Prelude.{◌≡◌, ◌≤◌, length};
ghost use Rattle.refusal.specs.Checks.{◌and_then◌};
ghost use Rattle.refusal.specs.Answers.{checked_as};
ghost use Rattle.offer_rules.specs.Rfc5448.{stands, repeats, is_first, check10, check11, check13, check14};

use refusal::{Refusal, in_range, unless};

// Whether the value stands in the list. Lists of offers are short, so they are searched value by value, and not by groups of them.
pub(crate) fn contains(list: &[u16], value: u16) -> bool
    ensures { result ≡ stands value list.now }
{
    list.iter().any(|other| *other == value)
}

// Whether some value of the list occurs twice.
fn repeated(list: &[u16]) -> bool
    ensures { result ≡ repeats list.now }
{
    for (i, value) in list.iter().enumerate() {
        if contains(&list[i + 1..], *value) {
            return true;
        }
    }
    false
}

// Whether the value is the first of the list.
fn is_first(value: u16, list: &[u16]) -> bool
    ensures { result ≡ is_first value list.now }
{
    list.first() == Some(&value)
}

// The tests of every list of offers: 10, then 11 where 10 passes.
pub(crate) fn check_offers(offers: &[u16]) -> Result<(), Refusal>
    ensures { checked_as result ≡ (check10 offers.now and_then check11 offers.now) }
{
    unless(in_range(1, 16, offers.len()), Refusal::OfferCount)?;
    unless(!repeated(offers), Refusal::RepeatedOffer)
}

// The tests of a list of offers and the reply to it, which the server and the peer on the renewed list share: 10, 11, 13, 14.
pub(crate) fn check_reply(offers: &[u16], reply: u16) -> Result<(), Refusal>
    ensures { checked_as result ≡ (check10 offers.now and_then check11 offers.now and_then check13 offers.now reply and_then check14 offers.now reply) }
{
    check_offers(offers)?;
    unless(!is_first(reply, offers), Refusal::ReplyIsFirst)?;
    unless(contains(offers, reply), Refusal::ReplyNotOffered)
}
