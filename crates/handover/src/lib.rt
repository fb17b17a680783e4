// The handover keys of source document 003, sections 4.2, 4.3 and 5 (document 02, request 2): the R0-Key under an rRK, the R1-Key under an R0-Key,
// and the R0Name. A refusal alters nothing, and nothing is derived before all tests have passed.
#![tactic(auto)]

ghost use Rattle.std.specs.Prelude.{◌≡◌, ◌++◌, ◌≤◌, length, drop};
ghost use Rattle.refusal.specs.Answers.{checked_as, answer_of};
ghost use Rattle.handover_rules.specs.Handover.{
  check33,
  check34,
  r0_check,
  r1_check,
  r0_name_check,
  r0_answer,
  r1_answer,
  r0_name_answer,
  r0_buffer,
  r1_buffer,
  r0_name_buffer,
};
ghost use Rattle.handover.specs.Internal.{two_macs};

mod texts; // what is hashed

use crate::texts::{r0_text, r1_text};
use hmac_sha1::Keyed;
use refusal::{Refusal, check_room};

// The number of bytes in an rRK, in an R0-Key or R1-Key, and in an R0Name.
const RRK: usize = 64;

const KEY: usize = 32;

const NAME: usize = 16;

// The number of bytes in an AD-ID or AN-ID, and in an SPA.
const ID: usize = 16;

const SPA: usize = 6;

// 33: a key of n bytes.
fn check_key(key: &[u8], n: usize) -> Result<(), Refusal>
    ensures { checked_as result ≡ check33 n key.now }
{
    refusal::unless(key.len() == n, Refusal::HandoverKeyLength)
}

// 34: an identifier of n bytes.
fn check_identifier(id: &[u8], n: usize) -> Result<(), Refusal>
    ensures { checked_as result ≡ check34 n id.now }
{
    refusal::unless(id.len() == n, Refusal::IdentifierLength)
}

// The tests of an R0-Key, an R1-Key and an R0Name.
#[tactic(auto, unfolding(handover_rules::specs::Handover::r0_check))]
fn check_r0(rrk: &[u8], ad_id: &[u8], spa: &[u8], room: usize) -> Result<(), Refusal>
    ensures { checked_as result ≡ r0_check rrk.now ad_id.now spa.now room }
{
    check_key(rrk, RRK)?;
    check_identifier(ad_id, ID)?;
    check_identifier(spa, SPA)?;
    check_room(KEY, room)
}

#[tactic(auto, unfolding(handover_rules::specs::Handover::r1_check))]
fn check_r1(
    r0_key: &[u8],
    ad_id: &[u8],
    an_id: &[u8],
    spa: &[u8],
    room: usize,
) -> Result<(), Refusal>
    ensures { checked_as result ≡ r1_check r0_key.now ad_id.now an_id.now spa.now room }
{
    check_key(r0_key, KEY)?;
    check_identifier(ad_id, ID)?;
    check_identifier(an_id, ID)?;
    check_identifier(spa, SPA)?;
    check_room(KEY, room)
}

#[tactic(auto, unfolding(handover_rules::specs::Handover::r0_name_check))]
fn check_name(r0_key: &[u8], ad_id: &[u8], spa: &[u8], room: usize) -> Result<(), Refusal>
    ensures { checked_as result ≡ r0_name_check r0_key.now ad_id.now spa.now room }
{
    check_key(r0_key, KEY)?;
    check_identifier(ad_id, ID)?;
    check_identifier(spa, SPA)?;
    check_room(NAME, room)
}

// Two iterations of the KDF under a key: the 32 bytes at the start of out are those of the MACs of the text, which begins with 1, and of the text
// with 2 in its place.
fn derive(keyed: Keyed, text: &mut [u8], out: &mut [u8])
    requires in_bounds { 1 ≤ length text.old }
    requires in_bounds_2 { 32 ≤ length out.old }
    ensures { out.new ≡ two_macs keyed.inner keyed.outer text.old ++ drop 32 out.old }
{
    let first = keyed.mac_of(text);
    slices::copy(&first, out);
    text[0] = 2;
    let second = keyed.mac_of(text);
    slices::copy(&second[..12], &mut out[20..]);
}

// Writes the R0-Key of an access domain and a supplicant under an rRK: 32 bytes at the start of out.
#[tactic(auto, unfolding(handover_rules::specs::Handover::r0_answer, handover_rules::specs::Handover::r0_buffer))]
pub fn r0_key(rrk: &[u8], ad_id: &[u8], spa: &[u8], out: &mut [u8]) -> Result<usize, Refusal>
    ensures answer { answer_of result ≡ r0_answer rrk.now ad_id.now spa.now (length out.old) }
    ensures buffer { out.new ≡ r0_buffer rrk.now ad_id.now spa.now out.old }
{
    check_r0(rrk, ad_id, spa, out.len())?;
    let mut text = r0_text(ad_id, spa);
    derive(Keyed::new(&rrk[..KEY]), &mut text, out);
    Ok(KEY)
}

// Writes the R1-Key of an access node and a supplicant under an R0-Key: 32 bytes at the start of out.
#[tactic(auto, unfolding(handover_rules::specs::Handover::r1_answer, handover_rules::specs::Handover::r1_buffer))]
pub fn r1_key(
    r0_key: &[u8],
    ad_id: &[u8],
    an_id: &[u8],
    spa: &[u8],
    out: &mut [u8],
) -> Result<usize, Refusal>
    ensures answer { answer_of result ≡ r1_answer r0_key.now ad_id.now an_id.now spa.now (length out.old) }
    ensures buffer { out.new ≡ r1_buffer r0_key.now ad_id.now an_id.now spa.now out.old }
{
    check_r1(r0_key, ad_id, an_id, spa, out.len())?;
    let mut text = r1_text(ad_id, an_id, spa);
    derive(Keyed::new(r0_key), &mut text, out);
    Ok(KEY)
}

// Writes the R0Name of an R0-Key: 16 bytes at the start of out.
#[tactic(auto, unfolding(handover_rules::specs::Handover::r0_name_answer, handover_rules::specs::Handover::r0_name_buffer))]
pub fn r0_name<'a>(
    r0_key: &'a [u8],
    ad_id: &'a [u8],
    spa: &'a [u8],
    out: &mut [u8],
) -> Result<usize, Refusal>
    ensures answer { answer_of result ≡ r0_name_answer r0_key.now ad_id.now spa.now (length out.old) }
    ensures buffer { out.new ≡ r0_name_buffer r0_key.now ad_id.now spa.now out.old }
{
    check_name(r0_key, ad_id, spa, out.len())?;
    let hash = sha256::digest_of_parts(&[r0_key, b"R0 Key Name", ad_id, spa]);
    slices::copy(&hash[..NAME], out);
    Ok(NAME)
}
