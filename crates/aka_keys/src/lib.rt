// The keys of EAP-AKA' (document 02, request 11): from CK and IK of a SIM to CK' and IK' (3GPP TS 33.402, Annex A.2), and on to K_encr, K_aut,
// K_re, MSK and EMSK (RFC 5448, section 3.3). The texts are hashed in parts. Only keys of 16 bytes are joined, to those of 32 that the two
// derivations take.
#![tactic(auto)]

ghost use Rattle.std.specs.Prelude.{◌≡◌, ◌++◌, length};
ghost use Rattle.refusal.specs.Answers.{checked_as, answer_of, answer_to, buffer_after};
ghost use Rattle.hmac.specs.Rfc2104.{hmac_sha256};
ghost use Rattle.prf_plus.specs.PrfPlus.{prf_plus_of, expand_check};
ghost use Rattle.aka_keys.specs.Rfc5448.{expansion_key, expansion_text, input_check, aka_answer, aka_buffer};

use refusal::{Refusal, check_room, in_range, unless};

// The function code of the derivation of CK' and IK'.
const FC: u8 = 0x20;

// The bytes of CK, of IK, and of the keys derived from them.
const KEY: usize = 16;

// The bytes of all five keys.
const MATERIAL: usize = 208;

// The tests that come before that of the room: 43, 44, 45.
#[tactic(auto, unfolding(crate::specs::Rfc5448::input_check))]
fn check_inputs(
    ck: &[u8],
    ik: &[u8],
    name: &[u8],
    sqn_xor_ak: &[u8],
    identity: &[u8],
) -> Result<(), Refusal>
    ensures { checked_as result ≡ input_check ck.now ik.now name.now sqn_xor_ak.now identity.now }
{
    let fixed = (ck.len() == KEY) & (ik.len() == KEY) & (sqn_xor_ak.len() == 6);
    unless(fixed, Refusal::AkaInputLength)?;
    unless(in_range(0, 1016, name.len()), Refusal::NetworkNameLength)?;
    unless(in_range(1, 255, identity.len()), Refusal::IdentityLength)
}

// Two keys of 16 bytes, one after the other.
fn joined(first: &[u8], second: &[u8]) -> [u8; 2 * KEY]
    requires first_len { length first.now ≡ 16 }
    requires second_len { length second.now ≡ 16 }
    ensures { result ≡ first.now ++ second.now }
{
    let mut keys = [0; 2 * KEY];
    slices::copy(first, &mut keys);
    slices::copy_at(second, KEY, &mut keys);
    keys
}

// The key of the expansion: IK', then CK'. The MAC under CK, then IK, is CK', then IK'. It is not inlined, so that what it lends and derives leaves
// the stack before the expansion.
#[inline(never)]
#[tactic(auto, unfolding(crate::specs::Rfc5448::expansion_key, crate::specs::Ts33402::ck_prime, crate::specs::Ts33402::ik_prime, crate::specs::Ts33402::prime_keys, crate::specs::Ts33402::prime_text))]
fn expansion_key(ck: &[u8], ik: &[u8], name: &[u8], sqn_xor_ak: &[u8]) -> [u8; 2 * KEY]
    requires ck_len { length ck.now ≡ 16 }
    requires ik_len { length ik.now ≡ 16 }
    ensures { result ≡ expansion_key ck.now ik.now name.now sqn_xor_ak.now }
{
    let key = joined(ck, ik);
    let size = slices::be16(name.len());
    let keys = hmac::mac_of_parts(&key, &[&[FC], name, &size, sqn_xor_ak, &[0, 6]]);
    joined(&keys[KEY..], &keys[..KEY])
}

// The expansion to the 208 bytes of the five keys. It is a function of its own, so that what it lends shares the stack with what the key's
// derivation lent.
#[tactic(auto, unfolding(crate::specs::Rfc5448::expansion_text))]
fn expanded(key: &[u8], identity: &[u8], out: &mut [u8]) -> Result<usize, Refusal>
    ensures answer { answer_of result ≡ answer_to (expand_check 208 (length out.old)) 208 }
    ensures buffer { out.new ≡ buffer_after (expand_check 208 (length out.old)) 208 (prf_plus_of hmac_sha256 key.now (expansion_text identity.now) 208) out.old }
{
    prf_plus::expand(key, &[b"EAP-AKA'", identity], MATERIAL, out)
}

// Writes the 208 bytes of the five keys at the start of out. Nothing is computed before all tests have passed.
#[tactic(auto, unfolding(crate::specs::Rfc5448::aka_answer, crate::specs::Rfc5448::aka_buffer, crate::specs::Rfc5448::aka_check, crate::specs::Rfc5448::key_material, crate::specs::Rfc5448::expansion_text, prf_plus::specs::PrfPlus::expand_check, refusal::specs::Checks::unless, refusal::specs::Checks::within))]
pub fn aka_keys(
    ck: &[u8],
    ik: &[u8],
    name: &[u8],
    sqn_xor_ak: &[u8],
    identity: &[u8],
    out: &mut [u8],
) -> Result<usize, Refusal>
    ensures answer { answer_of result ≡ aka_answer ck.now ik.now name.now sqn_xor_ak.now identity.now (length out.old) }
    ensures buffer { out.new ≡ aka_buffer ck.now ik.now name.now sqn_xor_ak.now identity.now out.old }
{
    check_inputs(ck, ik, name, sqn_xor_ak, identity)?;
    check_room(MATERIAL, out.len())?;
    let key = expansion_key(ck, ik, name, sqn_xor_ak);
    expanded(&key, identity, out)
}
