// The expansion prf+ (RFC 4306, section 2.13; document 01, "Hash, MAC and expansion"), with HMAC-SHA-256. The text S is lent in parts,
// so that no caller joins them in a buffer.
#![tactic(auto)]

ghost use Rattle.std.specs.Prelude.{◌≡◌, ◌++◌, ◌≤◌, length, drop};
ghost use Rattle.slices.specs.Parts.{joined};
ghost use Rattle.refusal.specs.Answers.{checked_as, answer_of, answer_to, buffer_after};
ghost use Rattle.hmac.specs.Rfc2104.{hmac_sha256};
ghost use Rattle.prf_plus.specs.PrfPlus.{prf_plus_of, expand_check};

use hmac::Keyed;
use refusal::Refusal;
use sha256::Sha256;

// The longest key: a block's number is a byte, from 1 on.
const LONGEST: usize = 255 * Sha256::DIGEST;

// The tests of an expansion: 5, 6.
#[tactic(auto, unfolding(crate::specs::PrfPlus::expand_check))]
fn check_expand(n: usize, room: usize) -> Result<(), Refusal>
    ensures { checked_as result ≡ expand_check n room }
{
    refusal::unless(refusal::in_range(1, LONGEST, n), Refusal::KeyLength)?;
    refusal::check_room(n, room)
}

// n bytes of the expansion at the start of out. A block is the MAC of the block before it, the text and the block's number: its hash begins
// after the key's block. It is written where the next finds it.
fn fill(key: &[u8], text: &[&[u8]], n: usize, out: &mut [u8])
    requires n_bound { n ≤ 8160 }
    requires n_in_bounds { n ≤ length out.old }
    ensures { out.new ≡ prf_plus_of hmac_sha256 key.now (joined text.now) n ++ drop n out.old }
{
    let keyed = Keyed::new(key);
    for i in 0..n.div_ceil(Sha256::DIGEST) {
        let at = i * Sha256::DIGEST;
        let before = at.saturating_sub(Sha256::DIGEST);
        let number = (i + 1) as u8;
        let mut inner = Sha256::after(keyed.inner);
        inner.absorb(&out[before..at]);
        inner.absorb_parts(text);
        inner.absorb(&[number]);
        let end = n.min(at + Sha256::DIGEST);
        slices::copy(&keyed.finish(&inner), &mut out[at..end]);
    }
}

// Expands a key to n bytes at the start of out, by a text that is lent in parts. A refusal, 5 or 6, leaves out as it was.
pub fn expand(key: &[u8], text: &[&[u8]], n: usize, out: &mut [u8]) -> Result<usize, Refusal>
    ensures answer { answer_of result ≡ answer_to (expand_check n (length out.old)) n }
    ensures buffer { out.new ≡ buffer_after (expand_check n (length out.old)) n (prf_plus_of hmac_sha256 key.now (joined text.now) n) out.old }
{
    check_expand(n, out.len())?;
    fill(key, text, n, out);
    Ok(n)
}
