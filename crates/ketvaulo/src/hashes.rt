// The exported functions: SHA-256 and HMAC-SHA-256. Nothing is hashed where there is no room for the digest.
ghost use Rattle.std.specs.Prelude.{◌≡◌, length};
ghost use Rattle.refusal.specs.Answers.{answer_of};
ghost use Rattle.fips180.specs.Sha256.{sha256};
ghost use Rattle.hmac.specs.Rfc2104.{hmac_sha256};
ghost use Rattle.outcome.specs.Outcomes.{outcome_of};
ghost use Rattle.ketvaulo.specs.Hashes.{digest_answer, digest_buffer};

use outcome::Outcome;
use refusal::{Refusal, check_room};
use sha256::Sha256;

// Puts the digest of a message at the start of a buffer that has room for it.
#[tactic(auto, unfolding(crate::specs::Hashes::digest_answer, crate::specs::Hashes::digest_buffer))]
fn put_sha256(message: &[u8], out: &mut [u8]) -> Result<usize, Refusal>
    ensures answer { answer_of result ≡ digest_answer (length out.old) }
    ensures buffer { out.new ≡ digest_buffer (sha256 message.now) out.old }
{
    check_room(Sha256::DIGEST, out.len())?;
    refusal::put(&sha256::digest(message), out)
}

// Puts the MAC of a message under a key at the start of a buffer that has room for it.
#[tactic(auto, unfolding(crate::specs::Hashes::digest_answer, crate::specs::Hashes::digest_buffer))]
fn put_hmac_sha256(key: &[u8], message: &[u8], out: &mut [u8]) -> Result<usize, Refusal>
    ensures answer { answer_of result ≡ digest_answer (length out.old) }
    ensures buffer { out.new ≡ digest_buffer (hmac_sha256 key.now message.now) out.old }
{
    check_room(Sha256::DIGEST, out.len())?;
    refusal::put(&hmac::mac(key, message), out)
}

// FIPS 180-4: the SHA-256 digest of a message, 32 bytes.
#[unsafe(no_mangle)]
pub extern "C" fn kv_sha256(message: &[u8], out: &mut [u8]) -> Outcome
    ensures answer { result ≡ outcome_of (digest_answer (length out.old)) }
    ensures buffer { out.new ≡ digest_buffer (sha256 message.now) out.old }
{
    put_sha256(message, out).into()
}

// RFC 2104: the HMAC-SHA-256 of a message under a key, 32 bytes.
#[unsafe(no_mangle)]
pub extern "C" fn kv_hmac_sha256(key: &[u8], message: &[u8], out: &mut [u8]) -> Outcome
    ensures answer { result ≡ outcome_of (digest_answer (length out.old)) }
    ensures buffer { out.new ≡ digest_buffer (hmac_sha256 key.now message.now) out.old }
{
    put_hmac_sha256(key, message, out).into()
}
