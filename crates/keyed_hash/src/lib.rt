// HMAC (RFC 2104), whatever its hash is; HMAC-SHA-1 and HMAC-SHA-256 are its instances. `mac` is the MAC of one message, `mac_of_parts` that of one
// that is lent in parts. A caller that has many under one key keeps the hash values after the key's two blocks in a `Keyed` (section 4): `begin` begins a
// message's hash, and `finish` comes to the MAC.
#![tactic(auto)]

ghost use Rattle.std.specs.Prelude.{◌≡◌};
ghost use Rattle.slices.specs.Parts.{joined};
ghost use Rattle.fips180.specs.Hash.{hash_by};
ghost use Rattle.fips180.specs.Stream.{started_after, finished_by};
ghost use Rattle.rfc2104.specs.Rfc2104 as Rfc2104;
ghost use Rattle.rfc2104.specs.Rfc2104.{ipad, opad};
ghost use Rattle.rfc2104.specs.Keyed.{key_value_by, hash_after_by, mac_by_values_by};
ghost use Rattle.secure_hash.specs.Stream.{progress};

use secure_hash::{BLOCK, Hash, Progress, Sizes};
use std::marker::PhantomData;

// The bytes that the key's block is masked with, for the inner hash and for the outer one.
const IPAD: u8 = 0x36;

const OPAD: u8 = 0x5c;

// A key as a block: one over a block is hashed first.
fn key_block<H: Hash<WORDS, BYTES>, const WORDS: usize, const BYTES: usize>(
    key: &[u8],
) -> [u8; BLOCK]
    ensures { result ≡ Rfc2104.key_block (hash_by H.compress H.first H.written) key.now }
{
    if key.len() <= Progress::<H, WORDS, BYTES>::BLOCK {
        return hmac_block::filled(key);
    }
    let short = secure_hash::digest::<H, WORDS, BYTES>(key);
    hmac_block::filled(&short)
}

// The hash value after the key's block masked by a pad.
fn key_value<H: Hash<WORDS, BYTES>, const WORDS: usize, const BYTES: usize>(
    block: [u8; BLOCK],
    pad: u8,
) -> [u32; WORDS]
    ensures { result ≡ H.compress H.first (Rfc2104.masked block pad) }
{
    secure_hash::of_block::<H, WORDS, BYTES>(hmac_block::masked(block, pad))
}

// A key as it is kept for many messages: the hash values that the inner and the outer hash start with.
#[derive(Clone, Copy)]
pub struct Keyed<H, const WORDS: usize, const BYTES: usize> {
    pub inner: [u32; WORDS],
    outer: [u32; WORDS],
    hash: PhantomData<H>,
}

impl<H: Hash<WORDS, BYTES>, const WORDS: usize, const BYTES: usize> Keyed<H, WORDS, BYTES> {
    // The hash values of a key. The key's block is not kept beside them.
    pub fn new(key: &[u8]) -> Self
        ensures inner { result.inner ≡ key_value_by H.compress H.first H.written key.now ipad }
        ensures outer { result.outer ≡ key_value_by H.compress H.first H.written key.now opad }
    {
        let block = key_block::<H, WORDS, BYTES>(key);
        let inner = key_value::<H, WORDS, BYTES>(block, IPAD);
        let outer = key_value::<H, WORDS, BYTES>(block, OPAD);
        Keyed {
            inner,
            outer,
            hash: PhantomData,
        }
    }

    // The inner hash of a message, with nothing of the message absorbed yet.
    pub fn begin(&self) -> Progress<H, WORDS, BYTES>
        ensures { progress result ≡ started_after self.now.inner }
    {
        Progress::after(self.inner)
    }

    // The outer hash of an inner digest.
    #[tactic(auto, unfolding(rfc2104::specs::Keyed::hash_after_by))]
    fn outer_digest(&self, inner: &[u8]) -> [u8; BYTES]
        ensures { result ≡ hash_after_by H.compress H.written self.now.outer inner.now }
    {
        secure_hash::digest_after::<H, WORDS, BYTES>(self.outer, &[inner])
    }

    // The MAC of a message, from its inner hash, which has absorbed all of the message.
    pub fn finish(&self, inner: &Progress<H, WORDS, BYTES>) -> [u8; BYTES]
        ensures { result ≡ hash_after_by H.compress H.written self.now.outer (finished_by H.compress H.written (progress inner.now)) }
    {
        let digest = inner.finish();
        self.outer_digest(&digest)
    }

    // The MAC of a message that is lent in parts.
    #[tactic(auto, unfolding(rfc2104::specs::Keyed::hash_after_by, rfc2104::specs::Keyed::mac_by_values_by))]
    pub fn mac_of_parts(&self, parts: &[&[u8]]) -> [u8; BYTES]
        ensures { result ≡ mac_by_values_by H.compress H.written self.now.inner self.now.outer (joined parts.now) }
    {
        let digest = secure_hash::digest_after::<H, WORDS, BYTES>(self.inner, parts);
        self.outer_digest(&digest)
    }

    // The MAC of a message.
    pub fn mac_of(&self, message: &[u8]) -> [u8; BYTES]
        ensures { result ≡ mac_by_values_by H.compress H.written self.now.inner self.now.outer message.now }
    {
        self.mac_of_parts(&[message])
    }
}

// The MAC of a message that is lent in parts, under a key that is used once.
pub fn mac_of_parts<H: Hash<WORDS, BYTES>, const WORDS: usize, const BYTES: usize>(
    key: &[u8],
    parts: &[&[u8]],
) -> [u8; BYTES]
    ensures { result ≡ Rfc2104.hmac (hash_by H.compress H.first H.written) key.now (joined parts.now) }
{
    Keyed::<H, WORDS, BYTES>::new(key).mac_of_parts(parts)
}

// The MAC of a message under a key that is used once.
pub fn mac<H: Hash<WORDS, BYTES>, const WORDS: usize, const BYTES: usize>(
    key: &[u8],
    message: &[u8],
) -> [u8; BYTES]
    ensures { result ≡ Rfc2104.hmac (hash_by H.compress H.first H.written) key.now message.now }
{
    mac_of_parts::<H, WORDS, BYTES>(key, &[message])
}
