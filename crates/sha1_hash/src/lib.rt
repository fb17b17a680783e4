// SHA-1 (FIPS 180-4): the instance of the hash of the crate `secure_hash` with SHA-1's first hash value, compression and digest.
#![tactic(auto)]

ghost use Rattle.std.specs.Prelude.{◌≡◌, ◌/◌, length};
ghost use Rattle.std.proofs.Common.{rules};
ghost use Rattle.fips180.specs.Sha1 as Fips180;
ghost use Rattle.fips180.proofs.Digests.{sha1_fits};
ghost use Rattle.sha1_hash.specs.Stream.{digest_after};

use secure_hash::Hash;

// The number of bytes in a block, and in a digest.
pub const BLOCK: usize = secure_hash::BLOCK;

pub const DIGEST: usize = 20;

// The first hash value (5.3.1).
const H0: [u32; 5] = [0x67452301, 0xefcdab89, 0x98badcfe, 0x10325476, 0xc3d2e1f0];

// SHA-1, as a type that names the hash.
#[derive(Clone, Copy)]
pub struct Sha1;

// A hash in progress.
pub type Progress = secure_hash::Progress<Sha1, 5, 20>;

impl Hash<5, 20> for Sha1 {
    ghost first = { Fips180.H0 };

    ghost compress = { Fips180.compress };

    ghost written = { Fips180.digest };

    fn first_value() -> [u32; 5]
        ensures { result ≡ Fips180.H0 }
    {
        H0
    }

    fn compress_blocks(value: &mut [u32; 5], message: &[u8])
        ensures { value.new ≡ Fips180.blocks (length message.now / 64) value.old message.now }
    {
        sha1_block::compress_blocks(value, message);
    }

    fn to_digest(value: [u32; 5]) -> [u8; DIGEST]
        ensures { result ≡ Fips180.digest value }
    {
        secure_hash::to_bytes(value)
    }

    ghost digest_fits = { sha1_fits };

    ghost sizes_fit = { Prim.search rules };
}

// The digest of a block, of which only the hash value is given, and of a message after it. HMAC's two hashes take theirs in parts, by
// `digest_after` of `secure_hash`.
pub fn digest_after(value: [u32; 5], message: &[u8]) -> [u8; DIGEST]
    ensures { result ≡ digest_after value message.now }
{
    Progress::after(value).finish_with(&[message])
}

// The hash value after the whole blocks of a message, from the first one.
pub fn value_after(message: &[u8]) -> [u32; 5]
    ensures { result ≡ Fips180.blocks (length message.now / 64) Fips180.H0 message.now }
{
    let mut value = Sha1::first_value();
    Sha1::compress_blocks(&mut value, message);
    value
}

// The hash of a message.
pub fn digest(message: &[u8]) -> [u8; DIGEST]
    ensures { result ≡ Fips180.sha1 message.now }
{
    secure_hash::digest::<Sha1, 5, 20>(message)
}
