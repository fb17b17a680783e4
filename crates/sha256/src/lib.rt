// SHA-256 (FIPS 180-4): the instance of the hash of the crate `secure_hash` with SHA-256's first hash value, compression and digest.
#![tactic(auto)]

ghost use Rattle.std.specs.Prelude.{◌≡◌, ◌/◌, ◌++◌, length};
ghost use Rattle.slices.specs.Parts.{joined};
ghost use Rattle.fips180.specs.Sha256 as Fips180;
ghost use Rattle.fips180.specs.Stream.{started_after};
ghost use Rattle.fips180.proofs.Digests.{sha256_fits};
ghost use Rattle.std.proofs.Common.{rules};
ghost use Rattle.secure_hash.specs.Stream.{progress};
ghost use Rattle.sha256.specs.Stream.{started};

use secure_hash::Hash;

// The first hash value (5.3.3).
pub const H0: [u32; 8] = [
    0x6a09e667, 0xbb67ae85, 0x3c6ef372, 0xa54ff53a, 0x510e527f, 0x9b05688c, 0x1f83d9ab, 0x5be0cd19,
];

// SHA-256, as a type that names the hash.
#[derive(Clone, Copy)]
pub struct Sha256;

// A hash in progress.
pub type Progress = secure_hash::Progress<Sha256, 8, 32>;

impl Hash<8, 32> for Sha256 {
    ghost first = { Fips180.H0 };

    ghost compress = { Fips180.compress };

    ghost written = { Fips180.digest };

    fn first_value() -> [u32; 8]
        ensures { result ≡ Fips180.H0 }
    {
        H0
    }

    fn compress_blocks(value: &mut [u32; 8], message: &[u8])
        ensures { value.new ≡ Fips180.blocks (length message.now / 64) value.old message.now }
    {
        sha256_block::compress_blocks(value, message);
    }

    fn to_digest(value: [u32; 8]) -> [u8; 32]
        ensures { result ≡ Fips180.digest value }
    {
        secure_hash::to_bytes(value)
    }

    ghost digest_fits = { sha256_fits };

    ghost sizes_fit = { Prim.search rules };
}

impl Sha256 {
    pub const BLOCK: usize = secure_hash::BLOCK;

    pub const DIGEST: usize = 32;

    // The hash of nothing yet.
    pub fn new() -> Progress
        ensures { progress result ≡ started }
    {
        Progress::new()
    }

    // The hash after one block, of which only the hash value is given: HMAC keeps that of a key and starts each message with it.
    pub fn after(value: [u32; 8]) -> Progress
        ensures { progress result ≡ started_after value }
    {
        Progress::after(value)
    }
}

// The hash value after one block.
pub fn of_block(block: [u8; Sha256::BLOCK]) -> [u32; 8]
    ensures { result ≡ Fips180.compress Fips180.H0 block }
{
    secure_hash::of_block::<Sha256, 8, 32>(block)
}

// The hash of a text that is lent in parts.
pub fn digest_of_parts(parts: &[&[u8]]) -> [u8; Sha256::DIGEST]
    ensures { result ≡ Fips180.sha256 (joined parts.now) }
{
    secure_hash::digest_of_parts::<Sha256, 8, 32>(parts)
}

// The hash of two parts, one after the other.
pub fn digest_of_two(first: &[u8], second: &[u8]) -> [u8; Sha256::DIGEST]
    ensures { result ≡ Fips180.sha256 (first.now ++ second.now) }
{
    digest_of_parts(&[first, second])
}

// The hash of a message.
pub fn digest(message: &[u8]) -> [u8; Sha256::DIGEST]
    ensures { result ≡ Fips180.sha256 message.now }
{
    secure_hash::digest::<Sha256, 8, 32>(message)
}
