// A hash of FIPS 180-4, whatever its compression is: of a message at once, or by a hash in progress. SHA-1 and SHA-256 are its instances. No branch
// and no index goes by the bytes absorbed, only by their count.
#![tactic(auto)]

ghost use Rattle.std.specs.Prelude.{◌≡◌, ℕ, ◌+◌, ◌-◌, ◌*◌, ◌/◌, ◌%◌, ◌^◌, ◌<◌, ◌≤◌, ◌∷◌, ◌++◌, List, length, take, replicate, flat_map};
ghost use Rattle.slices.specs.Numbers.{be32, be64};
ghost use Rattle.slices.specs.Parts.{joined};
ghost use Rattle.fips180.specs.Hash.{blocks_by, hash_by};
ghost use Rattle.fips180.specs.Stream.{started, started_after, absorbed_by, finished_by};
ghost use Rattle.fips180.specs.Internal.{closing_by, begun_block};
ghost use Rattle.secure_hash.specs.Stream.{progress, parts};

use std::marker::PhantomData;

// The number of bytes in a block.
pub const BLOCK: usize = 64;

// A hash by what the standard defines for it alone: the first hash value, the compression of a block, and how the last hash value is written as
// a digest. A hash value has WORDS words, and a digest BYTES bytes.
pub trait Hash<const WORDS: usize, const BYTES: usize>: Copy {
    ghost first: { List ℕ };

    ghost compress: { List ℕ → List ℕ → List ℕ };

    ghost written: { List ℕ → List ℕ };

    // The first hash value (5.3).
    fn first_value() -> [u32; WORDS]
        ensures { result ≡ first };

    // Brings the hash value to the one after the whole blocks of `message`.
    fn compress_blocks(value: &mut [u32; WORDS], message: &[u8])
        ensures { value.new ≡ blocks_by compress (length message.now / 64) value.old message.now };

    // The digest, from the last hash value.
    fn to_digest(value: [u32; WORDS]) -> [u8; BYTES]
        ensures { result ≡ written value.entry };

    // A digest fits in a block, and so does a hash value.
    ghost digest_fits: { (value : List ℕ) → length (written value) ≤ 64 };

    ghost sizes_fit: { (4 * WORDS ≤ 64) × (BYTES ≤ 64) };
}

// A hash in progress: the hash value after the whole blocks absorbed, the block that is being filled, and the count of all bytes.
#[derive(Clone, Copy)]
pub struct Progress<H, const WORDS: usize, const BYTES: usize> {
    value: [u32; WORDS],
    block: [u8; BLOCK],
    count: u64,
    hash: PhantomData<H>,
}

// The number of bytes in a block of a hash, and in a digest, by the type of a hash in progress. They are a trait's, since a proof doesn't know the value
// of a constant in a generic type's own `impl`.
pub trait Sizes {
    ghost BLOCK: { ℕ };

    const BLOCK: usize;

    ghost DIGEST: { ℕ };

    const DIGEST: usize;
}

impl<H, const WORDS: usize, const BYTES: usize> Sizes for Progress<H, WORDS, BYTES> {
    ghost BLOCK = { 64 };

    const BLOCK: usize = BLOCK;

    ghost DIGEST = { BYTES };

    const DIGEST: usize = BYTES;
}

// Ends the message after the block's first `at` bytes: a bit 1, and zeros.
fn mark(block: &mut [u8; BLOCK], at: usize)
    requires { (at < 64) × (length block.old ≡ 64) }
    ensures { block.new ≡ take at block.old ++ (0x80 ∷ replicate (63 - at) 0) }
{
    block[at] = 0x80;
    block[at + 1..].fill(0);
}

// Writes the message's length in bits, modulo 2^64, to the block's last eight bytes.
fn put_length(block: &mut [u8; BLOCK], count: u64)
    requires { length block.old ≡ 64 }
    ensures { block.new ≡ take 56 block.old ++ be64 (8 * count % 2 ^ 64) }
{
    slices::copy_at(&slices::be64(count.wrapping_mul(8)), 56, block);
}

// Begins a block with the bytes of s that come after its whole blocks.
fn begin(block: &mut [u8; BLOCK], s: &[u8])
    ensures { block.new ≡ begun_block s.now }
{
    let n = s.len();
    let rest = n - n % BLOCK;
    *block = [0; BLOCK];
    slices::copy(&s[rest..], block);
}

// Brings the hash value to the last one, from a last block that lacks only the length.
fn compress_last<H: Hash<WORDS, BYTES>, const WORDS: usize, const BYTES: usize>(
    value: &mut [u32; WORDS],
    block: &mut [u8; BLOCK],
    count: u64,
)
    requires { length block.old ≡ 64 }
    ensures { value.new ≡ H.compress value.old (take 56 block.old ++ be64 (8 * count % 2 ^ 64)) }
{
    put_length(block, count);
    H::compress_blocks(value, block);
}

// Brings the hash value to the last one of a message of `count` bytes: one block more, or two where the length finds no room after the bit 1.
fn close<H: Hash<WORDS, BYTES>, const WORDS: usize, const BYTES: usize>(
    value: &mut [u32; WORDS],
    block: &mut [u8; BLOCK],
    count: u64,
)
    requires { length block.old ≡ 64 }
    ensures { value.new ≡ closing_by H.compress value.old (take (count % 64) block.old) count }
{
    let at = (count % (BLOCK as u64)) as usize;
    mark(block, at);
    if at < 56 {
        compress_last::<H, WORDS, BYTES>(value, block, count);
        return;
    }
    H::compress_blocks(value, block);
    *block = [0; BLOCK];
    compress_last::<H, WORDS, BYTES>(value, block, count);
}

impl<H: Hash<WORDS, BYTES>, const WORDS: usize, const BYTES: usize> Progress<H, WORDS, BYTES> {
    // The hash of nothing yet. It is not inlined, nor is the next: the caller's stack would hold a hash in progress twice.
    #[inline(never)]
    pub fn new() -> Self
        ensures { progress result ≡ started H.first }
    {
        Progress {
            value: H::first_value(),
            block: [0; BLOCK],
            count: 0,
            hash: PhantomData,
        }
    }

    // The hash after one block, of which only the hash value is given: HMAC keeps that of a key and starts each message with it.
    #[inline(never)]
    pub fn after(kept: [u32; WORDS]) -> Self
        ensures { progress result ≡ started_after kept.entry }
    {
        Progress {
            value: kept,
            block: [0; BLOCK],
            count: BLOCK as u64,
            hash: PhantomData,
        }
    }

    // Absorbs the bytes of s. The bytes that the block has room for are copied before the branch, so that the compiler lays out one copy for those
    // that fill it and those that leave it short of full. The latter are only copied.
    pub fn absorb(&mut self, s: &[u8])
        ensures { progress self.new ≡ absorbed_by H.compress (progress self.old) s.now }
    {
        let at = (self.count % (BLOCK as u64)) as usize;
        let n = s.len();
        self.count = self.count.wrapping_add(n as u64);
        let k = n.min(BLOCK - at);
        slices::copy_at(&s[..k], at, &mut self.block);
        if n < BLOCK - at {
            return;
        }
        H::compress_blocks(&mut self.value, &self.block);
        H::compress_blocks(&mut self.value, &s[k..]);
        begin(&mut self.block, &s[k..]);
    }

    // Absorbs a text that is lent in parts.
    pub fn absorb_parts(&mut self, parts: &[&[u8]])
        ensures { progress self.new ≡ absorbed_by H.compress (progress self.old) (joined parts.now) }
    {
        for part in parts {
            self.absorb(part);
        }
    }

    // The digest of all that was absorbed. The hash is closed where it lies, so that its value and its block are not copied for it.
    fn last_digest(&mut self) -> [u8; BYTES]
        ensures { result ≡ finished_by H.compress H.written (progress self.old) }
    {
        close::<H, WORDS, BYTES>(&mut self.value, &mut self.block, self.count);
        H::to_digest(self.value)
    }

    // The digest of all that was absorbed. It is not inlined, so that the copy that it closes leaves the stack with it.
    #[inline(never)]
    pub fn finish(&self) -> [u8; BYTES]
        ensures { result ≡ finished_by H.compress H.written (progress self.now) }
    {
        let mut all = *self;
        all.last_digest()
    }

    // The digest of all that was absorbed and of a text after it, which is lent in parts.
    pub fn finish_with(mut self, parts: &[&[u8]]) -> [u8; BYTES]
        ensures { result ≡ finished_by H.compress H.written (absorbed_by H.compress (progress self) (joined parts.now)) }
    {
        self.absorb_parts(parts);
        self.last_digest()
    }
}

// The hash value after one block.
pub fn of_block<H: Hash<WORDS, BYTES>, const WORDS: usize, const BYTES: usize>(
    block: [u8; BLOCK],
) -> [u32; WORDS]
    ensures { result ≡ H.compress H.first block }
{
    let mut value = H::first_value();
    H::compress_blocks(&mut value, &block);
    value
}

// The hash of a message: its whole blocks are compressed where they lie.
pub fn digest<H: Hash<WORDS, BYTES>, const WORDS: usize, const BYTES: usize>(
    message: &[u8],
) -> [u8; BYTES]
    ensures { result ≡ hash_by H.compress H.first H.written message.now }
{
    let mut value = H::first_value();
    H::compress_blocks(&mut value, message);
    let mut block = [0; BLOCK];
    begin(&mut block, message);
    close::<H, WORDS, BYTES>(&mut value, &mut block, message.len() as u64);
    H::to_digest(value)
}

// The hash of a text that is lent in parts.
pub fn digest_of_parts<H: Hash<WORDS, BYTES>, const WORDS: usize, const BYTES: usize>(
    parts: &[&[u8]],
) -> [u8; BYTES]
    ensures { result ≡ hash_by H.compress H.first H.written (joined parts.now) }
{
    let mut all = Progress::<H, WORDS, BYTES>::new();
    all.absorb_parts(parts);
    all.last_digest()
}

// The digest of a block, of which only the hash value is given, and of a text after it, which is lent in parts: HMAC's inner and outer hash.
// It is not inlined, so that the two hashes of a MAC share the stack.
#[inline(never)]
pub fn digest_after<H: Hash<WORDS, BYTES>, const WORDS: usize, const BYTES: usize>(
    kept: [u32; WORDS],
    parts: &[&[u8]],
) -> [u8; BYTES]
    ensures { result ≡ finished_by H.compress H.written (absorbed_by H.compress (started_after kept.entry) (joined parts.now)) }
{
    let mut hash = Progress::<H, WORDS, BYTES>::after(kept);
    hash.absorb_parts(parts);
    hash.last_digest()
}

// The words of a hash value as bytes, high byte first, where a digest has room for just these.
pub fn to_bytes<const WORDS: usize, const BYTES: usize>(words: [u32; WORDS]) -> [u8; BYTES]
    ensures { BYTES ≡ 4 * WORDS → result ≡ flat_map be32 words.entry }
{
    let mut bytes = [0; BYTES];
    for j in 0..WORDS {
        slices::copy_at(&slices::be32(words[j]), 4 * j, &mut bytes);
    }
    bytes
}
