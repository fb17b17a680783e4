// The blocks that HMAC makes of a key (RFC 2104, section 2), whatever the hash is: a short key filled up with zeros, and a block masked.
#![tactic(auto)]

ghost use Rattle.std.specs.Prelude.{◌≡◌, ◌+◌, ◌-◌, ◌<◌, ◌++◌, length, take, replicate};
ghost use Rattle.rfc2104.specs.Rfc2104 as Rfc2104;
ghost use Rattle.hmac_block.specs.Internal.{word_masked};

// The number of bytes in a block of the hash, which is B in the RFC: 64 for SHA-1 and for SHA-256.
const BLOCK: usize = 64;

// The first 64 bytes of s, with zeros after them where there are fewer.
pub fn filled(s: &[u8]) -> [u8; BLOCK]
    ensures { result ≡ take 64 s.now ++ replicate (64 - length s.now) 0 }
{
    let mut r = [0u8; BLOCK];
    slices::copy(s, &mut r);
    r
}

// Masks the four bytes from index i on, as one word: a core of 32 bits takes no longer for four bytes than for one.
fn mask_word(block: &mut [u8], i: usize, pad: u8)
    requires { i + 3 < length block.old }
    ensures { block.new ≡ word_masked block.old i pad }
{
    let word = slices::from_be32(block[i], block[i + 1], block[i + 2], block[i + 3]);
    let masked = slices::be32(word ^ slices::from_be32(pad, pad, pad, pad));
    slices::copy_at(&masked, i, block);
}

// The block with each byte masked.
pub fn masked(block: [u8; BLOCK], pad: u8) -> [u8; BLOCK]
    ensures { result ≡ Rfc2104.masked block pad }
{
    let mut r = block;
    for j in 0..BLOCK / 4 {
        mask_word(&mut r, 4 * j, pad);
    }
    r
}
