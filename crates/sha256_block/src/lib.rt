// SHA-256's compression (FIPS 180-4): the hash value after the whole blocks of a message.
#![tactic(auto)]

ghost use Rattle.std.specs.Prelude.{◌≡◌, ℕ, ◌/◌, List, length};
ghost use Rattle.std.proofs.Common.{lit<};
ghost use Rattle.fips180.specs.Sha256 as Fips180;
ghost use Rattle.fips180.specs.Window.{window};
ghost use Rattle.fips180.proofs.Sha256Schedule.{early, late};
ghost use Rattle.sha256_block.specs.Internal.{after_rounds, summed};

mod constants; // the constants
mod round; // the functions on words, and a round
mod window; // sixteen rounds: those over one window of the schedule

use crate::round::{small_sigma0, small_sigma1};
use crate::window::sixteen;
use sha_blocks::{Compression, Schedule, refill};

// The hash, as what both compressions have in common takes it.
struct Sha256;

impl Schedule for Sha256 {
    ghost W = { Fips180.W };

    ghost next = { Fips180.next_w };

    ghost LAST = { 14 };

    const LAST: usize = 14;

    ghost BETWEEN = { 9 };

    const BETWEEN: usize = 9;

    ghost FIRST = { 1 };

    const FIRST: usize = 1;

    fn next_word(last: u32, between: u32, first: u32, oldest: u32) -> u32 {
        small_sigma1(last)
            .wrapping_add(between)
            .wrapping_add(small_sigma0(first))
            .wrapping_add(oldest)
    }

    ghost early = { early };

    ghost late = { late };

    ghost near = { (lit< tt, lit< tt, lit< tt) };
}

impl Compression<8> for Sha256 {
    ghost variables = { after_rounds };

    ghost compress = { Fips180.compress };

    fn rounds(h: [u32; 8], w: &mut [u32; 16]) -> [u32; 8]
        ensures { (b : List ℕ) → w.old ≡ window (Fips180.W b) 0 → result ≡ after_rounds h b }
    {
        let mut s = h;
        for g in 0..4 {
            if 0 < g {
                refill::<Sha256>(w);
            }
            let next = sixteen(s, g, w);
            s = next;
        }
        s
    }

    ghost summed = { summed };
}

// Brings the hash value to the one after the whole blocks of `message`. A rest shorter than a block is not looked at.
pub fn compress_blocks(h: &mut [u32; 8], message: &[u8])
    ensures { h.new ≡ Fips180.blocks (length message.now / 64) h.old message.now }
{
    sha_blocks::compress_blocks::<Sha256, 8>(h, message);
}
