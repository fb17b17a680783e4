// SHA-1's compression (FIPS 180-4): the hash value after the whole blocks of a message.
#![tactic(auto)]

ghost use Rattle.std.specs.Prelude.{◌≡◌, ℕ, ◌/◌, List, length};
ghost use Rattle.std.proofs.Common.{lit<};
ghost use Rattle.fips180.specs.Sha1 as Fips180;
ghost use Rattle.fips180.specs.Window.{window};
ghost use Rattle.fips180.proofs.Sha1Schedule.{early, late};
ghost use Rattle.sha1_block.specs.Internal.{after_rounds, summed};

mod round; // a round of each kind
mod window; // sixteen rounds: those over one window of the schedule

use crate::round::{First, Last, Second, Third, kept, variables_of};
use crate::window::{sixteen, sixteen_more};
use sha_blocks::{Compression, Schedule};

// The hash, as what both compressions have in common takes it.
pub(crate) struct Sha1;

impl Schedule for Sha1 {
    ghost W = { Fips180.W };

    ghost next = { Fips180.next_w };

    ghost LAST = { 13 };

    const LAST: usize = 13;

    ghost BETWEEN = { 8 };

    const BETWEEN: usize = 8;

    ghost FIRST = { 2 };

    const FIRST: usize = 2;

    fn next_word(last: u32, between: u32, first: u32, oldest: u32) -> u32 {
        (last ^ between ^ first ^ oldest).rotate_left(1)
    }

    ghost early = { early };

    ghost late = { late };

    ghost near = { (lit< tt, lit< tt, lit< tt) };
}

impl Compression<5> for Sha1 {
    ghost variables = { after_rounds };

    ghost compress = { Fips180.compress };

    // The rounds change their kind at 20, 40 and 60, and the window at 16, 32, 48 and 64.
    fn rounds(h: [u32; 5], w: &mut [u32; 16]) -> [u32; 5]
        ensures { (b : List ℕ) → w.old ≡ window (Fips180.W b) 0 → result ≡ after_rounds h b }
    {
        let s0 = kept(h);
        let s16 = sixteen::<First, First, First, First>(s0, w);
        let s32 = sixteen_more::<First, Second, Second, Second>(s16, w);
        let s48 = sixteen_more::<Second, Second, Third, Third>(s32, w);
        let s64 = sixteen_more::<Third, Third, Third, Last>(s48, w);
        let s80 = sixteen_more::<Last, Last, Last, Last>(s64, w);
        variables_of(s80)
    }

    ghost summed = { summed };
}

// Brings the hash value to the one after the whole blocks of `message`. A rest shorter than a block is not looked at.
pub fn compress_blocks(h: &mut [u32; 5], message: &[u8])
    ensures { h.new ≡ Fips180.blocks (length message.now / 64) h.old message.now }
{
    sha_blocks::compress_blocks::<Sha1, 5>(h, message);
}
