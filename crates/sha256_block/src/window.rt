// The rounds of SHA-256 (FIPS 180-4, 6.2.2), sixteen to a window of the schedule. They are written out by fours, so that no variable is moved and each
// place of the window is a constant.
ghost use Rattle.std.specs.Prelude.{◌≡◌, ◌+◌, ◌<◌};
ghost use Rattle.sha256_block.specs.Internal.{LeadsTo};

use crate::constants::K;
use crate::round::round;

// Round j of the sixteen rounds g.
fn round_at(s: [u32; 8], g: usize, w: &[u32; 16], j: usize) -> [u32; 8]
    requires { (g < 4) × (j < 16) }
    ensures { LeadsTo w.now g j s (j + 1) result }
{
    round(s, K[16 * g + j], w[j])
}

#[inline(always)]
fn four(s: [u32; 8], g: usize, w: &[u32; 16], j: usize) -> [u32; 8]
    requires { (g < 4) × (j + 3 < 16) }
    ensures { LeadsTo w.now g j s (j + 4) result }
{
    let s1 = round_at(s, g, w, j);
    let s2 = round_at(s1, g, w, j + 1);
    let s3 = round_at(s2, g, w, j + 2);
    round_at(s3, g, w, j + 3)
}

// The sixteen rounds g, with their words of the schedule.
pub(crate) fn sixteen(s: [u32; 8], g: usize, w: &[u32; 16]) -> [u32; 8]
    requires { g < 4 }
    ensures { LeadsTo w.now g 0 s 16 result }
{
    let s1 = four(s, g, w, 0);
    let s2 = four(s1, g, w, 4);
    let s3 = four(s2, g, w, 8);
    four(s3, g, w, 12)
}
