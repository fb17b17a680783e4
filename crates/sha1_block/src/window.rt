// The rounds of SHA-1 (FIPS 180-4, 6.1.2), sixteen to a window of the schedule, and four of one kind at a time.
ghost use Rattle.std.specs.Prelude.{◌≡◌, ◌+◌, ◌<◌, ℕ, List};
ghost use Rattle.fips180.specs.Sha1 as Fips180;
ghost use Rattle.fips180.specs.Window.{window};
ghost use Rattle.sha1_block.specs.Internal.{variables, runs, Four};

use crate::Sha1;
use crate::round::{Kind, round};
use sha_blocks::refill;

// Four rounds of one kind, with the words of the window from place j on.
fn four<R: Kind>(s: [u32; 5], w: &[u32; 16], j: usize) -> [u32; 5]
    requires { j + 3 < 16 }
    ensures { variables result ≡ runs R.f R.K w.now j (variables s) 4 }
{
    let s1 = round::<R>(s, w[j]);
    let s2 = round::<R>(s1, w[j + 1]);
    let s3 = round::<R>(s2, w[j + 2]);
    round::<R>(s3, w[j + 3])
}

// Sixteen rounds over one window, by the kind of each four.
pub(crate) fn sixteen<A: Kind, B: Kind, C: Kind, D: Kind>(s: [u32; 5], w: &[u32; 16]) -> [u32; 5]
    ensures { (h b : List ℕ) (t : ℕ) → Four A.f A.K t → Four B.f B.K (t + 4) → Four C.f C.K (t + 8) → Four D.f D.K (t + 12) → w.now ≡ window (Fips180.W b) t
        → variables s ≡ Fips180.rounds h b t → variables result ≡ Fips180.rounds h b (t + 16) }
{
    let s4 = four::<A>(s, w, 0);
    let s8 = four::<B>(s4, w, 4);
    let s12 = four::<C>(s8, w, 8);
    four::<D>(s12, w, 12)
}

// The sixteen rounds after them, over the next window.
pub(crate) fn sixteen_more<A: Kind, B: Kind, C: Kind, D: Kind>(
    s: [u32; 5],
    w: &mut [u32; 16],
) -> [u32; 5]
    ensures window { (b : List ℕ) (t : ℕ) → w.old ≡ window (Fips180.W b) t → w.new ≡ window (Fips180.W b) (t + 16) }
    ensures rounds { (h b : List ℕ) (t : ℕ) → Four A.f A.K (t + 16) → Four B.f B.K (t + 16 + 4) → Four C.f C.K (t + 16 + 8) → Four D.f D.K (t + 16 + 12)
        → w.old ≡ window (Fips180.W b) t → variables s ≡ Fips180.rounds h b (t + 16) → variables result ≡ Fips180.rounds h b (t + 16 + 16) }
{
    refill::<Sha1>(w);
    sixteen::<A, B, C, D>(s, w)
}
