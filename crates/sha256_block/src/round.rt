// SHA-256's functions (FIPS 180-4, 4.1.2), and a round (6.2.2, 3).
ghost use Rattle.std.specs.Prelude.{◌≡◌};
ghost use Rattle.fips180.specs.Words as Words;
ghost use Rattle.fips180.specs.Sha256 as Sha256;

// The functions of 4.1.2, in the forms that take the fewest steps: a rotation of a rotation, and one `and`.
fn big_sigma0(x: u32) -> u32
    ensures { result ≡ Sha256.Σ0 x }
{
    (x ^ (x ^ x.rotate_right(9)).rotate_right(11)).rotate_right(2)
}

fn big_sigma1(x: u32) -> u32
    ensures { result ≡ Sha256.Σ1 x }
{
    (x ^ (x ^ x.rotate_right(14)).rotate_right(5)).rotate_right(6)
}

pub(crate) fn small_sigma0(x: u32) -> u32
    ensures { result ≡ Sha256.σ0 x }
{
    (x ^ x.rotate_right(11)).rotate_right(7) ^ (x >> 3)
}

pub(crate) fn small_sigma1(x: u32) -> u32
    ensures { result ≡ Sha256.σ1 x }
{
    (x ^ x.rotate_right(2)).rotate_right(17) ^ (x >> 10)
}

fn ch(x: u32, y: u32, z: u32) -> u32
    ensures { result ≡ Words.Ch x y z }
{
    z ^ (x & (y ^ z))
}

fn maj(x: u32, y: u32, z: u32) -> u32
    ensures { result ≡ Words.Maj x y z }
{
    y ^ ((x ^ y) & (y ^ z))
}

// A round, with its constant and its word of the schedule.
pub(crate) fn round(s: [u32; 8], k: u32, w: u32) -> [u32; 8]
    ensures { result ≡ Sha256.round k w s }
{
    let [a, b, c, d, e, f, g, h] = s;
    let t1 = h
        .wrapping_add(big_sigma1(e))
        .wrapping_add(ch(e, f, g))
        .wrapping_add(k)
        .wrapping_add(w);
    let t2 = big_sigma0(a).wrapping_add(maj(a, b, c));
    [t1.wrapping_add(t2), a, b, c, d.wrapping_add(t1), e, f, g]
}
