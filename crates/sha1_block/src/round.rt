// SHA-1's functions (FIPS 180-4, 4.1.1), and a round (6.1.2, 3), which has one of four kinds. A round keeps the last five values of the working variable
// a (specs/Internal.antt): c, d and e are rotated where they are used.
ghost use Rattle.std.specs.Prelude.{◌≡◌, ℕ};
ghost use Rattle.fips180.specs.Words as Words;
ghost use Rattle.fips180.specs.Sha1 as Fips180;
ghost use Rattle.sha1_block.specs.Internal.{variables, step_by};

// What differs between the rounds: the function (4.1.1) and the constant (4.2.1).
pub(crate) trait Kind {
    ghost f: { ℕ → ℕ → ℕ → ℕ };

    ghost K: { ℕ };

    const K: u32;

    // The function of b, c and d, where y and z are c and d before their rotation: one rotation does for both.
    fn of(x: u32, y: u32, z: u32) -> u32
        ensures { result ≡ f x (Words.ROTL 30 y) (Words.ROTL 30 z) };
}

// Rounds 0 to 19.
pub(crate) struct First;

// Rounds 20 to 39.
pub(crate) struct Second;

// Rounds 40 to 59.
pub(crate) struct Third;

// Rounds 60 to 79.
pub(crate) struct Last;

impl Kind for First {
    ghost f = { Words.Ch };

    ghost K = { 0x5a827999 };

    const K: u32 = 0x5a827999;

    fn of(x: u32, y: u32, z: u32) -> u32 {
        z.rotate_left(30) ^ (x & (y ^ z).rotate_left(30))
    }
}

impl Kind for Second {
    ghost f = { Fips180.Parity };

    ghost K = { 0x6ed9eba1 };

    const K: u32 = 0x6ed9eba1;

    fn of(x: u32, y: u32, z: u32) -> u32 {
        parity(x, y, z)
    }
}

impl Kind for Third {
    ghost f = { Words.Maj };

    ghost K = { 0x8f1bbcdc };

    const K: u32 = 0x8f1bbcdc;

    // The two words that are added have no bit in common.
    fn of(x: u32, y: u32, z: u32) -> u32 {
        (x & (y ^ z).rotate_left(30)).wrapping_add((y & z).rotate_left(30))
    }
}

impl Kind for Last {
    ghost f = { Fips180.Parity };

    ghost K = { 0xca62c1d6 };

    const K: u32 = 0xca62c1d6;

    fn of(x: u32, y: u32, z: u32) -> u32 {
        parity(x, y, z)
    }
}

fn parity(x: u32, y: u32, z: u32) -> u32
    ensures { result ≡ Fips180.Parity x (Words.ROTL 30 y) (Words.ROTL 30 z) }
{
    x ^ (y ^ z).rotate_left(30)
}

// The values kept that the working variables of a hash value come from: rotated by 2 bits, a word comes back when it is rotated by 30.
pub(crate) fn kept(h: [u32; 5]) -> [u32; 5]
    ensures { variables result ≡ h }
{
    let [a, b, c, d, e] = h;
    [a, b, c.rotate_left(2), d.rotate_left(2), e.rotate_left(2)]
}

// The working variables, from the values kept.
pub(crate) fn variables_of(s: [u32; 5]) -> [u32; 5]
    ensures { result ≡ variables s }
{
    let [a, b, c, d, e] = s;
    [
        a,
        b,
        c.rotate_left(30),
        d.rotate_left(30),
        e.rotate_left(30),
    ]
}

// A round, with its word of the schedule.
pub(crate) fn round<R: Kind>(s: [u32; 5], w: u32) -> [u32; 5]
    ensures { variables result ≡ step_by R.f R.K w (variables s) }
{
    let [a, b, c, d, e] = s;
    let sum = a
        .rotate_left(5)
        .wrapping_add(R::of(b, c, d))
        .wrapping_add(e.rotate_left(30))
        .wrapping_add(R::K)
        .wrapping_add(w);
    [sum, a, b, c, d]
}
