// What the compressions of SHA-1 and SHA-256 have in common (FIPS 180-4): the words of a block, the window of sixteen words of the schedule, the sum
// at the end, and the blocks of a message one after another.
#![tactic(auto)]

ghost use Rattle.std.specs.Prelude.{◌≡◌, ℕ, ◌+◌, ◌*◌, ◌/◌, ◌<◌, ◌≤◌, List, length};
ghost use Rattle.fips180.specs.Words.{word};
ghost use Rattle.fips180.specs.Hash.{blocks_by};
ghost use Rattle.fips180.specs.Window.{window};
ghost use Rattle.sha_blocks.specs.Ring.{RingAt};
ghost use Rattle.sha_blocks.specs.Sums.{sums};

// A message schedule (6.1.2 and 6.2.2, 1): a word from the sixteenth on comes of the one sixteen places before it and of three after that.
pub trait Schedule {
    // Word t of a block's schedule.
    ghost W: { List ℕ → ℕ → ℕ };

    // The next word, by the last of the three, the one between, the first, and the oldest word.
    ghost next: { ℕ → ℕ → ℕ → ℕ → ℕ };

    // How many places the three are after the oldest word.
    ghost LAST: { ℕ };

    const LAST: usize;

    ghost BETWEEN: { ℕ };

    const BETWEEN: usize;

    ghost FIRST: { ℕ };

    const FIRST: usize;

    fn next_word(last: u32, between: u32, first: u32, oldest: u32) -> u32
        ensures { result ≡ next last between first oldest };

    // The first sixteen words are the block's own.
    ghost early: { (b : List ℕ) (t : ℕ) → t < 16 → W b t ≡ word b t };

    ghost late: { (b : List ℕ) (t : ℕ) → W b (t + 16) ≡ next (W b (t + LAST)) (W b (t + BETWEEN)) (W b (t + FIRST)) (W b t) };

    ghost near: { (LAST < 16) × (BETWEEN < 16) × (FIRST < 16) };
}

// A compression: the working variables after all rounds on a block, which are added to the hash value.
pub trait Compression<const N: usize>: Schedule {
    ghost variables: { List ℕ → List ℕ → List ℕ };

    ghost compress: { List ℕ → List ℕ → List ℕ };

    // The working variables, from the hash value and the block's own words.
    fn rounds(h: [u32; N], w: &mut [u32; 16]) -> [u32; N]
        ensures { (b : List ℕ) → w.old ≡ window (Self.W b) 0 → result ≡ variables h.entry b };

    ghost summed: { (h b : List ℕ) → sums N h (variables h b) ≡ compress h b };
}

// Word t of a block (5.2.1).
fn word(block: &[u8], t: usize) -> u32
    requires { 4 * t + 3 < length block.now }
    ensures { result ≡ word block.now t }
{
    slices::from_be32(
        block[4 * t],
        block[4 * t + 1],
        block[4 * t + 2],
        block[4 * t + 3],
    )
}

// The first sixteen words of the schedule: the block's own.
fn load<S: Schedule>(block: &[u8]) -> [u32; 16]
    requires { length block.now ≡ 64 }
    ensures { result ≡ window (S.W block.now) 0 }
{
    let mut w = [0u32; 16];
    for t in 0..16 {
        w[t] = word(block, t);
    }
    w
}

// The next word of the schedule, in the place n of the oldest: n words of the window were replaced before.
fn put_next<S: Schedule>(w: &mut [u32; 16], n: usize)
    requires { n < 16 }
    ensures { (b : List ℕ) (t : ℕ) → RingAt (S.W b) t n w.old → RingAt (S.W b) t (n + 1) w.new }
{
    w[n] = S::next_word(
        w[(n + S::LAST) % 16],
        w[(n + S::BETWEEN) % 16],
        w[(n + S::FIRST) % 16],
        w[n],
    );
}

fn put_four<S: Schedule>(w: &mut [u32; 16], n: usize)
    requires { n + 3 < 16 }
    ensures { (b : List ℕ) (t : ℕ) → RingAt (S.W b) t n w.old → RingAt (S.W b) t (n + 4) w.new }
{
    put_next::<S>(w, n);
    put_next::<S>(w, n + 1);
    put_next::<S>(w, n + 2);
    put_next::<S>(w, n + 3);
}

// The next sixteen words of the schedule, in the place of the last sixteen. Each place is a constant: a loop over them is slower.
pub fn refill<S: Schedule>(w: &mut [u32; 16])
    ensures { (b : List ℕ) (t : ℕ) → w.old ≡ window (S.W b) t → w.new ≡ window (S.W b) (t + 16) }
{
    put_four::<S>(w, 0);
    put_four::<S>(w, 4);
    put_four::<S>(w, 8);
    put_four::<S>(w, 12);
}

// The hash value and the working variables, word by word.
fn sum<const N: usize>(h: [u32; N], s: [u32; N]) -> [u32; N]
    ensures { result ≡ sums N h.entry s.entry }
{
    let mut sum = [0u32; N];
    for i in 0..N {
        sum[i] = h[i].wrapping_add(s[i]);
    }
    sum
}

// Brings the hash value to the one after a block.
fn compress<C: Compression<N>, const N: usize>(h: &mut [u32; N], block: &[u8])
    requires { length block.now ≡ 64 }
    ensures { h.new ≡ C.compress h.old block.now }
{
    let mut w = load::<C>(block);
    let s = C::rounds(*h, &mut w);
    let next = sum(*h, s);
    *h = next;
}

// Brings the hash value to the one after the whole blocks of `message`. A rest shorter than a block is not looked at.
pub fn compress_blocks<C: Compression<N>, const N: usize>(h: &mut [u32; N], message: &[u8])
    ensures { h.new ≡ blocks_by C.compress (length message.now / 64) h.old message.now }
{
    for block in message.chunks_exact(64) {
        compress::<C, N>(h, block);
    }
}
