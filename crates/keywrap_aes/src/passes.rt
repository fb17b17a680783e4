// The six passes of the key wrap of RFC 3394 over the blocks of a key, in place, and those of the unwrapping. A, and a block, are held as two columns
// of the cipher's state, so that the compiler keeps each column as a word and takes no word apart between two steps.
ghost use Rattle.std.specs.Prelude.{◌≡◌, ◌+◌, ◌*◌, ◌≤◌, ◌/◌, length};
ghost use Rattle.rfc3394.specs.Rfc3394.{joined, high, low, key_state};
ghost use Rattle.keywrap_aes.specs.Internal.{walk, walks, passes_of};

use crate::ways::{Back, Forward, Way};
use aes128::{Column, RoundKeys, State, expand_key, invert_keys};

// A, or a block: eight bytes as two columns.
pub(crate) type Half = [Column; 2];

// The eight bytes of two columns.
pub(crate) fn eight_bytes(a: Half) -> [u8; 8]
    ensures { result ≡ high a }
{
    let [c, d] = a;
    [c[0], c[1], c[2], c[3], d[0], d[1], d[2], d[3]]
}

// The eight bytes of b, as two columns.
pub(crate) fn front(b: &[u8]) -> Half
    requires { length b.now ≡ 8 }
    ensures { high result ≡ b.now }
{
    [[b[0], b[1], b[2], b[3]], [b[4], b[5], b[6], b[7]]]
}

// One step on the block b with the count t; the next A is returned.
fn step<W: Way>(ks: &RoundKeys, a: Half, b: &mut [u8], t: u8) -> Half
    requires { length b.old ≡ 8 }
    ensures next { high result ≡ high (W.step ks.now t (joined (high a) b.old)) }
    ensures part { b.new ≡ low (W.step ks.now t (joined (high a) b.old)) }
{
    let r = front(&b[..]);
    let s = W::step(ks, [a[0], a[1], r[0], r[1]], t);
    b.copy_from_slice(&eight_bytes([s[2], s[3]]));
    [s[0], s[1]]
}

// A pass over the n blocks of b, whose counts come after c. From block to block each column of A is a variable of its own: as one array
// the compiler joins the two in a word of 64 bits.
fn pass<W: Way>(ks: &RoundKeys, a: Half, b: &mut [u8], n: u8, c: u8) -> Half
    requires { (n * 8 ≤ length b.old) × (c + n ≤ 255) }
    ensures next { high result ≡ (walk (W.step ks.now) (W.place n) c n (high a, b.old)).0 }
    ensures part { b.new ≡ (walk (W.step ks.now) (W.place n) c n (high a, b.old)).1 }
{
    let mut x0 = a[0];
    let mut x1 = a[1];
    for k in 0..n {
        let i = W::place(n, k);
        let at = usize::from(i) * 8;
        let end = at + 8;
        let next = step::<W>(ks, [x0, x1], &mut b[at..end], c + i + 1);
        x0 = next[0];
        x1 = next[1];
    }
    [x0, x1]
}

// Six passes over the n blocks of b.
fn all_passes<W: Way>(ks: &RoundKeys, a: Half, b: &mut [u8], n: u8) -> Half
    requires { (n * 8 ≤ length b.old) × (n ≤ 24) }
    ensures next { high result ≡ (walks (W.step ks.now) W.place n 6 (high a, b.old)).0 }
    ensures part { b.new ≡ (walks (W.step ks.now) W.place n 6 (high a, b.old)).1 }
{
    let mut x = a;
    for j in 0..6 {
        let next = pass::<W>(ks, x, &mut *b, n, n * W::place(6, j));
        x = next;
    }
    x
}

// The KEK as a state of the cipher.
fn key_state(k: [u8; 16]) -> State
    ensures { result ≡ key_state k }
{
    [
        [k[0], k[1], k[2], k[3]],
        [k[4], k[5], k[6], k[7]],
        [k[8], k[9], k[10], k[11]],
        [k[12], k[13], k[14], k[15]],
    ]
}

// Which way the passes go.
pub(crate) enum Direction {
    Forward,
    Back,
}

// The six passes under the KEK over the blocks of b, from the A given; the last A is returned. Both ways share one function, so that the round keys take
// their room on the stack once, and their expansion is there once; for the way back they are made those of the inverse cipher in their place.
pub(crate) fn passes(kek: [u8; 16], direction: Direction, a: Half, b: &mut [u8]) -> Half
    requires { length b.old ≤ 192 }
    ensures next { high result ≡ (passes_of direction kek (high a, b.old)).0 }
    ensures part { b.new ≡ (passes_of direction kek (high a, b.old)).1 }
{
    let mut ks = [[[0u8; 4]; 4]; 11];
    expand_key(key_state(kek), &mut ks);
    let n = (b.len() / 8) as u8;
    match direction {
        Direction::Forward => all_passes::<Forward>(&ks, a, b, n),
        Direction::Back => {
            invert_keys(&mut ks);
            all_passes::<Back>(&ks, a, b, n)
        }
    }
}
