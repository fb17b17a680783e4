// The two ways through the blocks of a key: forward in the wrap, and back in the unwrapping. A step is the cipher of A | R[i], with the step's count added
// to A. The sixteen bytes A | R[i] are a state of the cipher, its first two columns A.
ghost use Rattle.std.specs.Prelude.{◌≡◌, ◌<◌, ◌-◌, List, ℕ};
ghost use Rattle.fips197.specs.State.{State as Block, columns, bytes};
ghost use Rattle.keywrap_aes.specs.Internal.{count_added, forward_step, back_step};
ghost use Rattle.keywrap_aes.specs.Walks.{forward_by_bytes, back_by_bytes};

use aes128::{RoundKeys, State, decrypt, encrypt};

// A way through the blocks.
pub(crate) trait Way {
    // What a step with a count makes of A | R[i] under these round keys.
    ghost step: { List Block → ℕ → Block → Block };

    // Which of n in a row has its turn after k others.
    ghost place: { ℕ → ℕ → ℕ };

    fn step(ks: &RoundKeys, s: State, t: u8) -> State
        ensures { result ≡ step ks.now t s };

    fn place(n: u8, k: u8) -> u8
        requires { k < n }
        ensures place { result ≡ place n k }
        ensures within { result < n };

    // A step reads a state by its bytes.
    ghost by_bytes: { (ks : List Block) (t : ℕ) (s : Block) → step ks t s ≡ step ks t (columns (bytes (λ x. x)) s) };
}

// The wrap: B = AES(K, A | R[i]), and then A = MSB(64, B) ^ t and R[i] = LSB(64, B).
pub(crate) struct Forward;

// The unwrapping, under the round keys of the equivalent inverse cipher: B = AES-1(K, (A ^ t) | R[i]), and then A = MSB(64, B) and R[i] = LSB(64, B).
pub(crate) struct Back;

// A ^ t. The count t is below 256, so that the last byte of A alone changes.
fn add_count(s: State, t: u8) -> State
    ensures { result ≡ count_added t s }
{
    [s[0], [s[1][0], s[1][1], s[1][2], s[1][3] ^ t], s[2], s[3]]
}

impl Way for Forward {
    ghost step = { forward_step };

    ghost place = { λ n k. k };

    fn step(ks: &RoundKeys, s: State, t: u8) -> State {
        add_count(encrypt(ks, s), t)
    }

    fn place(n: u8, k: u8) -> u8 {
        k
    }

    ghost by_bytes = { forward_by_bytes };
}

impl Way for Back {
    ghost step = { back_step };

    ghost place = { λ n k. n - 1 - k };

    fn step(ks: &RoundKeys, s: State, t: u8) -> State {
        decrypt(ks, add_count(s, t))
    }

    fn place(n: u8, k: u8) -> u8 {
        n - 1 - k
    }

    ghost by_bytes = { back_by_bytes };
}
