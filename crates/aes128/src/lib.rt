// AES-128 by FIPS 197: the cipher, and the inverse cipher in its equivalent form (section 5.3.5). The state is four columns of four bytes,
// passed by value through each step. From round to round a column is one word of 32 bits, so that the compiler keeps it in a register.
#![tactic(auto)]

mod columns; // columns of the state as words of 32 bits
mod keys; // the round keys of the cipher and of the equivalent inverse cipher
mod lookups; // what the tables give of the bytes of a column

ghost use Rattle.std.specs.Prelude.{◌≡◌, [], ◌∷◌, get_or};
ghost use Rattle.fips197.specs.State.{sub_bytes, inv_sub_bytes, shift_rows, inv_shift_rows, mix_columns, inv_mix_columns, add_round_key};
ghost use Rattle.fips197.specs.Cipher.{cipher, eq_inv_cipher};
ghost use Rattle.aes128.specs.Internal.{state_of, laid_out};

use crate::columns::{add_column, column, word};
use crate::lookups::{inv_sub_and_mix, inv_sub_word, sub_and_mix, sub_word};
pub use columns::Column;
pub use keys::{expand_key, invert_keys};

// The state: four columns of four bytes.
pub type State = [Column; 4];

// The eleven round keys, of the cipher or of the equivalent inverse cipher.
pub type RoundKeys = [State; 11];

// The state of four words.
fn state(t: [u32; 4]) -> State
    ensures { result ≡ state_of t }
{
    t.map(column)
}

// A state as four words.
fn words(s: State) -> [u32; 4]
    ensures { state_of result ≡ laid_out s }
{
    s.map(word)
}

// The column of the bytes in row 0 of a, row 1 of b, row 2 of c and row 3 of d.
fn diagonal(a: Column, b: Column, c: Column, d: Column) -> Column
    ensures { result ≡ get_or a 0 0 ∷ get_or b 1 0 ∷ get_or c 2 0 ∷ get_or d 3 0 ∷ [] }
{
    [a[0], b[1], c[2], d[3]]
}

// ShiftRows.
fn shift_rows(s: State) -> State
    ensures { result ≡ shift_rows s }
{
    let [a, b, c, d] = s;
    [
        diagonal(a, b, c, d),
        diagonal(b, c, d, a),
        diagonal(c, d, a, b),
        diagonal(d, a, b, c),
    ]
}

// InvShiftRows.
fn inv_shift_rows(s: State) -> State
    ensures { result ≡ inv_shift_rows s }
{
    let [a, b, c, d] = s;
    [
        diagonal(a, d, c, b),
        diagonal(b, a, d, c),
        diagonal(c, b, a, d),
        diagonal(d, c, b, a),
    ]
}

// SubBytes.
fn sub_bytes(s: State) -> State
    ensures { result ≡ sub_bytes s }
{
    s.map(sub_word)
}

// InvSubBytes.
fn inv_sub_bytes(s: State) -> State
    ensures { result ≡ inv_sub_bytes s }
{
    s.map(inv_sub_word)
}

// SubBytes and MixColumns.
fn sub_and_mix_columns(s: State) -> State
    ensures { result ≡ mix_columns (sub_bytes s) }
{
    s.map(sub_and_mix)
}

// InvSubBytes and InvMixColumns.
fn inv_sub_and_mix_columns(s: State) -> State
    ensures { result ≡ inv_mix_columns (inv_sub_bytes s) }
{
    s.map(inv_sub_and_mix)
}

// AddRoundKey.
#[tactic(auto, unfolding(fips197::specs::State::add_round_key))]
fn add_round_key(s: State, k: State) -> State
    ensures { result ≡ add_round_key s k }
{
    [
        add_column(s[0], k[0]),
        add_column(s[1], k[1]),
        add_column(s[2], k[2]),
        add_column(s[3], k[3]),
    ]
}

// Cipher: encrypts one block under the round keys ks.
pub fn encrypt(ks: &RoundKeys, s: State) -> State
    ensures { result ≡ cipher ks.now s }
{
    let mut t = words(add_round_key(s, ks[0]));
    for i in 1..10 {
        t = words(add_round_key(sub_and_mix_columns(shift_rows(state(t))), ks[i]));
    }
    add_round_key(sub_bytes(shift_rows(state(t))), ks[10])
}

// EqInvCipher: decrypts one block under the round keys ks of the equivalent inverse cipher, which `invert_keys` makes.
pub fn decrypt(ks: &RoundKeys, s: State) -> State
    ensures { result ≡ eq_inv_cipher ks.now s }
{
    let mut t = words(add_round_key(s, ks[10]));
    for i in (1..10).rev() {
        t = words(add_round_key(inv_sub_and_mix_columns(inv_shift_rows(state(t))), ks[i]));
    }
    add_round_key(inv_sub_bytes(inv_shift_rows(state(t))), ks[0])
}
