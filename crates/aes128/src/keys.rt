// The round keys of AES-128 by FIPS 197: the key expansion (section 5.2), and the round keys of the equivalent inverse cipher (section
// 5.3.5). A column whose mixing is undone is held as one word of 32 bits, so that its four bytes are doubled at once.
ghost use Rattle.std.specs.Prelude.{◌≡◌};
ghost use Rattle.aes_sbox.specs.Field.{xtime};
ghost use Rattle.fips197.specs.State.{mix_column, inv_mix_column, inv_mix_columns};
ghost use Rattle.fips197.specs.Cipher.{inverted_keys};
ghost use Rattle.fips197.specs.KeyExpansion.{key_core, next_key, expand_key};
ghost use Rattle.aes128.specs.Internal.{doubled};

use crate::columns::{Column, add_column, column, turn, word};
use crate::lookups::sub_word;
use crate::{RoundKeys, State};

// SubWord(RotWord(w)), with the round constant c.
fn key_core(w: Column, c: u8) -> Column
    ensures { result ≡ key_core w c }
{
    let t = sub_word([w[1], w[2], w[3], w[0]]);
    [t[0] ^ c, t[1], t[2], t[3]]
}

// The round key after k, with the round constant c.
fn next_key(k: State, c: u8) -> State
    ensures { result ≡ next_key k c }
{
    let w0 = add_column(k[0], key_core(k[3], c));
    let w1 = add_column(k[1], w0);
    let w2 = add_column(k[2], w1);
    let w3 = add_column(k[3], w2);
    [w0, w1, w2, w3]
}

// The round constant after c: {02}·c.
fn next_constant(c: u8) -> u8
    ensures { result ≡ xtime c }
{
    (c % 128 * 2) ^ (c / 128 * 0x1b)
}

// Each byte of a word doubled in the field.
fn double(x: u32) -> u32
    ensures { result ≡ doubled x }
{
    ((x & 0x7f7f7f7f) * 2) ^ ((x / 128 & 0x01010101) * 0x1b)
}

// MixColumns of one column. Row by row, with a the byte of the row itself and b, c, d the next ones, it is {02}(a + b) + b + (c + d).
fn mix_column(w: Column) -> Column
    ensures { result ≡ mix_column w }
{
    let x = word(w);
    let t = turn(x);
    let y = x ^ t;
    column((double(y) ^ t) ^ turn(turn(y)))
}

// The column whose mixing undoes the mixing of w: {04}(a + c) is added to the bytes a and c of the rows 0 and 2, and {04}(b + d) to the
// others.
fn premix_column(w: Column) -> Column
    ensures { mix_column result ≡ inv_mix_column w }
{
    let x = word(w);
    column(x ^ double(double(x ^ turn(turn(x)))))
}

// InvMixColumns of one column.
fn inv_mix_column(w: Column) -> Column
    ensures { result ≡ inv_mix_column w }
{
    mix_column(premix_column(w))
}

// InvMixColumns.
fn inv_mix_columns(s: State) -> State
    ensures { result ≡ inv_mix_columns s }
{
    s.map(inv_mix_column)
}

// KeyExpansion: writes the eleven round keys of the key k to ks.
pub fn expand_key(k: State, ks: &mut RoundKeys)
    ensures { ks.new ≡ expand_key k }
{
    *ks = [k; 11];
    let mut constant = 1;
    for i in 1..11 {
        let next = next_key(ks[i - 1], constant);
        ks[i] = next;
        constant = next_constant(constant);
    }
}

// Converts the round keys of the cipher to those of the equivalent inverse cipher: InvMixColumns of all but the first and the last.
pub fn invert_keys(ks: &mut RoundKeys)
    ensures { ks.new ≡ inverted_keys ks.old }
{
    for i in 1..10 {
        let inverted = inv_mix_columns(ks[i]);
        ks[i] = inverted;
    }
}
