// What the tables give of the bytes of a column. SubBytes is taken with the step after it: in a round, what a byte brings to its mixed column is
// looked up as one word of 32 bits.
ghost use Rattle.std.specs.Prelude.{◌≡◌};
ghost use Rattle.aes_sbox.specs.Sbox.{sbox_of, inv_sbox_of};
ghost use Rattle.aes_sbox.specs.Tables.{mixed_word, unmixed_word};
ghost use Rattle.fips197.specs.State.{bytes, mix_column, inv_mix_column};
ghost use Rattle.aes128.specs.Internal.{sum_column};

use crate::columns::{Column, column, turn};

// A byte by the S-box.
fn sub(b: u8) -> u8
    ensures { result ≡ sbox_of b }
{
    aes_lookup::sub(u32::from(b))
}

// A byte by the inverse S-box.
fn inv_sub(b: u8) -> u8
    ensures { result ≡ inv_sbox_of b }
{
    aes_lookup::inv_sub(u32::from(b))
}

// What a byte brings to its mixed column.
fn mixed(b: u8) -> u32
    ensures { result ≡ mixed_word (sbox_of b) }
{
    aes_lookup::mixed(u32::from(b))
}

// What a byte brings to its column when the mixing is undone.
fn unmixed(b: u8) -> u32
    ensures { result ≡ unmixed_word (inv_sbox_of b) }
{
    aes_lookup::unmixed(u32::from(b))
}

// What each byte of a column brings to its mixed column.
fn each_mixed(w: Column) -> [u32; 4]
    ensures { result ≡ bytes (λ b. mixed_word (sbox_of b)) w }
{
    w.map(mixed)
}

// What each byte of a column brings to it when the mixing is undone.
fn each_unmixed(w: Column) -> [u32; 4]
    ensures { result ≡ bytes (λ b. unmixed_word (inv_sbox_of b)) w }
{
    w.map(unmixed)
}

// The column that is the sum of what its bytes bring to it, each word moved to the rows of its byte.
fn sum(w: [u32; 4]) -> Column
    ensures { result ≡ sum_column w }
{
    column(w[0] ^ turn(w[3] ^ turn(w[2] ^ turn(w[1]))))
}

// SubBytes of one column, which is SubWord of the key expansion.
pub(crate) fn sub_word(w: Column) -> Column
    ensures { result ≡ bytes sbox_of w }
{
    w.map(sub)
}

// InvSubBytes of one column.
pub(crate) fn inv_sub_word(w: Column) -> Column
    ensures { result ≡ bytes inv_sbox_of w }
{
    w.map(inv_sub)
}

// SubBytes and MixColumns of one column.
pub(crate) fn sub_and_mix(w: Column) -> Column
    ensures { result ≡ mix_column (bytes sbox_of w) }
{
    sum(each_mixed(w))
}

// InvSubBytes and InvMixColumns of one column.
pub(crate) fn inv_sub_and_mix(w: Column) -> Column
    ensures { result ≡ inv_mix_column (bytes inv_sbox_of w) }
{
    sum(each_unmixed(w))
}
