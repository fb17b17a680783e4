// A column of the AES state as one word of 32 bits, so that its four bytes are added or moved at once.
ghost use Rattle.std.specs.Prelude.{◌≡◌, get_or};
ghost use Rattle.fips197.specs.State.{bytes, add_column};
ghost use Rattle.aes128.specs.Internal.{word_of, column_of, turned};

// A column of the state: four bytes, the first in row 0.
pub type Column = [u8; 4];

// The word of a column, the byte of row 0 the lowest.
pub(crate) fn word(w: Column) -> u32
    ensures word { result ≡ word_of (get_or w 0 0) (get_or w 1 0) (get_or w 2 0) (get_or w 3 0) }
    ensures column { column_of result ≡ bytes (λ x. x) w }
{
    u32::from_le_bytes(w)
}

// The column of a word.
pub(crate) fn column(x: u32) -> Column
    ensures { result ≡ column_of x }
{
    x.to_le_bytes()
}

// A word with each byte moved one row up, and that of row 0 to row 3.
pub(crate) fn turn(x: u32) -> u32
    ensures { result ≡ turned x }
{
    x.rotate_right(8)
}

// The sum of two columns.
pub(crate) fn add_column(w: Column, k: Column) -> Column
    ensures { result ≡ add_column w k }
{
    column(word(w) ^ word(k))
}
