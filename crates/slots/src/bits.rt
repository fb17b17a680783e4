// Bits of a word of 64. Both functions shift halves of 32 bits: Cortex-M0+ has no shift of 64 bits by a number that is not known before,
// and the compiler would call a function of its own for it, which the library is not to need.
ghost use Rattle.std.specs.Prelude.{◌≡◌, ◌<◌, ◌^◌};
ghost use Rattle.slots.specs.Internal.{has_bit};

// Whether bit i is set; none is from 64 on.
pub(crate) fn has_bit(word: u64, i: u64) -> bool
    ensures { result ≡ has_bit word i }
{
    let low = (word % 0x1_0000_0000) as u32;
    let high = (word / 0x1_0000_0000) as u32;
    if i < 32 {
        (low >> i) % 2 == 1
    } else if i < 64 {
        (high >> (i - 32)) % 2 == 1
    } else {
        false
    }
}

// The word with bit i alone set.
pub(crate) fn mask(i: u32) -> u64
    requires { i < 64 }
    ensures { result ≡ 2 ^ i }
{
    let one: u32 = 1;
    if i < 32 {
        u64::from(one << i)
    } else {
        u64::from(one << (i - 32)) * 0x1_0000_0000
    }
}
