// The key wrap of RFC 3394 with AES-128 and the default initial value, as document 01 calls it: the tests of its two calls are defined in specs/, and the
// test of the key's length, which the Key attribute's frame shares, is made here. The calls are those of keywrap_aes.
#![tactic(auto)]

ghost use Rattle.std.specs.Prelude.{◌≡◌};
ghost use Rattle.keywrap.specs.Calls.{wrappable};

use refusal::in_range;

// Whether a key of n bytes can be wrapped: a multiple of 8 from 16 to 192.
#[tactic(auto, unfolding(crate::specs::Calls::wrappable))]
pub fn is_wrappable(n: usize) -> bool
    ensures { result ≡ wrappable n }
{
    in_range(16, 192, n) & (n % 8 == 0)
}
