// RFC 3394 over AES-128: a key wrapped, and a wrapped key unwrapped.
#![tactic(auto)]

mod passes; // the six passes over a key's blocks
mod unwrapping; // a wrapped key unwrapped
mod ways; // the ways through the blocks, forward and back, with a step of each
mod wrapping; // a key wrapped

ghost use Rattle.std.specs.Prelude.{◌≡◌, ◌≤◌, OnOk};
ghost use Rattle.refusal.specs.Answers.{checked_as};
ghost use Rattle.keywrap.specs.Calls.{check23};

use keywrap::is_wrappable;
use refusal::{Refusal, unless};
pub use unwrapping::unwrap;
pub use wrapping::wrap;

// The test of the key's length, which both calls make first.
#[tactic(auto, using(keywrap::proofs::Lengths::passed_bounds))]
fn check_length(n: usize) -> Result<(), Refusal>
    ensures test { checked_as result ≡ check23 n }
    ensures bounds { OnOk result ((16 ≤ n) × (n ≤ 192)) }
{
    unless(is_wrappable(n), Refusal::KeyToWrapLength)
}
