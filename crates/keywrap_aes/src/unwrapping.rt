// A wrapped key unwrapped (RFC 3394, with AES-128 and the default initial value) under a key encryption key (KEK), with document 01's tests and a check of its
// integrity.
ghost use Rattle.std.specs.Prelude.{◌≡◌, ◌-◌, ◌≤◌, length, OnOk};
ghost use Rattle.refusal.specs.Checks.{◌and_then◌, check6};
ghost use Rattle.refusal.specs.Answers.{checked_as, answer_of, answer_to, buffer_after};
ghost use Rattle.slices.specs.Same.{same_list};
ghost use Rattle.rfc3394.specs.Rfc3394.{high, initial_value, unwrapped_iv, unwrapped_key};
ghost use Rattle.keywrap.specs.Calls.{check23, check28, unwrap_check, key_length};

use crate::check_length;
use crate::passes::{Direction, Half, eight_bytes, front, passes};
use refusal::{Refusal, check_room, unless};
use slices::{copy, same_bytes};

// The tests of an unwrapping, before its integrity.
fn check_unwrap(n: usize, room: usize) -> Result<(), Refusal>
    ensures tests { checked_as result ≡ (check23 n and_then check6 n room) }
    ensures bounds { OnOk result (((16 ≤ n) × (n ≤ 192)) × (n ≤ room)) }
{
    check_length(n)?;
    check_room(n, room)
}

// Whether a is the initial value. All eight bytes are read before it is decided.
fn is_initial(a: Half) -> bool
    ensures { result ≡ same_list (high a) initial_value }
{
    same_bytes(&eight_bytes(a), &[0xa6; 8])
}

// Unwraps to scratch, which is as long as the key, and tests the integrity.
fn unwrap_into(kek: [u8; 16], wrapped: &[u8], scratch: &mut [u8]) -> Result<(), Refusal>
    requires { (8 ≤ length wrapped.now) × (length scratch.old ≤ 192) × (length scratch.old ≡ key_length wrapped.now) }
    ensures integrity { checked_as result ≡ check28 (unwrapped_iv kek wrapped.now) }
    ensures key { scratch.new ≡ unwrapped_key kek wrapped.now }
{
    copy(&wrapped[8..], scratch);
    let a = passes(kek, Direction::Back, front(&wrapped[..8]), scratch);
    unless(is_initial(a), Refusal::Integrity)
}

// Unwraps a wrapped key under the KEK. The key, 8 bytes shorter, is written at the start of out, and its length is the answer. Until its integrity is known,
// out is not written.
#[tactic(auto, unfolding(keywrap::specs::Calls::unwrap_check))]
pub fn unwrap(kek: [u8; 16], wrapped: &[u8], out: &mut [u8]) -> Result<usize, Refusal>
    ensures answer { answer_of result ≡ answer_to (unwrap_check kek wrapped.now (length out.old)) (key_length wrapped.now) }
    ensures buffer { out.new ≡ buffer_after (unwrap_check kek wrapped.now (length out.old)) (key_length wrapped.now) (unwrapped_key kek wrapped.now) out.old }
{
    let n = wrapped.len().saturating_sub(8);
    check_unwrap(n, out.len())?;
    let mut scratch = [0u8; 192];
    unwrap_into(kek, wrapped, &mut scratch[..n])?;
    copy(&scratch[..n], out);
    Ok(n)
}
