// A key wrapped (RFC 3394, with AES-128 and the default initial value) under a key encryption key (KEK), with document 01's tests. A wrapped key is 8 bytes
// longer than the key.
ghost use Rattle.std.specs.Prelude.{◌≡◌, ◌++◌, ◌+◌, ◌≤◌, length, drop, OnOk};
ghost use Rattle.refusal.specs.Answers.{checked_as, answer_of, answer_to, buffer_after};
ghost use Rattle.rfc3394.specs.Rfc3394.{wrapped};
ghost use Rattle.keywrap.specs.Calls.{wrap_check};

use crate::check_length;
use crate::passes::{Direction, eight_bytes, passes};
use refusal::{Refusal, check_room};
use slices::copy;

// The tests of a wrapping.
#[tactic(auto, unfolding(keywrap::specs::Calls::wrap_check))]
fn check_wrap(n: usize, room: usize) -> Result<(), Refusal>
    ensures test { checked_as result ≡ wrap_check n room }
    ensures bounds { OnOk result (((16 ≤ n) × (n ≤ 192)) × (n + 8 ≤ room)) }
{
    check_length(n)?;
    check_room(n + 8, room)
}

// Writes the wrapped key at the start of out: the key is copied to its place and wrapped there, and A is put before it.
fn wrap_into(kek: [u8; 16], key: &[u8], out: &mut [u8])
    requires { (length key.now ≤ 192) × (length key.now + 8 ≤ length out.old) }
    ensures { out.new ≡ wrapped kek key.now ++ drop (length key.now + 8) out.old }
{
    let end = key.len() + 8;
    copy(key, &mut out[8..end]);
    let a = passes(kek, Direction::Forward, [[0xa6; 4]; 2], &mut out[8..end]);
    copy(&eight_bytes(a), out);
}

// Wraps the key under the KEK. The wrapped key, 8 bytes longer, is written at the start of out, and its length is the answer.
pub fn wrap(kek: [u8; 16], key: &[u8], out: &mut [u8]) -> Result<usize, Refusal>
    ensures answer { answer_of result ≡ answer_to (wrap_check (length key.now) (length out.old)) (length key.now + 8) }
    ensures buffer { out.new ≡ buffer_after (wrap_check (length key.now) (length out.old)) (length key.now + 8) (wrapped kek key.now) out.old }
{
    check_wrap(key.len(), out.len())?;
    wrap_into(kek, key, out);
    Ok(key.len() + 8)
}
