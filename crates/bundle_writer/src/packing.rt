// Key attributes packed end to end, as the writer of a bundle takes them (document 02, request 9): the writer's tests of them.
ghost use Rattle.std.specs.Prelude.{◌≡◌, length};
ghost use Rattle.refusal.specs.Answers.{answer_of, answer_to};
ghost use Rattle.bundle_rules.specs.Bundle.{packed, packed_check};

use bundle_contents::{Bodies, id_repeats};
use refusal::{Refusal, in_range, unless};

// How many attributes are packed in `bytes`, by the writer's tests but that of the room: body by body, then their count and their Key IDs. The bodies are tested
// and counted in one walk.
pub(crate) fn check_packed(bytes: &[u8]) -> Result<usize, Refusal>
    ensures { answer_of result ≡ answer_to (packed_check bytes.now) (length (packed bytes.now)) }
{
    let (bodies, n) = Bodies::check_and_count(bytes)?;
    unless(in_range(1, 64, n), Refusal::BundleCount)?;
    unless(!id_repeats(bodies), Refusal::RepeatedKeyId)?;
    Ok(n)
}
