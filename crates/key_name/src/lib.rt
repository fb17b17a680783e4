// Key names (source document 001, section 4.1; document 01, "Visited keys"): the first 8 bytes of SHA-256 over Session-ID then label. The
// two are hashed one after the other and are not joined in a buffer.
#![tactic(auto)]

ghost use Rattle.std.specs.Prelude.{◌≡◌, length};
ghost use Rattle.refusal.specs.Answers.{answer_of};
ghost use Rattle.key_name.specs.Ndf64.{name_answer, name_buffer};

use labels::check_label;
use refusal::{Refusal, in_range};

// The number of bytes in a name.
const NAME: usize = 8;

// Writes the name of a Session-ID and a label: 8 bytes at the start of out. Nothing is hashed if 9, 2, 3 or 32 refuses.
#[tactic(auto, unfolding(crate::specs::Ndf64::name_answer, crate::specs::Ndf64::name_buffer, crate::specs::Ndf64::name_check, crate::specs::Ndf64::name_of))]
pub fn key_name(session: &[u8], label: &[u8], out: &mut [u8]) -> Result<usize, Refusal>
    ensures answer { answer_of result ≡ name_answer session.now label.now (length out.old) }
    ensures buffer { out.new ≡ name_buffer session.now label.now out.old }
{
    refusal::unless(in_range(1, 255, session.len()), Refusal::SessionId)?;
    check_label(label)?;
    let hash = sha256::digest_of_two(session, label);
    refusal::put(&hash[..NAME], out)
}
