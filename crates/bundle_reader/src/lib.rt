// A bundle (document 02, request 9) read: the attributes of a file, packed end to end.
#![tactic(auto)]

ghost use Rattle.std.specs.Prelude.{◌≡◌, length};
ghost use Rattle.refusal.specs.Answers.{answer_of};
ghost use Rattle.bundle_rules.specs.Bundle.{read_answer, read_buffer};

use bundle_contents::Bundle;
use refusal::{Refusal, put};

// Reads a bundle: its attributes, packed end to end, go to the start of out.
#[tactic(auto, unfolding(bundle_rules::specs::Bundle::read_answer, bundle_rules::specs::Bundle::read_buffer, bundle_rules::specs::Bundle::read_check))]
pub fn read(file: &[u8], out: &mut [u8]) -> Result<usize, Refusal>
    ensures answer { answer_of result ≡ read_answer file.now (length out.old) }
    ensures buffer { out.new ≡ read_buffer file.now out.old }
{
    let bundle = Bundle::check(file)?;
    put(bundle.attributes(), out)
}
