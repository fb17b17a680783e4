// Tests of texts. Those of a label are document 01's numbers 2 and 3 ("Refusal numbers"), and document 02's 32; those of server IDs and domains are 7 and 8.
// This is the one place that tests them.
#![tactic(auto)]

ghost use Rattle.std.specs.Prelude.{◌≡◌};
ghost use Rattle.refusal.specs.Checks.{◌and_then◌};
ghost use Rattle.labels.specs.Checks.{check2, check3, check32, label_check};
ghost use Rattle.refusal.specs.Answers.{checked_as};

mod charset; // which bytes a text may hold, and the test of its length and bytes
mod fixed; // the labels that the papers fix: exempt from the syntax, and 31
mod identifiers; // the tests of server IDs and domains: 7 and 8
mod syntax; // the syntax of a label

use crate::charset::{ByteSet, TextFault, check_text};
use crate::fixed::is_exempt;
use crate::syntax::is_breach;
pub use fixed::check_domain_label;
pub use identifiers::{check_domain, check_server_id};
use refusal::Refusal;

// Tests the length and the bytes of a label: 2, 3. The position that the scan found goes with 3.
fn check_bytes(label: &[u8]) -> Result<(), Refusal>
    ensures { checked_as result ≡ (check2 label.now and_then check3 label.now) }
{
    check_text(label, ByteSet::Label, 255).map_err(|fault| match fault {
        TextFault::WrongLength => Refusal::LabelLength,
        TextFault::BadByte(i) => Refusal::LabelByte(i),
    })
}

// Tests the syntax of a label: 32. Whether it is exempt is looked up only on a breach.
#[tactic(auto, unfolding(crate::specs::Checks::check32))]
fn check_syntax(label: &[u8]) -> Result<(), Refusal>
    ensures { checked_as result ≡ check32 label.now }
{
    refusal::unless(!is_breach(label) || is_exempt(label), Refusal::LabelSyntax)
}

// Tests a label, for usage keys and for names: 2, 3, 32.
#[tactic(auto, unfolding(crate::specs::Checks::label_check))]
pub fn check_label(label: &[u8]) -> Result<(), Refusal>
    ensures { checked_as result ≡ label_check label.now }
{
    check_bytes(label)?;
    check_syntax(label)
}
