// Usage keys (RFC 5295; source document 000, section 3; document 01, "Usage keys"): n bytes of prf+ under the EMSK, with a text S of the
// label, a zero byte, optional data and n. The label of a domain root key is refused (document 02, request 6). The crate `requests` has the
// definitions.
#![tactic(auto)]

ghost use Rattle.std.specs.Prelude.{◌≡◌, length};
ghost use Rattle.refusal.specs.Checks.{◌and_then◌, check1};
ghost use Rattle.refusal.specs.Answers.{checked_as, answer_of};
ghost use Rattle.labels.specs.Checks.{label_check, check31};
ghost use Rattle.requests.specs.Rfc5295.{check4};
ghost use Rattle.requests.specs.Requests.{for_usage, request_answer, request_buffer};

use labels::{check_domain_label, check_label};
use refusal::{Refusal, check_root_key};

// The most bytes of optional data.
const MOST_DATA: usize = 2048;

// The tests that come before those of the expansion: 1, 2, 3, 32, 31, 4.
fn check_inputs(emsk: &[u8], label: &[u8], data: &[u8]) -> Result<(), Refusal>
    ensures { checked_as result ≡ (check1 emsk.now and_then label_check label.now and_then check31 label.now and_then check4 «data».now) }
{
    check_root_key(emsk)?;
    check_label(label)?;
    check_domain_label(label)?;
    refusal::unless(data.len() <= MOST_DATA, Refusal::DataLength)
}

// Writes the usage key of a label, optional data and a length n: n bytes at the start of out. The expansion tests 5 and 6.
#[tactic(auto, unfolding(requests::specs::Requests::request_answer, requests::specs::Requests::request_buffer, requests::specs::Requests::check_of, requests::specs::Requests::key_of, requests::specs::Requests::text_of, requests::specs::Rfc5295::usage_text, prf_plus::specs::PrfPlus::expand_check))]
pub fn usage_key(
    emsk: &[u8],
    label: &[u8],
    data: &[u8],
    n: usize,
    out: &mut [u8],
) -> Result<usize, Refusal>
    ensures answer { answer_of result ≡ request_answer emsk.now (for_usage label.now «data».now n (length out.old)) }
    ensures buffer { out.new ≡ request_buffer emsk.now (for_usage label.now «data».now n (length out.old)) out.old }
{
    check_inputs(emsk, label, data)?;
    prf_plus::expand(emsk, &[label, &[0], data, &slices::be16(n)], n, out)
}
