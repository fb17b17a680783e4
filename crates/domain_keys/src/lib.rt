// The keys of a domain (document 02, request 6): the domain root key of RFC 5295, section 4, under the EMSK, and the re-authentication root
// key of RFC 5296, section 4.1, under that. Each call writes 64 bytes of prf+ at the start of out and answers 64.
#![tactic(auto)]

ghost use Rattle.std.specs.Prelude.{◌≡◌, length};
ghost use Rattle.refusal.specs.Answers.{answer_of};
ghost use Rattle.requests.specs.Requests.{for_domain, request_answer, request_buffer};
ghost use Rattle.domain_keys.specs.Rfc5296.{rrk_answer, rrk_buffer};

use labels::check_domain;
use refusal::{Refusal, check_root_key};

// Writes the root key of a domain, the DSRK: its text is that of a usage key with a fixed label, the domain as data and n = 64.
#[tactic(auto, unfolding(requests::specs::Requests::request_answer, requests::specs::Requests::request_buffer, requests::specs::Requests::check_of, requests::specs::Requests::key_of, requests::specs::Requests::text_of, requests::specs::Rfc5295::usage_text, labels::specs::FixedLabels::dsrk_label, prf_plus::specs::PrfPlus::expand_check, refusal::specs::Checks::unless, refusal::specs::Checks::within))]
pub fn domain_root_key(emsk: &[u8], domain: &[u8], out: &mut [u8]) -> Result<usize, Refusal>
    ensures answer { answer_of result ≡ request_answer emsk.now (for_domain domain.now (length out.old)) }
    ensures buffer { out.new ≡ request_buffer emsk.now (for_domain domain.now (length out.old)) out.old }
{
    check_root_key(emsk)?;
    check_domain(domain)?;
    let label = b"dsrk@ietf.org";
    prf_plus::expand(emsk, &[label, &[0], domain, &[0, 64]], 64, out)
}

// Writes the re-authentication root key under a domain root key, which has exactly 64 bytes.
#[tactic(auto, unfolding(crate::specs::Rfc5296::rrk_answer, crate::specs::Rfc5296::rrk_buffer, crate::specs::Rfc5296::rrk_check, crate::specs::Rfc5296::rrk_key, crate::specs::Rfc5296::rrk_text, labels::specs::FixedLabels::rrk_label, prf_plus::specs::PrfPlus::expand_check, refusal::specs::Checks::unless, refusal::specs::Checks::within))]
pub fn domain_reauth_key(dsrk: &[u8], out: &mut [u8]) -> Result<usize, Refusal>
    ensures answer { answer_of result ≡ rrk_answer dsrk.now (length out.old) }
    ensures buffer { out.new ≡ rrk_buffer dsrk.now out.old }
{
    refusal::unless(dsrk.len() == 64, Refusal::RootKeyLength)?;
    let label = b"EAP Re-authentication Root Key@ietf.org";
    prf_plus::expand(dsrk, &[label, &[0], &[0, 64]], 64, out)
}
