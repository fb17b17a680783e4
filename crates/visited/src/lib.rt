// The visited-domain keys of source document 001, as document 01 reads it ("Visited keys"): the VRK under the EMSK, a VMSK for a server
// and its domain under the VRK, and the V-rRK under a VMSK. Each call writes 64 bytes of prf+ at the start of out and answers 64.
#![tactic(auto)]

ghost use Rattle.std.specs.Prelude.{◌≡◌, length};
ghost use Rattle.refusal.specs.Answers.{answer_of};
ghost use Rattle.requests.specs.Requests.{for_vrk, request_answer, request_buffer};
ghost use Rattle.visited.specs.Visited.{vmsk_answer, vmsk_buffer, reauth_answer, reauth_buffer};

use labels::{check_domain, check_server_id};
use refusal::{Refusal, check_root_key};

// Writes the VRK: the usage key of its fixed label, with no data and n = 64.
#[tactic(auto, unfolding(requests::specs::Requests::request_answer, requests::specs::Requests::request_buffer, requests::specs::Requests::check_of, requests::specs::Requests::key_of, requests::specs::Requests::text_of, requests::specs::Rfc5295::usage_text, labels::specs::FixedLabels::vrk_label, prf_plus::specs::PrfPlus::expand_check, refusal::specs::Checks::unless, refusal::specs::Checks::within))]
pub fn visited_root_key(emsk: &[u8], out: &mut [u8]) -> Result<usize, Refusal>
    ensures answer { answer_of result ≡ request_answer emsk.now (for_vrk (length out.old)) }
    ensures buffer { out.new ≡ request_buffer emsk.now (for_vrk (length out.old)) out.old }
{
    check_root_key(emsk)?;
    let label = b"EAP Visited domain Root Key";
    prf_plus::expand(emsk, &[label, &[0], &[0, 64]], 64, out)
}

// Writes the VMSK of a server and its domain.
#[tactic(auto, unfolding(crate::specs::Visited::vmsk_answer, crate::specs::Visited::vmsk_buffer, crate::specs::Visited::vmsk_check, crate::specs::Visited::vmsk_key, crate::specs::Visited::vmsk_text, prf_plus::specs::PrfPlus::expand_check, refusal::specs::Checks::unless, refusal::specs::Checks::within))]
pub fn visited_master_key(
    vrk: &[u8],
    server: &[u8],
    domain: &[u8],
    out: &mut [u8],
) -> Result<usize, Refusal>
    ensures answer { answer_of result ≡ vmsk_answer vrk.now server.now domain.now (length out.old) }
    ensures buffer { out.new ≡ vmsk_buffer vrk.now server.now domain.now out.old }
{
    check_root_key(vrk)?;
    check_server_id(server)?;
    check_domain(domain)?;
    prf_plus::expand(vrk, &[server, domain], 64, out)
}

// Writes the V-rRK. Its S is the label alone.
#[tactic(auto, unfolding(crate::specs::Visited::reauth_answer, crate::specs::Visited::reauth_buffer, crate::specs::Visited::reauth_check, crate::specs::Visited::reauth_key, crate::specs::Visited::reauth_text, labels::specs::FixedLabels::visited_reauth_label, prf_plus::specs::PrfPlus::expand_check, refusal::specs::Checks::unless, refusal::specs::Checks::within))]
pub fn visited_reauth_key(vmsk: &[u8], out: &mut [u8]) -> Result<usize, Refusal>
    ensures answer { answer_of result ≡ reauth_answer vmsk.now (length out.old) }
    ensures buffer { out.new ≡ reauth_buffer vmsk.now out.old }
{
    check_root_key(vmsk)?;
    prf_plus::expand(vmsk, &[b"EAP Re-authentication Root Key"], 64, out)
}
