// The exported functions: usage keys, the keys of the visited domain, the keys of a domain, the keys of EAP-AKA', key names.
ghost use Rattle.std.specs.Prelude.{◌≡◌, length};
ghost use Rattle.outcome.specs.Outcomes.{outcome_of};
ghost use Rattle.requests.specs.Requests.{for_usage, for_vrk, for_domain, request_answer, request_buffer};
ghost use Rattle.visited.specs.Visited.{vmsk_answer, vmsk_buffer, reauth_answer, reauth_buffer};
ghost use Rattle.domain_keys.specs.Rfc5296.{rrk_answer, rrk_buffer};
ghost use Rattle.aka_keys.specs.Rfc5448.{aka_answer, aka_buffer};
ghost use Rattle.key_name.specs.Ndf64.{name_answer, name_buffer};

use outcome::Outcome;

// RFC 5295: the usage key of a label, optional data and a length n under an EMSK, n bytes.
#[unsafe(no_mangle)]
pub extern "C" fn kv_usage_key<'a>(
    emsk: &[u8],
    label: &'a [u8],
    data: &'a [u8],
    n: u64,
    out: &mut [u8],
) -> Outcome
    ensures answer { result ≡ outcome_of (request_answer emsk.now (for_usage label.now «data».now n (length out.old))) }
    ensures buffer { out.new ≡ request_buffer emsk.now (for_usage label.now «data».now n (length out.old)) out.old }
{
    usage::usage_key(emsk, label, data, n as usize, out).into()
}

// Source document 001: the VRK under an EMSK, 64 bytes.
#[unsafe(no_mangle)]
pub extern "C" fn kv_visited_root_key(emsk: &[u8], out: &mut [u8]) -> Outcome
    ensures answer { result ≡ outcome_of (request_answer emsk.now (for_vrk (length out.old))) }
    ensures buffer { out.new ≡ request_buffer emsk.now (for_vrk (length out.old)) out.old }
{
    visited::visited_root_key(emsk, out).into()
}

// Source document 001: the VMSK of a server and a domain under a VRK, 64 bytes.
#[unsafe(no_mangle)]
pub extern "C" fn kv_visited_master_key<'a>(
    vrk: &[u8],
    server_id: &'a [u8],
    domain: &'a [u8],
    out: &mut [u8],
) -> Outcome
    ensures answer { result ≡ outcome_of (vmsk_answer vrk.now server_id.now domain.now (length out.old)) }
    ensures buffer { out.new ≡ vmsk_buffer vrk.now server_id.now domain.now out.old }
{
    visited::visited_master_key(vrk, server_id, domain, out).into()
}

// Source document 001: the V-rRK under a VMSK, 64 bytes.
#[unsafe(no_mangle)]
pub extern "C" fn kv_visited_reauth_key(vmsk: &[u8], out: &mut [u8]) -> Outcome
    ensures answer { result ≡ outcome_of (reauth_answer vmsk.now (length out.old)) }
    ensures buffer { out.new ≡ reauth_buffer vmsk.now out.old }
{
    visited::visited_reauth_key(vmsk, out).into()
}

// RFC 5295: the root key of a domain under an EMSK, 64 bytes.
#[unsafe(no_mangle)]
pub extern "C" fn kv_domain_root_key<'a>(emsk: &[u8], domain: &'a [u8], out: &mut [u8]) -> Outcome
    ensures answer { result ≡ outcome_of (request_answer emsk.now (for_domain domain.now (length out.old))) }
    ensures buffer { out.new ≡ request_buffer emsk.now (for_domain domain.now (length out.old)) out.old }
{
    domain_keys::domain_root_key(emsk, domain, out).into()
}

// RFC 5296: the re-authentication root key under the root key of a domain, 64 bytes.
#[unsafe(no_mangle)]
pub extern "C" fn kv_domain_reauth_key(dsrk: &[u8], out: &mut [u8]) -> Outcome
    ensures answer { result ≡ outcome_of (rrk_answer dsrk.now (length out.old)) }
    ensures buffer { out.new ≡ rrk_buffer dsrk.now out.old }
{
    domain_keys::domain_reauth_key(dsrk, out).into()
}

// RFC 5448: K_encr, K_aut, K_re, MSK and EMSK of EAP-AKA' from CK and IK, 208 bytes.
#[unsafe(no_mangle)]
pub extern "C" fn kv_aka_keys<'a>(
    ck: &[u8],
    ik: &[u8],
    name: &'a [u8],
    sqn_xor_ak: &'a [u8],
    identity: &'a [u8],
    out: &mut [u8],
) -> Outcome
    ensures answer { result ≡ outcome_of (aka_answer ck.now ik.now name.now sqn_xor_ak.now identity.now (length out.old)) }
    ensures buffer { out.new ≡ aka_buffer ck.now ik.now name.now sqn_xor_ak.now identity.now out.old }
{
    aka_keys::aka_keys(ck, ik, name, sqn_xor_ak, identity, out).into()
}

// Source document 001: the name of a Session-ID and a label, 8 bytes.
#[unsafe(no_mangle)]
pub extern "C" fn kv_key_name(session_id: &[u8], label: &[u8], out: &mut [u8]) -> Outcome
    ensures answer { result ≡ outcome_of (name_answer session_id.now label.now (length out.old)) }
    ensures buffer { out.new ≡ name_buffer session_id.now label.now out.old }
{
    key_name::key_name(session_id, label, out).into()
}
