// The exported functions: the keys of a handover.
ghost use Rattle.std.specs.Prelude.{◌≡◌, length};
ghost use Rattle.outcome.specs.Outcomes.{outcome_of};
ghost use Rattle.handover_rules.specs.Handover.{r0_answer, r1_answer, r0_name_answer, r0_buffer, r1_buffer, r0_name_buffer};

use outcome::Outcome;

// Source document 003: the R0-Key of an access domain and a supplicant under an rRK, 32 bytes.
#[unsafe(no_mangle)]
pub extern "C" fn kv_r0_key(rrk: &[u8], ad_id: &[u8], spa: &[u8], out: &mut [u8]) -> Outcome
    ensures answer { result ≡ outcome_of (r0_answer rrk.now ad_id.now spa.now (length out.old)) }
    ensures buffer { out.new ≡ r0_buffer rrk.now ad_id.now spa.now out.old }
{
    handover::r0_key(rrk, ad_id, spa, out).into()
}

// Source document 003: the R1-Key of an access node and a supplicant under an R0-Key, 32 bytes.
#[unsafe(no_mangle)]
pub extern "C" fn kv_r1_key(
    r0_key: &[u8],
    ad_id: &[u8],
    an_id: &[u8],
    spa: &[u8],
    out: &mut [u8],
) -> Outcome
    ensures answer { result ≡ outcome_of (r1_answer r0_key.now ad_id.now an_id.now spa.now (length out.old)) }
    ensures buffer { out.new ≡ r1_buffer r0_key.now ad_id.now an_id.now spa.now out.old }
{
    handover::r1_key(r0_key, ad_id, an_id, spa, out).into()
}

// Source document 003: the R0Name of an R0-Key, 16 bytes.
#[unsafe(no_mangle)]
pub extern "C" fn kv_r0_name<'a>(
    r0_key: &'a [u8],
    ad_id: &'a [u8],
    spa: &'a [u8],
    out: &mut [u8],
) -> Outcome
    ensures answer { result ≡ outcome_of (r0_name_answer r0_key.now ad_id.now spa.now (length out.old)) }
    ensures buffer { out.new ≡ r0_name_buffer r0_key.now ad_id.now spa.now out.old }
{
    handover::r0_name(r0_key, ad_id, spa, out).into()
}
