// The exported functions: RADIUS packets.
ghost use Rattle.std.specs.Prelude.{◌≡◌};
ghost use Rattle.hmac.specs.Rfc2104.{hmac_sha256};
ghost use Rattle.outcome.specs.Outcomes.{outcome_of, check_outcome};
ghost use Rattle.packet_rules.specs.Mac.{sign_answer, sign_buffer, check_check};

use outcome::Outcome;

// Source document 004, section 3.3: the MAC of a packet written into its attribute of the type, 32 bytes.
#[unsafe(no_mangle)]
pub extern "C" fn kv_sign_packet(mac_key: &[u8], attribute_type: u8, packet: &mut [u8]) -> Outcome
    ensures answer { result ≡ outcome_of (sign_answer mac_key.now attribute_type packet.old) }
    ensures buffer { packet.new ≡ sign_buffer hmac_sha256 mac_key.now attribute_type packet.old }
{
    packet_mac::sign(mac_key, attribute_type, packet).into()
}

// Source document 004, section 3.3: the MAC in a packet's attribute of the type is checked; 0.
#[unsafe(no_mangle)]
pub extern "C" fn kv_check_packet(mac_key: &[u8], attribute_type: u8, packet: &[u8]) -> Outcome
    ensures { result ≡ check_outcome (check_check hmac_sha256 mac_key.now attribute_type packet.now) }
{
    packet_mac::check(mac_key, attribute_type, packet).into()
}
