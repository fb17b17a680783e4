// Signs a RADIUS packet and checks one: the Message-Authentication-Code attribute of MAC Type 2, HMAC-SHA-256 (request 8; source
// document 004, section 3.3). The definitions are those of `packet_rules`.
#![tactic(auto)]

ghost use Rattle.std.specs.Prelude.{◌≡◌, ◌+◌, ◌≤◌, length, replicate};
ghost use Rattle.refusal.specs.Answers.{checked_as, answer_of};
ghost use Rattle.hmac.specs.Rfc2104.{hmac_sha256};
ghost use Rattle.packet_rules.specs.Mac.{with_mac, sign_answer, sign_buffer, check_check};

mod attributes; // the walk through a packet's attributes, and its tests

use crate::attributes::mac_place;
use refusal::{Refusal, unless};
use slices::{copy_at, same_bytes};

// The MAC of a packet whose attribute stands at an offset: its own 32 bytes are read as zero.
#[tactic(auto, unfolding(packet_rules::specs::Mac::with_mac))]
fn mac_of(mac_key: &[u8], at: usize, packet: &[u8]) -> [u8; 32]
    requires { at + 52 ≤ length packet.now }
    ensures { result ≡ hmac_sha256 mac_key.now (with_mac at (replicate 32 0) packet.now) }
{
    hmac::mac_of_parts(
        mac_key,
        &[&packet[..at + 20], &[0u8; 32], &packet[at + 52..]],
    )
}

// Signs a packet: writes its MAC into the attribute of the type.
#[tactic(auto, unfolding(packet_rules::specs::Mac::sign_answer, packet_rules::specs::Mac::sign_buffer))]
pub fn sign(mac_key: &[u8], attribute_type: u8, packet: &mut [u8]) -> Result<usize, Refusal>
    ensures answer { answer_of result ≡ sign_answer mac_key.now attribute_type packet.old }
    ensures buffer { packet.new ≡ sign_buffer hmac_sha256 mac_key.now attribute_type packet.old }
{
    let at = mac_place(mac_key, attribute_type, packet)?;
    let mac = mac_of(mac_key, at, packet);
    copy_at(&mac, at + 20, packet);
    Ok(32)
}

// Checks a packet: its MAC is the one in the attribute of the type.
#[tactic(auto, unfolding(packet_rules::specs::Mac::check_check))]
pub fn check(mac_key: &[u8], attribute_type: u8, packet: &[u8]) -> Result<(), Refusal>
    ensures { checked_as result ≡ check_check hmac_sha256 mac_key.now attribute_type packet.now }
{
    let at = mac_place(mac_key, attribute_type, packet)?;
    let mac = mac_of(mac_key, at, packet);
    unless(
        same_bytes(&packet[at + 20..at + 52], &mac),
        Refusal::MacDiffers,
    )
}
