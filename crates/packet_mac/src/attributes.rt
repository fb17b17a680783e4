// Walks through the attributes of a RADIUS packet and tests whether it has the place of a Message-Authentication-Code (request 8;
// source document 004, section 3.3).
ghost use Rattle.std.specs.Prelude.{◌≡◌, ◌+◌, ◌-◌, ◌≤◌, IfOk, length};
ghost use Rattle.refusal.specs.Answers.{answer_of, answer_to};
ghost use Rattle.refusal.specs.Checks.{◌and_then◌};
ghost use Rattle.packet_rules.specs.Packet.{length_holds, check36, check37, is_mac, mac_at};
ghost use Rattle.packet_rules.specs.Mac.{packet_check};
ghost use Rattle.packet_mac.specs.Internal.{found_in, seen_also, only_of};

use radius_attributes::size_in;
use refusal::{Refusal, check_root_key, in_range, unless};
use slices::from_be16;

// How many attributes of a type the walk has met: none, one at an offset, or more.
#[derive(Clone, Copy)]
enum Seen {
    Never,
    Once(usize),
    Repeatedly,
}

impl Seen {
    // What is seen with one more, at an offset.
    fn also(self, at: usize) -> Seen
        ensures { result ≡ seen_also self at }
    {
        match self {
            Seen::Never => Seen::Once(at),
            _ => Seen::Repeatedly,
        }
    }

    // The one offset, or the refusal 37.
    fn only(self) -> Result<usize, Refusal>
        ensures { result ≡ only_of self }
    {
        match self {
            Seen::Once(at) => Ok(at),
            _ => Err(Refusal::MacAttribute),
        }
    }
}

// The attributes of a packet from an offset on, left to right, each with its offset: its type, or none where it is cut. One that is cut is the last.
#[derive(Drop)]
struct Attributes<'a> {
    packet: &'a [u8],
    at: usize,
}

impl<'a> Attributes<'a> {
    // All of them: the first follows the header.
    fn new(packet: &'a [u8]) -> Self
        ensures { (result.packet ≡ packet.entry) × (result.at ≡ 20) }
    {
        Attributes { packet, at: 20 }
    }
}

impl<'a> Iterator for Attributes<'a> {
    ghost use Rattle.std.specs.Prelude.{MatchOption};
    ghost use Rattle.std.specs.Iterator.{at_most};
    ghost use Rattle.packet_mac.specs.Internal.{Told};

    type Item = (usize, Option<u8>);

    ghost next_gives = { λ walk met after. MatchOption met (length walk.packet.now ≤ walk.at) (λ met. (met.0 ≡ walk.at) × (after.packet ≡ walk.packet) × Told walk.packet.now walk.at met.1 after.at) };

    ghost remaining = { λ walk. at_most (length walk.packet.now - walk.at) };

    fn next(&mut self) -> Option<(usize, Option<u8>)> {
        let at = self.at;
        if at >= self.packet.len() {
            return None;
        }
        let left = &self.packet[at..];
        match size_in(left) {
            Some(size) => {
                self.at = at + size;
                Some((at, Some(left[0])))
            }
            None => {
                self.at = self.packet.len();
                Some((at, None))
            }
        }
    }
}

// What the packet's attributes have of a type, or the refusal 36 at one that is cut.
fn find(attribute_type: u8, packet: &[u8]) -> Result<Seen, Refusal>
    ensures { result ≡ found_in attribute_type packet.now }
{
    let mut seen = Seen::Never;
    for (at, attribute) in Attributes::new(packet) {
        let kind = attribute.ok_or(Refusal::PacketAttributeBounds)?;
        if kind == attribute_type {
            seen = seen.also(at);
        }
    }
    Ok(seen)
}

// Whether the packet's length is within the limits and like its header.
#[tactic(auto, unfolding(packet_rules::specs::Packet::length_holds, refusal::specs::Checks::within))]
fn length_holds(packet: &[u8]) -> bool
    ensures { result ≡ length_holds packet.now }
{
    let n = packet.len();
    in_range(20, 4096, n) && usize::from(from_be16(packet[2], packet[3])) == n
}

// Whether the attribute at the start of `bytes` is 52 long, with a reserved byte 0 and MAC Type 2.
#[tactic(auto, unfolding(packet_rules::specs::Packet::is_mac))]
fn is_mac(bytes: &[u8]) -> bool
    ensures { result ≡ is_mac bytes.now }
{
    if bytes.len() < 4 {
        return false;
    }
    (bytes[1] == 52) & (bytes[2] == 0) & (bytes[3] == 2)
}

// The walk and the tests 36 and 37: where the MAC's attribute stands, or the first refusal.
fn place_in(attribute_type: u8, packet: &[u8]) -> Result<usize, Refusal>
    ensures answer { answer_of result ≡ answer_to (check36 packet.now and_then check37 attribute_type packet.now) (mac_at attribute_type packet.now) }
    ensures room { IfOk result (λ at. at + 52 ≤ length packet.now) }
{
    let seen = find(attribute_type, packet)?;
    let at = seen.only()?;
    unless(is_mac(&packet[at..]), Refusal::MacAttribute)?;
    Ok(at)
}

// The tests 1, 20, 35, 36 and 37, in this order: where the MAC's attribute stands, or the first refusal. A packet that 35 refuses is not walked.
#[tactic(auto, unfolding(packet_rules::specs::Mac::packet_check))]
pub(crate) fn mac_place(mac_key: &[u8], attribute_type: u8, packet: &[u8]) -> Result<usize, Refusal>
    ensures answer { answer_of result ≡ answer_to (packet_check mac_key.now attribute_type packet.now) (mac_at attribute_type packet.now) }
    ensures room { IfOk result (λ at. at + 52 ≤ length packet.now) }
{
    check_root_key(mac_key)?;
    unless(attribute_type != 0, Refusal::AttributeType)?;
    unless(length_holds(packet), Refusal::PacketLength)?;
    place_in(attribute_type, packet)
}
