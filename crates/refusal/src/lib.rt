// Refusals by name and by number, the tests that several calls share, and the answer of a call that writes (document 01, "Refusal numbers"). A test is a
// `Result<(), Refusal>`, and `?` after each gives a call its tests in their order. Every other crate checks its input with these.
#![tactic(auto)]

ghost use Rattle.std.specs.Prelude.{◌≡◌, length};
ghost use Rattle.refusal.specs.Checks.{within, check1, check6};
ghost use Rattle.refusal.specs.Checks;
ghost use Rattle.refusal.specs.Answers.{reason_of, checked_as, answer_of, answer_to, buffer_after};

mod numbers; // the number and the place of a refusal

// Why a call refuses. A refusal is document 01's term: a numbered answer that leaves every lent buffer as it was. The variants stand in the order
// of their numbers: 1 to 28 are those of document 01, 29 to 50 those of document 02, with the request in brackets.
// `reason_of` of specs/Answers.antt gives each its number, and the position or offset that it carries.
#[derive(Clone, Copy)]
pub enum Refusal {
    // root key (EMSK, VRK, VMSK) or MAC key (8) not 64 to 128 bytes; the parent of RFC 5296's key not 64 bytes (6)
    RootKeyLength,
    // label not 1 to 255 bytes
    LabelLength,
    // a label byte outside 32 to 126; the position of the first such byte in the label
    LabelByte(usize),
    // optional data over 2,048 bytes
    DataLength,
    // key length not 1 to 8,160
    KeyLength,
    // output buffer too short
    Room,
    // server ID not 1 to 255 bytes, or a byte of it outside 33 to 126
    ServerId,
    // domain not 1 to 253 bytes, or a byte not a letter, digit, hyphen or dot
    Domain,
    // Session-ID not 1 to 255 bytes
    SessionId,
    // offers not 1 to 16 (1 to 17 when reading an area)
    OfferCount,
    // an offer value occurs twice
    RepeatedOffer,
    // no offer is supported
    NoOfferSupported,
    // reply (on renewal, the choice) equals the first offer
    ReplyIsFirst,
    // reply (on renewal, the choice) is not among the offers
    ReplyNotOffered,
    // renewed list is not the choice followed by the original
    RenewedList,
    // attribute without a length byte, of length 0, or past the area's end; the attribute's offset from the area's first byte
    AttributeBounds(usize),
    // AT_KDF whose length is not 1
    KdfLength,
    // AT_KDF_INPUT whose length disagrees with its name length
    KdfInput,
    // AT_KDF_INPUT missing or repeated
    NetworkName,
    // attribute type 0
    AttributeType,
    // KEK ID or Key ID not 16 bytes
    IdLength,
    // KEK not 16 bytes
    KekLength,
    // key to wrap not a multiple of 8 from 16 to 192 bytes
    KeyToWrapLength,
    // Key attribute of wrong length
    KeyAttributeLength,
    // reserved byte not zero
    ReservedByte,
    // Enc Type not 0
    EncType,
    // IV field not eight bytes A6
    IvField,
    // unwrapping does not yield the initial value A6 (eight times)
    Integrity,
    // AT_KDF_INPUT whose padding is not zero (request 1)
    KdfInputPadding,
    // a differing name (5)
    NetworkNameDiffers,
    // a usage request under the EMSK with the domain label (6)
    DomainLabel,
    // a label with a space, a comma, over 64 bytes without an at-sign, or an at-sign that is a second, first or last (7)
    LabelSyntax,
    // an rRK not 64 or an R0-Key not 32 bytes (2)
    HandoverKeyLength,
    // an identifier of wrong length (2)
    IdentifierLength,
    // packet length outside the limits or unlike its header (8)
    PacketLength,
    // any attribute shorter than 2 or past the end (8)
    PacketAttributeBounds,
    // attribute absent, repeated, not 52 long, reserved not zero, or another MAC Type (8)
    MacAttribute,
    // MAC differs (8)
    MacDiffers,
    // under two bytes or a wrong count (9)
    BundleCount,
    // contents cut short or an offset that is not the previous end (9)
    BundleContents,
    // a file not ending with the last body (9)
    BundleEnd,
    // repeated Key ID (9)
    RepeatedKeyId,
    // CK, IK or SQN of wrong length (11)
    AkaInputLength,
    // a name over 1,016 bytes (11)
    NetworkNameLength,
    // an identity not 1 to 255 bytes (11)
    IdentityLength,
    // full (12)
    SlotsFull,
    // no such live slot (12)
    NoSuchSlot,
    // parent not live (13)
    ParentNotLive,
    // too deep (13)
    TooDeep,
    // a Key ID unlike its line (9)
    KeyIdUnlikeContents,
}

// Whether x is from lo to hi, both counted.
#[tactic(auto, unfolding(crate::specs::Checks::within))]
pub fn in_range(lo: usize, hi: usize, x: usize) -> bool
    ensures { result ≡ within lo hi x }
{
    (lo..=hi).contains(&x)
}

// Ok where the test holds, else the refusal.
#[tactic(auto, unfolding(crate::specs::Checks::unless))]
pub fn unless(ok: bool, why: Refusal) -> Result<(), Refusal>
    ensures { checked_as result ≡ Checks.unless ok (reason_of why) }
{
    if ok { Ok(()) } else { Err(why) }
}

// The test of a root key or a MAC key.
pub fn check_root_key(key: &[u8]) -> Result<(), Refusal>
    ensures { checked_as result ≡ check1 key.now }
{
    unless(in_range(64, 128, key.len()), Refusal::RootKeyLength)
}

// The test that n values fit into an output buffer of `room`.
pub fn check_room(n: usize, room: usize) -> Result<(), Refusal>
    ensures { checked_as result ≡ check6 n room }
{
    unless(n <= room, Refusal::Room)
}

// The answer of a call whose result is at hand, by the test of the room: the bytes go to the start of out, or nothing does.
pub fn put(bytes: &[u8], out: &mut [u8]) -> Result<usize, Refusal>
    ensures answer { answer_of result ≡ answer_to (check6 (length bytes.now) (length out.old)) (length bytes.now) }
    ensures buffer { out.new ≡ buffer_after (check6 (length bytes.now) (length out.old)) (length bytes.now) bytes.now out.old }
{
    check_room(bytes.len(), out.len())?;
    slices::copy(bytes, out);
    Ok(bytes.len())
}
