// The frame of the RADIUS Key attribute (source document 004, section 3.1): its fields, the tests of an attribute that need no KEK, and the first bytes of
// a slice by value, as IDs and KEKs are handed on.
#![tactic(auto)]

ghost use Rattle.std.specs.Prelude.{◌≡◌, ◌≤◌, OnOk, length};
ghost use Rattle.refusal.specs.Answers.{checked_as};
ghost use Rattle.key_frame.specs.KeyFrame.{check24, frame_check, first_of};

use keywrap::is_wrappable;
use refusal::{Refusal, unless};
use slices::same_bytes;

// The fields of a Key attribute besides the key.
#[derive(Clone, Copy)]
pub struct KeyFields {
    pub attribute_type: u8,
    pub app_id: u32,
    pub kek_id: [u8; 16],
    pub key_id: [u8; 16],
    pub lifetime: u32,
}

// The test that the length byte counts the bytes lent, and that an attribute can have so many.
fn check_length(attribute: &[u8]) -> Result<(), Refusal>
    ensures test { checked_as result ≡ check24 attribute.now }
    ensures long { OnOk result (60 ≤ length attribute.now) }
{
    let n = attribute.len();
    if n < 60 {
        return Err(Refusal::KeyAttributeLength);
    }
    unless(
        (usize::from(attribute[1]) == n) & is_wrappable(n - 60),
        Refusal::KeyAttributeLength,
    )
}

// The tests of an attribute that need no KEK: its length, its type, the two bytes that must be 0, and its IV.
#[tactic(auto, unfolding(crate::specs::KeyFrame::frame_check))]
pub fn check_frame(attribute: &[u8]) -> Result<(), Refusal>
    ensures { checked_as result ≡ frame_check attribute.now }
{
    check_length(attribute)?;
    unless(attribute[0] != 0, Refusal::AttributeType)?;
    unless(attribute[2] == 0, Refusal::ReservedByte)?;
    unless(attribute[3] == 0, Refusal::EncType)?;
    unless(same_bytes(&attribute[44..52], &[0xa6; 8]), Refusal::IvField)
}

// The first N bytes of s by value, and zeros after them where s has fewer.
pub fn first<const N: usize>(s: &[u8]) -> [u8; N]
    ensures { result ≡ first_of N s.now }
{
    let mut r = [0u8; N];
    slices::copy(s, &mut r);
    r
}
