// The reader of the RADIUS Key attribute (source document 004, section 3.1): it tests an attribute, unwraps the key under a KEK, and returns the fields.
#![tactic(auto)]

ghost use Rattle.std.specs.Prelude.{◌≡◌, ◌+◌, ◌≤◌, OnOk, length};
ghost use Rattle.refusal.specs.Checks.{◌and_then◌};
ghost use Rattle.refusal.specs.Answers.{checked_as};
ghost use Rattle.slices.specs.Numbers.{be32_at};
ghost use Rattle.key_frame.specs.KeyFrame.{fields_in, check22, frame_check};
ghost use Rattle.key_reader.specs.KeyReader.{reading_of, reading, read_buffer};

use key_frame::{KeyFields, check_frame, first};
use refusal::{Refusal, unless};
use slices::from_be32;

// What reading yields: the key's length, and the fields.
#[derive(Clone, Copy)]
pub struct KeyRead {
    pub key_len: usize,
    pub fields: KeyFields,
}

// The number that four bytes of s hold from index `at` on, high byte first.
fn number_at(s: &[u8], at: usize) -> u32
    requires { at + 4 ≤ length s.now }
    ensures { result ≡ be32_at s.now at }
{
    from_be32(s[at], s[at + 1], s[at + 2], s[at + 3])
}

// The fields of an attribute that is long enough to hold them.
fn fields(attribute: &[u8]) -> KeyFields
    requires { 52 ≤ length attribute.now }
    ensures { result ≡ fields_in attribute.now }
{
    KeyFields {
        attribute_type: attribute[0],
        app_id: number_at(attribute, 4),
        kek_id: first(&attribute[8..24]),
        key_id: first(&attribute[24..40]),
        lifetime: number_at(attribute, 40),
    }
}

// The tests before the unwrapping: the KEK, and the attribute's frame.
fn check_framed(kek: &[u8], attribute: &[u8]) -> Result<(), Refusal>
    ensures tests { checked_as result ≡ (check22 kek.now and_then frame_check attribute.now) }
    ensures long { OnOk result (76 ≤ length attribute.now) }
{
    unless(kek.len() == 16, Refusal::KekLength)?;
    check_frame(attribute)
}

// Reads an attribute: answers its fields and the key's length, and writes the key. The unwrapping tests the room, and writes nothing before it has yielded the
// initial value.
#[tactic(auto, unfolding(crate::specs::KeyReader::reading, crate::specs::KeyReader::read_buffer, crate::specs::KeyReader::read_check))]
pub fn read(kek: &[u8], attribute: &[u8], out: &mut [u8]) -> Result<KeyRead, Refusal>
    ensures answer { reading_of result ≡ reading kek.now attribute.now (length out.old) }
    ensures buffer { out.new ≡ read_buffer kek.now attribute.now out.old }
{
    check_framed(kek, attribute)?;
    let key_len = keywrap_aes::unwrap(first(kek), &attribute[52..], out)?;
    Ok(KeyRead {
        key_len,
        fields: fields(attribute),
    })
}
