// The writer of the RADIUS Key attribute (source document 004, section 3.1): a key, wrapped under a KEK, with the fields that name it.
#![tactic(auto)]

ghost use Rattle.std.specs.Prelude.{◌≡◌, ◌++◌, ◌≤◌, length, drop};
ghost use Rattle.refusal.specs.Checks.{◌and_then◌, check20};
ghost use Rattle.refusal.specs.Answers.{checked_as, answer_of};
ghost use Rattle.key_frame.specs.KeyFrame.{fields_of, header, check22};
ghost use Rattle.key_writer.specs.KeyWriter.{check21, write_answer, write_buffer};

use key_frame::{KeyFields, first};
use refusal::{Refusal, unless};
use slices::{be32, copy_at};

// Writes bytes 0 to 51 of an attribute that is `length_byte` bytes long: all that stands before the wrapped key.
fn put_header(fields: KeyFields, length_byte: u8, out: &mut [u8])
    requires { 52 ≤ length out.old }
    ensures { out.new ≡ header fields length_byte ++ drop 52 out.old }
{
    copy_at(&[fields.attribute_type, length_byte, 0, 0], 0, out);
    copy_at(&be32(fields.app_id), 4, out);
    copy_at(&fields.kek_id, 8, out);
    copy_at(&fields.key_id, 24, out);
    copy_at(&be32(fields.lifetime), 40, out);
    copy_at(&[0xa6; 8], 44, out);
}

// The writer's tests before the wrapping: the type, the two IDs, the KEK.
fn check_named(attribute_type: u8, kek_id: &[u8], key_id: &[u8], kek: &[u8]) -> Result<(), Refusal>
    ensures { checked_as result ≡ (check20 attribute_type and_then check21 kek_id.now key_id.now and_then check22 kek.now) }
{
    unless(attribute_type != 0, Refusal::AttributeType)?;
    unless(
        (kek_id.len() == 16) & (key_id.len() == 16),
        Refusal::IdLength,
    )?;
    unless(kek.len() == 16, Refusal::KekLength)
}

// Writes the attribute that carries a key, wrapped under a KEK, and answers its length. The part of out from byte 52 on is lent to the wrap routine, which tests
// the key's length and the room. The bytes before it are written once the wrap routine has accepted both.
#[tactic(auto, unfolding(crate::specs::KeyWriter::write_answer, crate::specs::KeyWriter::write_buffer, crate::specs::KeyWriter::write_check))]
pub fn write(
    attribute_type: u8,
    app_id: u32,
    kek_id: &[u8],
    key_id: &[u8],
    lifetime: u32,
    kek: &[u8],
    key: &[u8],
    out: &mut [u8],
) -> Result<usize, Refusal>
    ensures answer { answer_of result ≡ write_answer (fields_of attribute_type app_id kek_id.now key_id.now lifetime) kek.now key.now (length out.old) }
    ensures buffer { out.new ≡ write_buffer (fields_of attribute_type app_id kek_id.now key_id.now lifetime) kek.now key.now out.old }
{
    check_named(attribute_type, kek_id, key_id, kek)?;
    let start = out.len().min(52);
    let wrapped = keywrap_aes::wrap(first(kek), key, &mut out[start..])?;
    let fields = KeyFields {
        attribute_type,
        app_id,
        kek_id: first(kek_id),
        key_id: first(key_id),
        lifetime,
    };
    let all = 52 + wrapped;
    put_header(fields, all as u8, out);
    Ok(all)
}
