// The exported functions: Key attributes.
ghost use Rattle.std.specs.Prelude.{◌≡◌, length};
ghost use Rattle.key_reader.specs.KeyReader.{reading, read_buffer};
ghost use Rattle.outcome.specs.KeyAttributes.{key_outcome};
ghost use Rattle.ketvaulo.specs.Calls.{key_written, key_buffer};

use outcome::Outcome;
use outcome::key_attributes::KeyAttributeOutcome;

// Source document 004, section 3.1: the Key attribute that carries a key, wrapped under a KEK.
#[unsafe(no_mangle)]
pub extern "C" fn kv_write_key_attribute(
    attribute_type: u8,
    app_id: u32,
    kek_id: &[u8],
    key_id: &[u8],
    lifetime: u32,
    kek: &[u8],
    key: &[u8],
    out: &mut [u8],
) -> Outcome
    ensures answer { result ≡ key_written attribute_type app_id kek_id.now key_id.now lifetime kek.now key.now (length out.old) }
    ensures buffer { out.new ≡ key_buffer attribute_type app_id kek_id.now key_id.now lifetime kek.now key.now out.old }
{
    key_writer::write(
        attribute_type,
        app_id,
        kek_id,
        key_id,
        lifetime,
        kek,
        key,
        out,
    )
    .into()
}

// Source document 004, section 3.1: the fields and the key of a Key attribute.
#[unsafe(no_mangle)]
pub extern "C" fn kv_read_key_attribute(
    kek: &[u8],
    attribute: &[u8],
    out: &mut [u8],
) -> KeyAttributeOutcome
    ensures answer { result ≡ key_outcome (reading kek.now attribute.now (length out.old)) }
    ensures buffer { out.new ≡ read_buffer kek.now attribute.now out.old }
{
    key_reader::read(kek, attribute, out).into()
}
