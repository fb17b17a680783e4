// What the call that reads a Key attribute returns to C.
ghost use Rattle.std.specs.Prelude.{◌≡◌};
ghost use Rattle.key_reader.specs.KeyReader.{reading_of};
ghost use Rattle.outcome.specs.KeyAttributes.{key_outcome};
ghost use Rattle.outcome.specs.Internal.{length_low};

use key_reader::KeyRead;
use refusal::Refusal;

// What reading a Key attribute returns to C. Every field but the number is 0 on a refusal.
#[repr(C)]
#[derive(Clone, Copy, Default)]
pub struct KeyAttributeOutcome {
    pub refusal: u32,
    pub app_id: u32,
    pub lifetime: u32,
    pub key_len: u32,
    pub attribute_type: u8,
    pub kek_id: [u8; 16],
    pub key_id: [u8; 16],
}

// What reading a Key attribute answers, for C. A key has at most 192 bytes, so the low bits are all of its length.
impl From<Result<KeyRead, Refusal>> for KeyAttributeOutcome {
    ghost from_gives = { λ read outcome. outcome ≡ key_outcome (length_low (reading_of read)) };

    fn from(read: Result<KeyRead, Refusal>) -> KeyAttributeOutcome {
        match read {
            Ok(KeyRead { key_len, fields }) => {
                let kek_id = fields.kek_id;
                let key_id = fields.key_id;
                KeyAttributeOutcome {
                    refusal: 0,
                    app_id: fields.app_id,
                    lifetime: fields.lifetime,
                    key_len: crate::low(key_len),
                    attribute_type: fields.attribute_type,
                    kek_id,
                    key_id,
                }
            }
            Err(why) => KeyAttributeOutcome {
                refusal: why.number(),
                ..KeyAttributeOutcome::default()
            },
        }
    }
}
