// The attribute area that carries the offers (document 01, "Attribute area"; RFC 5448 sections 3.1 and 3.2): the attributes that stand in it, and the
// definition of what reading it answers. The one function here makes bytes of words.
#![tactic(auto)]

ghost use Rattle.std.specs.Prelude.{◌≡◌};
ghost use Rattle.area_format.specs.Area.{in_bytes};

// Attribute Length counts four-byte words, the name length counts bytes: a type for each, so that neither is taken for the other. The length of an
// attribute has one byte.
#[derive(Clone, Copy)]
pub struct Words(pub u8);

#[derive(Clone, Copy)]
pub struct Bytes(pub usize);

// The one conversion between the two counts.
impl From<Words> for Bytes {
    ghost from_gives = { λ words bytes. bytes ≡ in_bytes words };

    fn from(words: Words) -> Bytes {
        Bytes(4 * usize::from(words.0))
    }
}

// What stands in the area: an AT_KDF with its value; an AT_KDF_INPUT with its name's length; any other attribute; or one that is refused.
#[derive(Drop)]
pub enum Attribute {
    Offer(u16),
    Named(Bytes),
    Other,
    Faulty(Fault),
}

// Why the reading of an area stops. It is a byte, where a refusal carries a place: the walk keeps it in a register.
#[derive(Drop)]
pub enum Fault {
    // attribute without a length byte, of length 0, or past the area's end
    AttributeBounds,
    // AT_KDF whose length is not 1
    KdfLength,
    // AT_KDF_INPUT whose length disagrees with its name length
    KdfInput,
    // AT_KDF_INPUT whose padding is not zero
    KdfInputPadding,
    // AT_KDF_INPUT missing or repeated
    NetworkName,
    // no AT_KDF, or an eighteenth
    OfferCount,
}

// The way in which an area is read (document 02, request 5): the strict one refuses a name that differs from the peer's own, the lenient one
// reports it.
#[derive(Drop)]
pub enum Way {
    Strict,
    Lenient,
}

// The name that an area holds: its offset from the area's first byte, and its length.
#[derive(Clone, Copy)]
pub struct Name {
    pub at: usize,
    pub len: Bytes,
}
