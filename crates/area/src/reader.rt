// Reads the attributes of an area one at a time (document 01, "Attribute area"; RFC 5448 sections 3.1 and 3.2).
ghost use Rattle.std.specs.Prelude.{◌≡◌, ◌≤◌, ◌+◌, ◌-◌, ◌^◌, ◌<◌, IfSome, length};
ghost use Rattle.std.specs.Iterator.{YieldsFirstBy, at_most};
ghost use Rattle.area_format.specs.Area.{in_bytes, words_of, number_of, standing, kdf_input};
ghost use Rattle.area_format.specs.Area;
ghost use Rattle.area.specs.Internal.{met_in, standings};

use area_format::{Attribute, Bytes, Fault, Words};
use refusal::in_range;
use slices::from_be16;

// Whether the bytes are all zero.
fn zeros(bytes: &[u8]) -> bool
    ensures { result ≡ Area.zeros bytes.now }
{
    for byte in bytes {
        if *byte != 0 {
            return false;
        }
    }
    true
}

// An AT_KDF_INPUT of so many bytes, by the length of its name. Its own length belongs to that where name and padding fill the attribute and the padding is
// less than a word.
fn kdf_input(bytes: &[u8], size: Bytes, name: Bytes) -> Attribute
    requires size { size ≡ in_bytes (words_of bytes.now) }
    requires name { name.0 ≡ number_of bytes.now }
    requires within { size.0 ≤ length bytes.now }
    ensures { result ≡ kdf_input bytes.now }
{
    let start = 4 + name.0;
    if !in_range(start, start + 3, size.0) {
        return Attribute::Faulty(Fault::KdfInput);
    }
    if zeros(&bytes[start..size.0]) {
        Attribute::Named(name)
    } else {
        Attribute::Faulty(Fault::KdfInputPadding)
    }
}

// The attribute at the start of the bytes, which go on to the area's end, and its length; none where it does not end within them.
fn met_in(bytes: &[u8]) -> Option<(Attribute, Bytes)>
    ensures { result ≡ met_in bytes.now }
{
    let [kind, words, high, low, ..] = bytes else {
        return None;
    };
    let size = Bytes::from(Words(*words));
    // An AT_KDF of one word takes the four bytes that are there.
    if *kind == 24 && *words == 1 {
        return Some((Attribute::Offer(from_be16(*high, *low)), size));
    }
    if *words == 0 {
        return None;
    }
    if bytes.len() < size.0 {
        return None;
    }
    let met = match *kind {
        24 => Attribute::Faulty(Fault::KdfLength),
        23 => kdf_input(bytes, size, Bytes(usize::from(from_be16(*high, *low)))),
        _ => Attribute::Other,
    };
    Some((met, size))
}

// A reader's place: the area, and an offset in it.
#[derive(Drop)]
pub(crate) struct Reader<'a> {
    area: &'a [u8],
    at: usize,
    ghost within: { at ≤ length area.now },
}

impl<'a> Reader<'a> {
    // A reader at the area's first byte.
    pub(crate) fn new(area: &'a [u8]) -> Self
        ensures { (result.area ≡ area.entry) × (result.at ≡ 0) }
    {
        Reader { area, at: 0 }
    }
}

// The attributes from the reader's place on, each with its offset. One that is not within the area is the last: it has no length byte, is of length 0, or
// goes past the end.
impl<'a> Iterator for Reader<'a> {
    type Item = (usize, Attribute);

    ghost next_gives = { λ reader met after. YieldsFirstBy (λ met. standing met.0 met.1) (λ reader. standings reader.area.now reader.at) reader met after × IfSome met (λ met. met.0 + 4 < 2 ^ 64) };

    ghost remaining = { λ reader. at_most (length reader.area.now - reader.at) };

    fn next(&mut self) -> Option<(usize, Attribute)> {
        let at = self.at;
        if let Some((met, size)) = met_in(&self.area[at..]) {
            self.at = at + size.0;
            return Some((at, met));
        }
        if at == self.area.len() {
            return None;
        }
        self.at = self.area.len();
        Some((at, Attribute::Faulty(Fault::AttributeBounds)))
    }
}
