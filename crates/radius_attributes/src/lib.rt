// RADIUS attributes (RFC 2865, section 5): type, length and value, one after another. A packet's attributes stand so (request 8), and
// those that a bundle is written of (request 9); both are walked by the length of the attribute at the start of what is left.
#![tactic(auto)]

ghost use Rattle.std.specs.Prelude.{◌≡◌};
ghost use Rattle.radius_attributes.specs.Attributes.{whole_size};

// The length of the attribute at the start of `bytes`; none where it is cut.
#[tactic(auto, unfolding(crate::specs::Attributes::whole_size, crate::specs::Attributes::size_in, crate::specs::Attributes::whole))]
pub fn size_in(bytes: &[u8]) -> Option<usize>
    ensures { result ≡ whole_size bytes.now }
{
    let size = usize::from(*bytes.get(1)?);
    if (2 <= size) & (size <= bytes.len()) {
        Some(size)
    } else {
        None
    }
}
