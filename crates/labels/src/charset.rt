// Which bytes a label, a server ID and a domain may hold, and the test of a text by its length and its bytes (document 01, "Refusal numbers",
// 2, 3, 7 and 8).
ghost use Rattle.std.specs.Prelude.{◌≡◌};
ghost use Rattle.labels.specs.Bytes.{first_bad};
ghost use Rattle.labels.specs.Internal.{byte_in, text_form};

use refusal::in_range;

// The bytes that a label, a server ID and a domain may hold.
#[derive(Clone, Copy)]
pub(crate) enum ByteSet {
    Label,
    Server,
    Domain,
}

impl ByteSet {
    // Whether a byte is one of the set. A domain's are letters, digits, hyphens and dots.
    #[tactic(auto, unfolding(crate::specs::Bytes::label_byte, crate::specs::Bytes::server_byte, crate::specs::Bytes::domain_byte, refusal::specs::Checks::within))]
    fn contains(self, b: u8) -> bool
        ensures { result ≡ byte_in self b }
    {
        match self {
            ByteSet::Label => (32..=126).contains(&b),
            ByteSet::Server => (33..=126).contains(&b),
            ByteSet::Domain => b.is_ascii_alphanumeric() | (b == b'-') | (b == b'.'),
        }
    }
}

// What is wrong with a text first. The position of a bad byte counts from 0.
#[derive(Drop)]
pub(crate) enum TextFault {
    WrongLength,
    BadByte(usize),
}

// The position of the first byte that is not in the set, if there is one.
fn first_bad(text: &[u8], set: ByteSet) -> Option<usize>
    ensures { result ≡ first_bad (byte_in set) text.now }
{
    text.iter().position(|b| !set.contains(*b))
}

// Tests a text that should have 1 to `longest` bytes of the set. A text of another length is not scanned.
#[tactic(auto, unfolding(crate::specs::Internal::text_form))]
pub(crate) fn check_text(text: &[u8], set: ByteSet, longest: usize) -> Result<(), TextFault>
    ensures { result ≡ text_form (byte_in set) longest text.now }
{
    if !in_range(1, longest, text.len()) {
        return Err(TextFault::WrongLength);
    }
    match first_bad(text, set) {
        None => Ok(()),
        Some(i) => Err(TextFault::BadByte(i)),
    }
}
