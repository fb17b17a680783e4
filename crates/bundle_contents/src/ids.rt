// Key IDs compared (document 02, request 9). Every pair of Key IDs of a bundle is compared, up to 2,016 of them, so it is done by words of four bytes.
ghost use Rattle.std.specs.Prelude.{◌≡◌, ◌+◌, ◌≤◌, List, ◌∷◌, [], ℕ, MatchOption, length};
ghost use Rattle.slices.specs.Same.{same_list};
ghost use Rattle.bundle_rules.specs.Bundle.{id_stands, id_repeats};
ghost use Rattle.bundle_contents.specs.Internal.{word_at, BytesAt};

use slices::same_bytes;

// Key IDs, of 16 bytes each, that come one after the other.
pub trait KeyIds<'a>: Copy {
    ghost ids: { Self → List (List ℕ) };

    // The next of them.
    fn next_id(&mut self) -> Option<&'a [u8]>
        ensures { MatchOption result (ids self.old ≡ []) (λ id. (length id.now ≡ 16) × (ids self.old ≡ id.now ∷ ids self.new)) };
}

// The four bytes from index `at` on, as one number. Which of them is the highest does not matter here: a little-endian core loads them at once in this order.
fn word_at(s: &[u8], at: usize) -> u32
    requires { at + 4 ≤ length s.now }
    ensures word { result ≡ word_at s.now at }
    ensures bytes { BytesAt s.now at }
{
    u32::from_le_bytes([s[at], s[at + 1], s[at + 2], s[at + 3]])
}

// Whether two Key IDs are the same. It stops at the first word that differs, since Key IDs are public; the last word comes first, since IDs that are counted up
// differ there.
pub(crate) fn same_words(a: &[u8], b: &[u8]) -> bool
    requires { (length a.now ≡ 16) × (length b.now ≡ 16) }
    ensures { result ≡ same_list a.now b.now }
{
    if word_at(a, 12) != word_at(b, 12) {
        return false;
    }
    if word_at(a, 0) != word_at(b, 0) {
        return false;
    }
    if word_at(a, 4) != word_at(b, 4) {
        return false;
    }
    word_at(a, 8) == word_at(b, 8)
}

// The same for other crates. Any two byte strings are the same or not, so it asks nothing of them: what is no Key ID is compared byte by byte.
pub fn same_id(a: &[u8], b: &[u8]) -> bool
    ensures { result ≡ same_list a.now b.now }
{
    if a.len() == 16 && b.len() == 16 {
        same_words(a, b)
    } else {
        same_bytes(a, b)
    }
}

// Whether a Key ID stands among others.
fn id_stands<'a, I: KeyIds<'a>>(id: &[u8], ids: I) -> bool
    requires { length id.now ≡ 16 }
    ensures { result ≡ id_stands id.now (I.ids ids) }
{
    let mut left = ids;
    while let Some(other) = left.next_id() {
        if same_words(other, id) {
            return true;
        }
    }
    false
}

// Whether a Key ID stands twice.
pub fn id_repeats<'a, I: KeyIds<'a>>(ids: I) -> bool
    ensures { result ≡ id_repeats (I.ids ids) }
{
    let mut left = ids;
    while let Some(id) = left.next_id() {
        if id_stands(id, left) {
            return true;
        }
    }
    false
}
