// Compares network names by their fields (RFC 5448, section 3.1; document 02, request 4): in one pass, without a buffer. The names agree where the bytes
// of the shorter stand in the longer and a field ends after them (`PrefixRule` of area_format/specs/Statements.antt).
ghost use Rattle.std.specs.Prelude.{◌≡◌, ◌≤◌, length, take, drop};
ghost use Rattle.slices.specs.Same.{same_list};
ghost use Rattle.area_format.specs.Names.{same_fields};
ghost use Rattle.area.specs.Internal.{ends};

use slices::same_bytes;

// Whether the first n bytes of two names are equal. Differences are gathered, so that no branch goes by a byte. The name of an AT_KDF_INPUT has fewer than
// 65,536 bytes, and 32 bits count them in a register of any core. Longer names, which no attribute holds, are left to `same_bytes`.
fn same_start(a: &[u8], b: &[u8], n: usize) -> bool
    requires n_in_bounds { n ≤ length a.now }
    requires n_in_bounds_2 { n ≤ length b.now }
    ensures { result ≡ same_list (take n a.now) (take n b.now) }
{
    if n >= 0x10000 {
        return same_bytes(&a[..n], &b[..n]);
    }
    let mut differ = 0;
    for i in 0..n as u32 {
        differ |= a[i as usize] ^ b[i as usize];
    }
    differ == 0
}

// Whether a field ends at an offset: at a colon, or at the name's end.
fn field_ends(name: &[u8], at: usize) -> bool
    ensures { result ≡ ends (drop at name.now) }
{
    at >= name.len() || name[at] == b':'
}

// Whether two names agree by their fields.
pub(crate) fn same_fields(a: &[u8], b: &[u8]) -> bool
    ensures { result ≡ same_fields a.now b.now }
{
    let n = a.len().min(b.len());
    field_ends(a, n) & field_ends(b, n) && same_start(a, b, n)
}
