// Slices: equality of bytes, copying, numbers high byte first. The laws of byte lists that several crates need are in proofs/.
#![tactic(auto)]

ghost use Rattle.std.specs.Prelude.{◌≡◌, ◌+◌, ◌-◌, ◌≤◌, ◌++◌, length, take, drop};
ghost use Rattle.slices.specs.Numbers as Numbers;
ghost use Rattle.slices.specs.Same.{same_list};

// The two low bytes of a number, high byte first.
pub fn be16(x: usize) -> [u8; 2]
    ensures { result ≡ Numbers.be16 x }
{
    ((x % 0x10000) as u16).to_be_bytes()
}

// A number as four bytes, high byte first.
pub fn be32(x: u32) -> [u8; 4]
    ensures { result ≡ Numbers.be32 x }
{
    x.to_be_bytes()
}

// A number as eight bytes, high byte first.
pub fn be64(n: u64) -> [u8; 8]
    ensures { result ≡ Numbers.be64 n }
{
    n.to_be_bytes()
}

// The number that two bytes hold, high byte first.
pub fn from_be16(a: u8, b: u8) -> u16
    ensures { result ≡ Numbers.from_be16 a b }
{
    u16::from_be_bytes([a, b])
}

// The number that four bytes hold, high byte first.
pub fn from_be32(a: u8, b: u8, c: u8, d: u8) -> u32
    ensures { result ≡ Numbers.from_be32 a b c d }
{
    u32::from_be_bytes([a, b, c, d])
}

// Whether two byte strings are equal. All bytes are read where the lengths agree, and their differences are gathered, so that no branch goes by a byte.
pub fn same_bytes(a: &[u8], b: &[u8]) -> bool
    ensures { result ≡ same_list a.now b.now }
{
    if a.len() != b.len() {
        return false;
    }
    let mut differ = 0;
    for i in 0..a.len() {
        differ |= a[i] ^ b[i];
    }
    differ == 0
}

// Copies values to the start of `to`, as many as it has room for.
pub fn copy<T: Copy>(from: &[T], to: &mut [T])
    ensures { to.new ≡ take (length to.old) from.now ++ drop (length from.now) to.old }
{
    let n = from.len().min(to.len());
    to[..n].copy_from_slice(&from[..n]);
}

// Copies values into `to` from index `at` on, as many as there is room for there.
pub fn copy_at<T: Copy>(from: &[T], at: usize, to: &mut [T])
    ensures copied { to.new ≡ take at to.old ++ (take (length to.old - at) from.now ++ drop (at + length from.now) to.old) }
    ensures fits { at + length from.now ≤ length to.old → to.new ≡ take at to.old ++ (from.now ++ drop (at + length from.now) to.old) }
{
    let start = at.min(to.len());
    copy(from, &mut to[start..]);
}
