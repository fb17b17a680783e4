// The lines of a bundle's table of contents (document 02, request 9): a Key ID, and where in the file the body of it stands.
ghost use Rattle.std.specs.Prelude.{◌≡◌, ◌+◌, ◌*◌, ◌%◌, ◌≤◌, ◌<◌, length};
ghost use Rattle.slices.specs.Numbers.{be16_at};
ghost use Rattle.bundle_rules.specs.Bundle.{contents_end, line_at};

use crate::ids::KeyIds;
use slices::from_be16;

// A line: a Key ID, the offset of its body from the file's first byte, and the body's length.
#[derive(Clone, Copy)]
pub(crate) struct Line<'a> {
    pub id: &'a [u8],
    pub offset: u16,
    pub size: u16,
    ghost long: { length id.now ≡ 16 },
}

// The lines that are left of those of a file, from line `at` on, and where it begins: a walk adds a line's 20 bytes, and has no product.
#[derive(Clone, Copy)]
pub(crate) struct Lines<'a> {
    pub file: &'a [u8],
    pub at: usize,
    pub start: usize,
    pub count: usize,
    ghost few: { count ≤ 64 },
    ghost inside: { contents_end count ≤ length file.now },
    ghost begins: { start ≡ contents_end at },
}

// The number in two bytes of a file, high byte first.
pub(crate) fn number_at(file: &[u8], at: usize) -> u16
    requires { at + 2 ≤ length file.now }
    ensures { result ≡ be16_at file.now at }
{
    from_be16(file[at], file[at + 1])
}

// The bytes of the lines that a count of n in a bundle stands for. A count has two bytes, so n is taken modulo 65,536, as it is written there. The product is
// one of 32 bits: for one of 64 a Cortex-M0+ would need a function of the compiler's.
pub fn lines_length(n: usize) -> usize
    ensures { result ≡ 20 * (n % 65536) }
{
    let lines = (n % 65536) as u32;
    (20 * lines) as usize
}

// Where the contents of n lines end, and line n begins. The product is one of 32 bits, as above.
pub(crate) fn contents_end(n: usize) -> usize
    requires { n ≤ 64 }
    ensures { result ≡ contents_end n }
{
    let lines = n as u32;
    2 + (20 * lines) as usize
}

impl<'a> Lines<'a> {
    // The first of them.
    fn first(self) -> Line<'a>
        requires { self.at < self.count }
        ensures id { result.id.now ≡ (line_at self.entry.file.now self.entry.at).id }
        ensures offset { result.offset ≡ (line_at self.entry.file.now self.entry.at).offset }
        ensures size { result.size ≡ (line_at self.entry.file.now self.entry.at).size }
    {
        let at = self.start;
        Line {
            id: &self.file[at..at + 16],
            offset: number_at(self.file, at + 16),
            size: number_at(self.file, at + 18),
        }
    }
}

impl<'a> Iterator for Lines<'a> {
    ghost use Rattle.std.specs.Iterator.{YieldsFirstBy, item_count};
    ghost use Rattle.bundle_contents.specs.Walks.{line_of, lines_left};

    type Item = Line<'a>;

    ghost next_gives = { YieldsFirstBy line_of lines_left };

    ghost remaining = { item_count lines_left };

    fn next(&mut self) -> Option<Line<'a>> {
        if self.at < self.count {
            let line = self.first();
            self.at += 1;
            self.start += 20;
            Some(line)
        } else {
            None
        }
    }
}

impl<'a> KeyIds<'a> for Lines<'a> {
    ghost use Rattle.bundle_rules.specs.Bundle.{ids_of};
    ghost use Rattle.bundle_contents.specs.Walks.{lines_left};

    ghost ids = { λ lines. ids_of (lines_left lines) };

    fn next_id(&mut self) -> Option<&'a [u8]> {
        let line = self.next()?;
        Some(line.id)
    }
}
