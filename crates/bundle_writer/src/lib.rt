// A bundle (document 02, request 9) written: the file of attributes that are packed end to end.
#![tactic(auto)]

ghost use Rattle.std.specs.Prelude.{◌≡◌, ◌++◌, ◌+◌, ◌≤◌, length, take, drop};
ghost use Rattle.refusal.specs.Answers.{answer_of};
ghost use Rattle.bundle_rules.specs.Bundle.{contents_end, line_of, lines_of, packed, write_answer, write_buffer};

mod packing; // the tests of attributes packed end to end

use crate::packing::check_packed;
use bundle_contents::{Bodies, Body, lines_length};
use refusal::{Refusal, check_room};
use slices::{be16, copy_at};

// Writes the line of a body to out, from index `at` on: its Key ID, its offset and its length.
fn put_line(body: Body, offset: usize, at: usize, out: &mut [u8])
    requires { at + 20 ≤ length out.old }
    ensures { out.new ≡ take at out.old ++ (line_of offset body.entry.bytes.now ++ drop (at + 20) out.old) }
{
    copy_at(body.id(), at, out);
    copy_at(&be16(offset), at + 16, out);
    copy_at(&be16(body.bytes.len()), at + 18, out);
}

// Writes the lines of bodies to out, from index 2 on. The bodies will begin at `contents`.
fn put_lines(bodies: Bodies, contents: usize, out: &mut [u8])
    requires contents_value { contents ≡ contents_end (length (packed bodies.bytes.now)) }
    requires in_bounds { contents + length bodies.bytes.now ≤ length out.old }
    ensures { out.new ≡ take 2 out.old ++ (lines_of contents (packed bodies.entry.bytes.now) ++ drop contents out.old) }
{
    let mut offset = contents;
    let mut at = 2;
    for body in bodies {
        put_line(body, offset, at, out);
        offset += body.bytes.len();
        at += 20;
    }
}

// Writes the bundle of attributes that are packed end to end, and answers its length.
pub fn write(attributes: &[u8], out: &mut [u8]) -> Result<usize, Refusal>
    ensures answer { answer_of result ≡ write_answer attributes.now (length out.old) }
    ensures buffer { out.new ≡ write_buffer attributes.now out.old }
{
    let n = check_packed(attributes)?;
    let contents = 2 + lines_length(n);
    let size = contents + attributes.len();
    check_room(size, out.len())?;
    copy_at(&be16(n), 0, out);
    put_lines(Bodies { bytes: attributes }, contents, out);
    copy_at(attributes, contents, out);
    Ok(size)
}
