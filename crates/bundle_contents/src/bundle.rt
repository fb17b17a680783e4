// The tests of a bundle's file (document 02, request 9), and a file that has passed them.
ghost use Rattle.std.specs.Prelude.{◌≡◌, ◌≤◌, true, false, length, Some, None, MatchOption, MatchResult};
ghost use Rattle.refusal.specs.Checks.{◌and_then◌, pass, refuse, bare};
ghost use Rattle.refusal.specs.Checks;
ghost use Rattle.refusal.specs.Answers.{reason_of, checked_as};
ghost use Rattle.slices.specs.Same.{same_list};
ghost use Rattle.key_frame.specs.KeyFrame.{frame_check};
ghost use Rattle.bundle_rules.specs.Bundle.{key_id_in, contents_end, count_in, follow, last_end, packed, packed_in, bodies_of, bodies_check, bundle_check};
ghost use Rattle.bundle_contents.specs.Internal.{Inside};
ghost use Rattle.bundle_contents.specs.Walks.{lines_left, first_with};

use crate::bodies::{Bodies, Body};
use crate::ids::{id_repeats, same_id, same_words};
use crate::lines::{Lines, contents_end, number_at};
use key_frame::check_frame;
use refusal::{Refusal, in_range, unless};

// A file that passes its tests.
#[derive(Clone, Copy)]
pub struct Bundle<'a> {
    pub file: &'a [u8],
    pub ghost passes: { bundle_check file.now ≡ pass },
}

impl<'a> Bundle<'a> {
    // A file as a bundle, where it passes its tests.
    pub fn check(file: &'a [u8]) -> Result<Bundle<'a>, Refusal>
        ensures { MatchResult result (λ bundle. bundle.file.now ≡ file.now) (λ why. bundle_check file.now ≡ refuse (reason_of why)) }
    {
        check_bundle(file)?;
        Ok(Bundle { file })
    }

    // Its attributes, packed end to end: all that follows the contents. Where they begin is read, as the first line's offset, and not counted from the lines,
    // since LLVM would take the start of a copy for a product of 64 bits, for which a Cortex-M0+ would need a function of the compiler's.
    pub fn attributes(self) -> &'a [u8]
        ensures { result.now ≡ packed_in self.entry.file.now }
    {
        let start = usize::from(number_at(self.file, 18));
        &self.file[start..]
    }

    // The same, one by one: 1 to 64 of them.
    pub fn bodies(self) -> Bodies<'a>
        ensures bodies { packed result.bytes.now ≡ bodies_of self.entry.file.now }
        ensures few { length (packed result.bytes.now) ≤ 64 }
    {
        Bodies {
            bytes: self.attributes(),
        }
    }

    // That of a Key ID, if it has one. It is looked for in the contents, where the Key IDs stand 20 bytes apart, and not by a walk through the bodies, where each
    // is found by the length of the one before it.
    pub fn find(self, id: &[u8]) -> Option<Body<'a>>
        ensures { MatchOption result (first_with id.now (bodies_of self.entry.file.now) ≡ None) (λ body. first_with id.now (bodies_of self.entry.file.now) ≡ Some body.bytes.now) }
    {
        let file = self.file;
        let lines = Lines {
            file,
            at: 0,
            start: 2,
            count: usize::from(number_at(file, 0)),
        };
        for line in lines {
            if same_id(line.id, id) {
                let start = usize::from(line.offset);
                let end = start + usize::from(line.size);
                return Some(Body {
                    bytes: &file[start..end],
                });
            }
        }
        None
    }
}

// Where the last of some lines' bodies ends, if each begins where the one before it ends. The first of them begins at `contents`.
fn last_end(lines: Lines, contents: usize) -> Option<usize>
    ensures { MatchOption result (follow contents (lines_left lines.entry) ≡ false) (λ end. (follow contents (lines_left lines.entry) ≡ true) × (end ≡ last_end contents (lines_left lines.entry))) }
{
    let mut end = contents;
    for line in lines {
        let offset = usize::from(line.offset);
        if offset != end {
            return None;
        }
        end = offset + usize::from(line.size);
    }
    Some(end)
}

// A body: its own number, then 50 for a Key ID unlike its line's.
fn check_body(id: &[u8], body: &[u8]) -> Result<(), Refusal>
    requires { length id.now ≡ 16 }
    ensures { checked_as result ≡ (frame_check body.now and_then Checks.unless (same_list (key_id_in body.now) id.now) (bare 50)) }
{
    check_frame(body)?;
    unless(same_words(&body[24..40], id), Refusal::KeyIdUnlikeContents)
}

// The bodies of some lines, one after the other.
fn check_bodies(lines: Lines) -> Result<(), Refusal>
    requires { Inside lines.file.now (lines_left lines) }
    ensures { checked_as result ≡ bodies_check lines.entry.file.now (lines_left lines.entry) }
{
    let file = lines.file;
    for line in lines {
        let start = usize::from(line.offset);
        let end = start + usize::from(line.size);
        check_body(line.id, &file[start..end])?;
    }
    Ok(())
}

// The tests of a bundle's file but that of the room: the count, the contents, the end, the Key IDs, then body by body.
pub fn check_bundle(file: &[u8]) -> Result<(), Refusal>
    ensures { checked_as result ≡ bundle_check file.now }
{
    unless(2 <= file.len(), Refusal::BundleCount)?;
    let count = usize::from(number_at(file, 0));
    unless(in_range(1, 64, count), Refusal::BundleCount)?;
    let contents = contents_end(count);
    unless(contents <= file.len(), Refusal::BundleContents)?;
    let lines = Lines {
        file,
        at: 0,
        start: 2,
        count,
    };
    let Some(end) = last_end(lines, contents) else {
        return Err(Refusal::BundleContents);
    };
    unless(end == file.len(), Refusal::BundleEnd)?;
    unless(!id_repeats(lines), Refusal::RepeatedKeyId)?;
    check_bodies(lines)
}
