// The list of what changed between two bundles (document 02, request 10), written.
ghost use Rattle.std.specs.Prelude.{◌≡◌, ◌++◌, ◌∷◌, ◌+◌, ◌≤◌, length, take, drop, Some};
ghost use Rattle.bundle_rules.specs.Bundle.{packed};
ghost use Rattle.compare_rules.specs.Compare.{written, compare_answer, compare_buffer, compare_counts};
ghost use Rattle.bundle_compare.specs.Answers.{answer_in, counts_in};
ghost use Rattle.bundle_compare.specs.Changes.{number_of, listed_by};

use crate::changes::{Change, Side, find_changes};
use crate::counts::Counts;
use bundle_contents::{Bodies, Bundle};
use refusal::{Refusal, check_room};
use slices::copy_at;

// Writes an entry to out, from index `at` on: what changed, and the Key ID.
fn put_entry(change: Change, id: &[u8], at: usize, out: &mut [u8])
    requires { at + (1 + length id.now) ≤ length out.old }
    ensures { out.new ≡ take at out.old ++ ((number_of (Some change) ∷ id.now) ++ drop (at + (1 + length id.now)) out.old) }
{
    out[at] = change as u8;
    copy_at(id, at + 1, out);
}

// Writes the entries of a bundle's attributes, by what changed for each, to out from index `from` on, and answers where they end.
fn put_entries(changes: &[Option<Change>; 64], bodies: Bodies, from: usize, out: &mut [u8]) -> usize
    requires { from + length (written (listed_by changes.now (packed bodies.bytes.now))) ≤ length out.old }
    ensures end { result ≡ from + length (written (listed_by changes.now (packed bodies.entry.bytes.now))) }
    ensures buffer { out.new ≡ take from out.old ++ (written (listed_by changes.now (packed bodies.entry.bytes.now)) ++ drop result out.old) }
{
    let mut at = from;
    for (change, body) in changes.iter().zip(bodies) {
        if let Some(change) = change {
            put_entry(*change, body.id(), at, out);
            at += 17;
        }
    }
    at
}

// Compares two bundles: writes an entry, its kind and its Key ID, for each Key ID that differs to the start of out, and answers the counts.
pub fn compare_bundles(first: &[u8], second: &[u8], out: &mut [u8]) -> Result<Counts, Refusal>
    ensures answer { answer_in result ≡ compare_answer first.now second.now (length out.old) }
    ensures counts { counts_in result ≡ compare_counts first.now second.now (length out.old) }
    ensures buffer { out.new ≡ compare_buffer first.now second.now out.old }
{
    let first = Bundle::check(first)?;
    let second = Bundle::check(second)?;
    let of_first = first.bodies();
    let of_second = second.bodies();
    let mut counts = Counts {
        only_first: 0,
        changed: 0,
        only_second: 0,
    };
    let mut in_first = [None; 64];
    let mut in_second = [None; 64];
    find_changes(Side::First, first, second, &mut counts, &mut in_first);
    find_changes(Side::Second, second, first, &mut counts, &mut in_second);
    let size = (17 * (counts.only_first + counts.changed + counts.only_second)) as usize;
    check_room(size, out.len())?;
    let end = put_entries(&in_first, of_first, 0, out);
    put_entries(&in_second, of_second, end, out);
    Ok(counts)
}
