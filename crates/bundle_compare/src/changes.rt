// What changed between two bundles (document 02, request 10), attribute by attribute.
ghost use Rattle.std.specs.Prelude.{◌≡◌, ◌+◌, ◌≤◌};
ghost use Rattle.bundle_rules.specs.Bundle.{key_id_in, bodies_of};
ghost use Rattle.compare_rules.specs.Compare.{lookup, count_kind};
ghost use Rattle.bundle_compare.specs.Changes.{number_of, found_in, kind_by, entries_of, listed_by};

use crate::counts::Counts;
use bundle_contents::{Body, Bundle};
use slices::same_bytes;

// What the list says of a Key ID; the number of each is that of the entry.
#[derive(Clone, Copy)]
pub(crate) enum Change {
    OnlyFirst = 1,
    Changed = 2,
    OnlySecond = 3,
}

// Which of the two bundles an attribute is of.
#[derive(Clone, Copy)]
pub(crate) enum Side {
    First,
    Second,
}

// The attribute of a Key ID among those of a bundle.
fn find<'a>(id: &[u8], bundle: Bundle<'a>) -> Option<Body<'a>>
    ensures { found_in result ≡ lookup id.now (bodies_of bundle.entry.file.now) }
{
    bundle.find(id)
}

// What changed for an attribute of one bundle, by what the other has for its Key ID.
fn change_of(side: Side, body: Body, other: Bundle) -> Option<Change>
    ensures { number_of result ≡ kind_by side body.entry.bytes.now (lookup (key_id_in body.entry.bytes.now) (bodies_of other.entry.file.now)) }
{
    match (side, find(body.id(), other)) {
        (Side::First, None) => Some(Change::OnlyFirst),
        (Side::First, Some(found)) => {
            if same_bytes(body.bytes, found.bytes) {
                None
            } else {
                Some(Change::Changed)
            }
        }
        (Side::Second, None) => Some(Change::OnlySecond),
        (Side::Second, Some(_)) => None,
    }
}

// Puts what changed for each attribute of a bundle, in its order, to the start of `changes`. They are counted with those that `counts` has.
pub(crate) fn find_changes(
    side: Side,
    bundle: Bundle,
    other: Bundle,
    counts: &mut Counts,
    changes: &mut [Option<Change>; 64],
)
    requires counts_few { (counts.old.only_first ≤ 64) × (counts.old.changed ≤ 64) × (counts.old.only_second ≤ 64) }
    ensures listed { listed_by changes.new (bodies_of bundle.entry.file.now) ≡ entries_of side (bodies_of other.entry.file.now) (bodies_of bundle.entry.file.now) }
    ensures only_first { counts.new.only_first ≡ counts.old.only_first + count_kind 1 (entries_of side (bodies_of other.entry.file.now) (bodies_of bundle.entry.file.now)) }
    ensures changed { counts.new.changed ≡ counts.old.changed + count_kind 2 (entries_of side (bodies_of other.entry.file.now) (bodies_of bundle.entry.file.now)) }
    ensures only_second { counts.new.only_second ≡ counts.old.only_second + count_kind 3 (entries_of side (bodies_of other.entry.file.now) (bodies_of bundle.entry.file.now)) }
    ensures few { (counts.new.only_first ≤ counts.old.only_first + 64) × (counts.new.changed ≤ counts.old.changed + 64) × (counts.new.only_second ≤ counts.old.only_second + 64) }
{
    for (i, body) in bundle.bodies().enumerate() {
        let change = change_of(side, body, other);
        changes[i] = change;
        counts.add(change);
    }
}
