// The counts of the list of what changed (document 02, request 10).
ghost use Rattle.std.specs.Prelude.{◌≡◌, ◌+◌, ◌≤◌, cond, eqb};

use crate::changes::Change;

// How many entries of each kind a list has: keys only in the first bundle, keys in both whose attributes differ, keys only in the second.
#[derive(Drop)]
pub struct Counts {
    pub only_first: u32,
    pub changed: u32,
    pub only_second: u32,
}

impl Counts {
    ghost use Rattle.bundle_compare.specs.Changes.{number_of};

    // Counts an entry, if there is one.
    pub(crate) fn add(&mut self, change: Option<Change>)
        requires few { (self.old.only_first ≤ 1000) × (self.old.changed ≤ 1000) × (self.old.only_second ≤ 1000) }
        ensures only_first { self.new.only_first ≡ self.old.only_first + cond (eqb (number_of change) 1) 1 0 }
        ensures changed { self.new.changed ≡ self.old.changed + cond (eqb (number_of change) 2) 1 0 }
        ensures only_second { self.new.only_second ≡ self.old.only_second + cond (eqb (number_of change) 3) 1 0 }
    {
        match change {
            Some(Change::OnlyFirst) => self.only_first += 1,
            Some(Change::Changed) => self.changed += 1,
            Some(Change::OnlySecond) => self.only_second += 1,
            None => {}
        }
    }
}
