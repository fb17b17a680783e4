// What changed between two bundles (document 02, request 10): the list of the Key IDs that differ, and its counts.
#![tactic(auto)]

mod changes; // what changed for each attribute of two bundles
mod compare; // the list, written
mod counts; // its counts

pub use compare::compare_bundles;
pub use counts::Counts;
