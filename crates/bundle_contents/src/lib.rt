// The table of contents and the bodies of a bundle (document 02, request 9): the tests of a file that its reader and the comparison of two share, and walks
// through the lines of a file and through attributes that are packed end to end.
#![tactic(auto)]

mod bodies; // attributes packed end to end that pass their tests
mod bundle; // the tests of a file
mod ids; // Key IDs compared, by words
mod lines; // the lines of a table of contents

pub use bodies::{Bodies, Body};
pub use bundle::{Bundle, check_bundle};
pub use ids::{KeyIds, id_repeats, same_id};
pub use lines::lines_length;
