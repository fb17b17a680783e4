// The exported functions of the C interface, which include/ketvaulo.h declares for C, a module for each family. Each calls the function of the
// crate that does the work, and returns its answer as a struct of the crate `outcome`. A slice is a pointer and a length in C.
#![tactic(auto)]

mod areas;
mod bundles;
mod handovers;
mod hashes;
mod key_attributes;
mod keys;
mod negotiations;
mod packets;
mod slot_tables;
