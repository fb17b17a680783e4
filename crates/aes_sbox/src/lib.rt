// The S-box of FIPS 197: the field of bytes, the rule of each table, the tables, and statements about them (specs/), with their proofs
// (proofs/). There is no code here. Look-ups are in the crate aes_lookup, so that the tests over whole tables are not computed again
// with every change of the code.
#![tactic(auto)]
