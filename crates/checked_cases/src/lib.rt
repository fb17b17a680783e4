// Document 01, "Checked cases": the rows P1 to P14 as one statement over the definitions that the contracts cite (specs/), and its proof
// (proofs/). The crate has no functions.
#![tactic(auto)]
