// AES-128 as FIPS 197 defines it: the state, the steps of a round, the cipher, its inverse in both forms, and the key expansion (specs/),
// with the laws of section 5.3 (proofs/). There is no code here.
#![tactic(auto)]
