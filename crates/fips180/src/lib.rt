// FIPS 180-4: the definitions of SHA-1 and SHA-256, and those of padding, blocks and a hash in progress over any compression, in specs/; their laws in proofs/.
// It has no function.
#![tactic(auto)]
