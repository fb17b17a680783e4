// The key wrap as RFC 3394 defines it, with AES-128 (specs/), and its laws: unwrapping undoes wrapping, and wrapping undoes unwrapping
// (proofs/). There is no code here.
#![tactic(auto)]
