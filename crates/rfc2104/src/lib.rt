// RFC 2104: HMAC over any hash whose blocks have 64 bytes, and by the hash values that are kept of a key (specs/), with the law that both come
// to the same (proofs/). There is no code here.
#![tactic(auto)]
