// The handover keys of source document 003 (document 02, request 2): the KDF, R0-Key, R1-Key and R0Name defined, the tests of their calls, and the
// theorem that requests with different identifiers hand different bytes to HMAC. There is no code here: the crate `handover` derives the keys,
// and its contracts are written with these definitions.
#![tactic(auto)]
