// The negotiation of the key derivation function by AT_KDF values (RFC 5448 section 3.2; document 01, "Offers"): the definitions that the calls are
// proved to meet, and what is proved of the definitions. There is no code here.
#![tactic(auto)]
