// Requests for keys under an EMSK (RFC 5295; document 01, "Usage keys", "Visited keys"): their text S, when they are accepted, their blocks
// and their key. specs/Statements.antt says that no two different requests share a block's input. There is no code here: the crates `usage`,
// `visited` and `domain_keys` derive the keys, and their contracts are written with these definitions.
#![tactic(auto)]
