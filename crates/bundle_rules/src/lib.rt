// Bundles of Key attributes (document 02, request 9): the definitions of the file and of its two calls, in specs/, and what is proved of them. The
// statements are in specs/Statements.antt, their proofs in proofs/.
#![tactic(auto)]
