// What changed between two bundles of Key attributes (document 02, request 10): the definitions that the call is proved to meet, in specs/, and what is
// proved of them. The statements are in specs/Statements.antt, their proofs in proofs/.
#![tactic(auto)]
