// The two round trips of the RADIUS Key attribute: what is written reads back, and what is accepted, written again, is the same bytes. The statements are in
// specs/Statements.antt, their proofs in proofs/.
#![tactic(auto)]
