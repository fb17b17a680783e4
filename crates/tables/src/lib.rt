// Laws for tables that are written as a `match`, and for arrays that a loop fills. A table of n entries is a `match` with an arm for each
// of the numbers below n, which the compiler lays in constants, and a last arm. The laws are proved here once for all such tables: the
// last arm is past the end of the table, and an array that a loop fills from its start has what the loop stores.
#![tactic(auto)]
