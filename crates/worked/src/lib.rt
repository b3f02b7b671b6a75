// What is computed from the rules: the numbers that document 01 marks, runs worked out by hand, runs that meet or break the premises of demand 3, and
// programs that are none of the rules. There is no code here: all of it is in proofs/.
#![tactic(auto)]
