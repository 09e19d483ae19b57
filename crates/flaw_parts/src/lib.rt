// What is wrong with a field of any table: each kind of field in three parts, and that the split loses nothing. See specs/ and proofs/.
#![tactic(auto)]
