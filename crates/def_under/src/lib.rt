// Reading, and the whole pass, under a lent kind table: definitions and laws of reading, under specs/ and proofs/.
#![tactic(auto)]
