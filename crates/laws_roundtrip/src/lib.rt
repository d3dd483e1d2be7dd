// Reading and writing undo each other: definitions and proofs only, under specs/ and proofs/.
#![tactic(auto)]
