// Request 9 in the words: laws only, under specs/ and proofs/.
#![tactic(auto)]
