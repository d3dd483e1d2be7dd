// One file for one script: laws only, under specs/ and proofs/.
#![tactic(auto)]
