// What holds of printing by rows: laws only, under specs/ and proofs/.
#![tactic(auto)]
