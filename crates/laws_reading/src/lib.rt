// A script as JavaScript text is read in one way: laws only, under specs/ and proofs/.
#![tactic(auto)]
