// What holds of the pass under a lent kind table: statements under specs/, proofs under proofs/.
#![tactic(auto)]
