// What the pass is: definitions only, under specs/.
#![tactic(auto)]
