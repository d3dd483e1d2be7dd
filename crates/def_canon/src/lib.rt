// One file for one script: definitions only, under specs/.
#![tactic(auto)]
