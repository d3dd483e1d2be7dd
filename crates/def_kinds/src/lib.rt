// Which kind may stand under which, and what a table of that allows: definitions only, under specs/.
#![tactic(auto)]
