// Examples of the definition: at its limits, and that tell near-misses apart. No functions.
#![tactic(auto)]
