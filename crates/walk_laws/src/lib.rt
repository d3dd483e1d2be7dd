// What a walk over the words promises and what it keeps of the list around the tree that it walks, and the laws by which walks are put together:
// definitions and proofs only.
#![tactic(auto)]
