// Parts of walks, on trees and on lists of nodes: definitions and proofs only, under specs/ and proofs/.
#![tactic(auto)]
