// What the parts of a row print is what def_text prints by it (specs/Claims.antt).
#![tactic(auto)]
