// The values of a script: where each begins in the tree that they are taken from.
// The first node of value v: two identifiers, a literal, a member of an identifier, an array, a call, the whole tree; 8 begins behind its last node.
// By its number, which is what a sequence gives.
pub fn node_of(v: u8) -> usize {
    match v {
        1 => 1,
        2 => 2,
        3 => 3,
        4 => 4,
        5 => 6,
        6 => 9,
        8 => 11,
        _ => 0,
    }
}

// Value v, none for 0.
pub fn value_of(v: u8) -> Option<usize> {
    if v == 0 {
        return None;
    }
    Some(node_of(v))
}
