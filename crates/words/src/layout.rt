// What stands where in the working words; specs/Layout.antt has the same table for the contracts. Fixed stretches of lent words: the library has no
// memory of its own.

// Words at even distances: where the first stands, and how far on each next one. Of a table of records they are its first words, or those of a field.
#[derive(Clone, Copy, Debug, PartialEq, Eq)]
pub struct Table {
    pub base: usize,
    pub stride: usize,
}

// Counts.
pub const NODE_COUNT: usize = 0;

pub const BINDING_COUNT: usize = 1;

pub const SCOPE_COUNT: usize = 2;

pub const CONSTANT_COUNT: usize = 3;

pub const IDENT_COUNT: usize = 4;

// The visitor's fields.
pub const CHANGED: usize = 5;

pub const INLINING: usize = 6;

pub const IS_FIRST_RUN: usize = 7;

pub const VAR_DECL_KIND: usize = 8;

pub const PAT_MODE: usize = 9;

pub const IN_TEST: usize = 10;

pub const CONDS: usize = 11;

pub const ENDED: usize = 12;

pub const REPLACED: usize = 13;

// Nodes, two words each: the tree's, those of the bindings' values, and those of the constants' values.
pub const NODES: usize = 16;

pub const VALUES: usize = 2064;

pub const CONSTANT_VALUES: usize = 3088;

// Bindings, ten words each: the identifier, and the fields below.
pub const BINDINGS: usize = 4112;

pub const KIND: usize = 1;

pub const ALIAS: usize = 2;

pub const READS: usize = 3;

pub const PREVENTED: usize = 4;

pub const UNDEFINED: usize = 5;

pub const SENSITIVE: usize = 6;

pub const HOISTED: usize = 7;

pub const LENGTH: usize = 8;

pub const BARRIER: usize = 9;

pub const BINDING_TABLE: Table = Table {
    base: BINDINGS,
    stride: 10,
};

pub const LENGTHS: Table = Table {
    base: BINDINGS + LENGTH,
    stride: 10,
};

// Constants, two words each: the identifier, and the length of the value.
pub const CONSTANTS: usize = 6672;

pub const CONSTANT_LENGTH: usize = 1;

pub const CONSTANT_TABLE: Table = Table {
    base: CONSTANTS,
    stride: 2,
};

pub const CONSTANT_LENGTHS: Table = Table {
    base: CONSTANTS + CONSTANT_LENGTH,
    stride: 2,
};

// Scopes, four words each: the kind, and the fields below.
pub const SCOPES: usize = 7184;

pub const FIRST_BINDING: usize = 1;

pub const FIRST_CONSTANT: usize = 2;

pub const FIRST_BARRIER: usize = 3;

// The first binding of the scope inside the root.
pub const INNER_FIRST: usize = 7189;

// Unresolved identifiers, eight words for each scope: a bit for each identifier.
pub const UNRESOLVED: usize = 7312;

// Of each identifier 1 + the number of its innermost binding, 0 where there is none, one word each.
pub const INDEX: usize = 7568;

// Of each binding what the index had of its identifier when it was appended, one word each.
pub const SHADOWED: usize = 7824;

// Of each binding how often an identifier was replaced by its value, one word each.
pub const COUNTS: usize = 8080;

pub const COUNT_TABLE: Table = Table {
    base: COUNTS,
    stride: 1,
};

// The numbers of the texts that a script uses, and the contexts of its names, in the order of first use: how many, and two words for each of 1,024. The
// writer of canonical files alone uses them.
pub const USED_TEXTS: usize = 8336;

pub const USED_CONTEXTS: usize = 10385;

// The number of the first node of each identifier, one word each.
pub const IDENTS: usize = 15504;

// The number of the first identifier of each text, from 1, or 0 where there is none, one word each: reading alone uses it.
pub const FIRST_OF_TEXT: usize = 15760;

// Identifiers that the script as read targets: a bit for each, in eight words.
pub const TARGETS: usize = 16016;
