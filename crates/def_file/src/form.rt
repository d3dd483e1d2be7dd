// Forms of nodes that the port asks for. The table of kinds bounds the forms of a file; a flag in the working words is added to them.
// Numbers with names, and no enum: what a form says hangs on the node's kind, and of the forms of a kind at most two are asked for, so that an
// enum for each kind, with its conversion, would stand for one comparison.

// 5, a declaration: `var` and `let`, else `const`.
pub const VAR: u32 = 0;

pub const LET: u32 = 1;

// 12, for: nothing but its statement.
pub const EMPTY_HEAD: u32 = 0;

// 19, a case with a test.
pub const TEST: u32 = 1;

// 20 and 21 in the working words, bits: `arguments`, and a binding that is declared twice.
pub const ARGUMENTS: u32 = 1;

pub const TWICE: u32 = 2;

// 30, unary: void, and delete.
pub const VOID: u32 = 0;

pub const DELETE: u32 = 6;

// 32, binary: the forms below it are `&&` and `||`.
pub const PAST_LOGICAL: u32 = 2;

// 33, an assignment by `=`.
pub const ASSIGN: u32 = 0;

// 39, a function expression with a name.
pub const NAMED: u32 = 1;
