// Small steps of the walks. n, i: n trees from node i on, as the walks have them.
ghost use Rattle.std.specs.Prelude.{◌≡◌};
ghost use Rattle.words.specs.Layout.{node_of};
ghost use Rattle.words_scopes.specs.Kinds.{type_of};
ghost use Rattle.def_tree.specs.Combine.{tree_at};
ghost use Rattle.def_pass.specs.Walk.{decl_kind_of, to_pattern};
ghost use Rattle.words_state.specs.State.{abs};
ghost use Rattle.walk_laws.specs.Did.{Here, Headed, bare_node, leaf_node, settled_node};

use def_file::form;
use def_file::kind::Kind;
use scope::{VarDeclKind, VarType};
use words::{arity_at, form_at, kind_at};

// The kind of a declaration by its form.
pub fn decl_kind(f: u32) -> VarType
    ensures { type_of result ≡ decl_kind_of f }
{
    match f {
        form::VAR => VarType::Declared(VarDeclKind::Var),
        form::LET => VarType::Declared(VarDeclKind::Let),
        _ => VarType::Declared(VarDeclKind::Const),
    }
}

// Is the first of the n trees from i on, if there is one, no binding.
pub fn nameless(w: &[u32], n: usize, i: usize) -> bool
    requires { Here w.now n i 0 0 }
    ensures { Headed w.now n i result }
{
    if n == 0 {
        return true;
    }
    match kind_at(w, i) {
        Kind::BindingIdent => false,
        _ => true,
    }
}

// Is node i an identifier or a literal without children: it has no handler of its own.
pub fn bare(w: &[u32], i: usize) -> bool
    requires { Here w.now 1 i 0 0 }
    ensures { result ≡ bare_node (node_of w.now i) }
{
    arity_at(w, i) == 0 && kind_at(w, i).is_cheap()
}

// Is node i an empty statement or a `this`: it has no handler of its own, and visit_mut_expr does nothing.
pub fn leaf(w: &[u32], i: usize) -> bool
    requires { Here w.now 1 i 0 0 }
    ensures { result ≡ leaf_node (node_of w.now i) }
{
    arity_at(w, i) == 0 && matches!(kind_at(w, i), Kind::Empty | Kind::This)
}

// Does visit_mut_expr do nothing behind the handler of node i: no identifier, no && or ||, no assignment.
pub fn settled(w: &[u32], i: usize) -> bool
    requires { Here w.now 1 i 0 0 }
    ensures { result ≡ settled_node (node_of w.now i) }
{
    !matches!(kind_at(w, i), Kind::Ident | Kind::Bin | Kind::Assign)
}

// Is the assignment at i a `=` to a pattern.
pub fn to_pattern(w: &[u32], i: usize) -> bool
    requires { Here w.now 1 i 0 0 }
    ensures { result ≡ to_pattern (tree_at (abs w.now) i) }
{
    if form_at(w, i) != form::ASSIGN || arity_at(w, i) == 0 {
        return false;
    }
    kind_at(w, i + 1).is_pattern()
}
