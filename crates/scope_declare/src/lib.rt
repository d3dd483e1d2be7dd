// declare over the working words: what bars or prevents an init, and a declaration with none, with an identifier, or with another value. Its bools are
// the source's own arguments.
#![tactic(auto)]

pub mod define;
pub mod redeclare;

ghost use Rattle.std.specs.Prelude.{◌≡◌, ◌||◌, ◌&&◌, ◌≤◌, ◌<◌};
ghost use Rattle.def_pass.specs.Tree.{is_ident};
ghost use Rattle.def_pass.specs.Scope.{declare, no_init, in_loop, alias_from, is_inline_prevented, should_prevent_inline_because_of_scope};
ghost use Rattle.words.specs.Layout.{tree};
ghost use Rattle.words_scopes.specs.State.{Good, stack};
ghost use Rattle.words_scopes.specs.Kinds.{type_of, alias_of};
ghost use Rattle.scope_values.specs.Steps.{Grown};
ghost use Rattle.scope_find.specs.Look.{idx_here};
ghost use Rattle.words_nodes.specs.Nodes.{Planted, tree_from, size};
ghost use Rattle.scope_declare.specs.Inits.{init_from, Sited, has_none, place_here, barred_here, works_with, plain};

use def_file::kind::Kind;
use define::{Declaration, Init, declare_with};
use refusal::Refusal;
use scope_find::{
    barred, bound_here, find_binding_from_current, ident_at, idx_val, in_loop, is_inline_prevented,
    should_prevent_inline_because_of_scope, var_type,
};
use words::kind_at;
use words_nodes::tree_len;
use words_scopes::kinds::VarType;

// Where x is among the bindings of the current scope, or would be.
fn place_here(w: &[u32], x: u8) -> usize
    requires { Good w.now }
    ensures { (result ≡ place_here x (stack w.now)) × (result ≤ 256) }
{
    match idx_val(w, x) {
        Some(j) => j,
        None => bound_here(w),
    }
}

// Is there a barrier between x and the binding of y.
fn barred_here(w: &[u32], x: u8, y: u8) -> bool
    requires { Good w.now }
    ensures { result ≡ barred_here x y (stack w.now) }
{
    let Some(j) = idx_val(w, y) else {
        return false;
    };
    let idx = place_here(w, x);
    barred(w, j, idx)
}

// Neither of two types is a parameter's.
fn works_with(kind: VarType, alias: Option<VarType>) -> bool
    ensures { result ≡ works_with (type_of kind) (alias_of alias) }
{
    !kind.is_param() && !alias.is_some_and(VarType::is_param)
}

// Does a declaration of x as y mark both.
pub fn barred_for(w: &[u32], x: u8, y: u8, kind: VarType, alias: Option<VarType>) -> bool
    requires { Good w.now }
    ensures { result ≡ (works_with (type_of kind) (alias_of alias) && barred_here x y (stack w.now)) }
{
    works_with(kind, alias) && barred_here(w, x, y)
}

// Is x prevented from the start, as the value of the tree at i.
pub fn prevented_at(w: &[u32], x: u8, i: usize) -> bool
    requires { (Planted w.now) × (i < size w.now) }
    ensures { result ≡ (should_prevent_inline_because_of_scope x (stack w.now) || is_inline_prevented (tree_from (tree w.now) i) (stack w.now)) }
{
    should_prevent_inline_because_of_scope(w, x) || is_inline_prevented(w, i)
}

// A declaration in the current scope that names no binding.
fn plain(w: &[u32], kind: VarType, prevented: bool, undefined: bool) -> Declaration
    requires { Good w.now }
    ensures { result ≡ plain kind prevented undefined (in_loop (stack w.now)) }
{
    Declaration {
        kind,
        alias: None,
        prevented,
        undefined,
        looped: in_loop(w),
        barred: None,
    }
}

// declare without an init; `again`: the binding is flagged (request 3).
pub fn declare_bare(
    w: &mut [u32],
    again: bool,
    x: u8,
    undefined: bool,
    kind: VarType,
) -> Result<(), Refusal>
    requires { Planted w.old }
    ensures { Grown w.old w.new (declare again x no_init undefined (type_of kind) (stack w.old)) result }
{
    let prevented = again || should_prevent_inline_because_of_scope(w, x);
    let d = plain(w, kind, prevented, undefined);
    declare_with(w, x, Init::NoInit, 0, d)
}

// declare; an init that is an identifier may name a binding of the current scope.
pub fn declare(
    w: &mut [u32],
    again: bool,
    x: u8,
    v: Init,
    undefined: bool,
    kind: VarType,
) -> Result<(), Refusal>
    requires { (Planted w.old) × (Sited v (size w.old)) }
    ensures { Grown w.old w.new (declare again x (init_from (tree w.old) v) undefined (type_of kind) (stack w.old)) result }
{
    let Some(i) = v.node() else {
        return declare_bare(w, again, x, undefined, kind);
    };
    let len = tree_len(w, i);
    let prevented = again || prevented_at(w, x, i);
    let d = plain(w, kind, prevented, undefined);
    if !is_ident(w, i) {
        return declare_with(w, x, v, len, d);
    }
    let y = ident_at(w, i);
    let alias = alias_for(w, y);
    let barred = barred_for(w, x, y, kind, alias).then_some(y);
    declare_with(w, x, v, len, Declaration { alias, barred, ..d })
}

// Is the tree at i an identifier.
pub fn is_ident(w: &[u32], i: usize) -> bool
    requires { (Planted w.now) × (i < size w.now) }
    ensures { result ≡ is_ident (tree_from (tree w.now) i) }
{
    matches!(kind_at(w, i), Kind::Ident)
}

pub fn no_value(v: Init) -> bool
    ensures { result ≡ has_none v }
{
    matches!(v, Init::NoInit)
}

// The type of the binding of y in the current scope.
fn alias_for(w: &[u32], y: u8) -> Option<VarType>
    requires { Good w.now }
    ensures { alias_of result ≡ alias_from (idx_here y (stack w.now)) }
{
    let k = find_binding_from_current(w, y)?;
    Some(var_type(w, k))
}
