// scope.rs's look-ups, as callers see them: a binding is held by its number, from 0 on; a number or a node that the state has not is answered as
// none. A recorded value is named by its binding's number, or by its constant's name, and is put into the tree from here.
ghost use Rattle.std.specs.Prelude.{◌≡◌, true, false, suc, ◌≤◌, ◌<◌, length, IfSome};
ghost use Rattle.std.proofs.Math.Option.{none};
ghost use Rattle.def_pass.specs.Scope.{find_binding, find_binding_from_current, is_param, var_inline_prevented, value_o, prevented_o, has_same_this, find_constant, Free};
ghost use Rattle.def_pass.specs.Tree.{count_o};
ghost use Rattle.words.specs.Layout.{tree, binding_count};
ghost use Rattle.words.specs.Place.{placed};
ghost use Rattle.words_scopes.specs.State.{Good, stack, name_of, targeted};
ghost use Rattle.scope_find.specs.Look.{idx_here, IsKindOfValue};
ghost use Rattle.scope_find.specs.Answers.{count_of};
ghost use Rattle.words_nodes.specs.Nodes.{Planted, size};
ghost use Rattle.scope.specs.Handles.{bindings_of, numbered, IsBinding, indexed, of_binding, tree_o, counted_o, Holds, Kept, held_value, Puts};

use def_file::kind::Kind;
use refusal::Refusal;
use words::{Run, Value, layout};
use words_nodes::replace_at;

// Is b the number of a binding.
fn known(w: &[u32], b: usize) -> bool
    requires { Good w.now }
    ensures { (result ≡ true → b < binding_count w.now) × (result ≡ false → numbered (stack w.now) (suc b) ≡ none) }
{
    b < w[layout::BINDING_COUNT] as usize
}

// That binding, if there is one.
fn binding(w: &[u32], b: usize) -> Option<usize>
    requires { Good w.now }
    ensures { IsBinding w.now (numbered (stack w.now) (suc b)) result }
{
    known(w, b).then_some(b)
}

// Is i a node of the tree.
pub fn in_tree(w: &[u32], i: usize) -> bool
    requires { Good w.now }
    ensures { (result ≡ true → i < size w.now) × (result ≡ false → tree_o (tree w.now) i ≡ none) }
{
    i < w[layout::NODE_COUNT] as usize
}

pub fn find_binding(w: &[u32], x: u8) -> Option<usize>
    requires { Good w.now }
    ensures { (find_binding x (stack w.now) ≡ numbered (stack w.now) (placed result)) × (placed result ≤ length (bindings_of (stack w.now))) }
{
    words_scopes::find_binding(w, x)
}

// The index of the binding of x in the current scope.
pub fn idx_val(w: &[u32], x: u8) -> Option<usize>
    requires { Good w.now }
    ensures { idx_here x (stack w.now) ≡ indexed (stack w.now) (placed result) }
{
    scope_find::idx_val(w, x)
}

pub fn find_binding_from_current(w: &[u32], x: u8) -> Option<usize>
    requires { Good w.now }
    ensures { (find_binding_from_current x (stack w.now) ≡ numbered (stack w.now) (placed result)) × (placed result ≤ length (bindings_of (stack w.now))) }
{
    scope_find::find_binding_from_current(w, x)
}

pub fn is_inline_prevented(w: &[u32], i: usize) -> bool
    requires { Good w.now }
    ensures { result ≡ prevented_o (tree_o (tree w.now) i) (stack w.now) }
{
    in_tree(w, i) && scope_find::is_inline_prevented(w, i)
}

pub fn has_same_this(w: &[u32], x: u8, i: usize) -> bool
    requires { Good w.now }
    ensures { result ≡ has_same_this (find_binding x (stack w.now)) (tree_o (tree w.now) i) }
{
    !in_tree(w, i) || scope_find::has_same_this(w, x, i)
}

// VarInfo::is_param.
pub fn is_param(w: &[u32], b: usize) -> bool
    requires { Good w.now }
    ensures { result ≡ of_binding (λ v. is_param v.kind) (numbered (stack w.now) (suc b)) }
{
    known(w, b) && scope_find::var_type(w, b).is_param()
}

// VarInfo::is_inline_prevented.
pub fn var_inline_prevented(w: &[u32], b: usize) -> bool
    requires { Good w.now }
    ensures { result ≡ of_binding var_inline_prevented (numbered (stack w.now) (suc b)) }
{
    known(w, b) && scope_find::var_inline_prevented(w, b)
}

// VarInfo's is_undefined.
pub fn is_undefined(w: &[u32], b: usize) -> bool
    requires { Good w.now }
    ensures { result ≡ of_binding (λ v. v.is_undefined) (numbered (stack w.now) (suc b)) }
{
    known(w, b) && scope_find::is_undefined(w, b)
}

// VarInfo's value: its kind.
pub fn value_kind(w: &[u32], b: usize) -> Option<Kind>
    requires { Good w.now }
    ensures { IsKindOfValue (value_o (numbered (stack w.now) (suc b))) result }
{
    let b = binding(w, b)?;
    scope_find::value_kind(w, b)
}

// The identifier that it is.
pub fn value_ident(w: &[u32], b: usize) -> Option<u32>
    requires { Good w.now }
    ensures { result ≡ name_of (value_o (numbered (stack w.now) (suc b))) }
{
    let b = binding(w, b)?;
    let at = words_scopes::offset(w, b);
    words_scopes::named(w, b, at)
}

// How many nodes it has, 0 if there is none: a count, so no Option.
pub fn value_len(w: &[u32], b: usize) -> usize
    requires { Good w.now }
    ensures { (result ≡ count_o (value_o (numbered (stack w.now) (suc b)))) × (result ≤ 512) }
{
    if known(w, b) {
        return scope_find::value_len(w, b);
    }
    0
}

// Where it is recorded.
fn value_run(w: &[u32], b: usize) -> Option<Value>
    requires { Good w.now }
    ensures { Kept w.now (value_o (numbered (stack w.now) (suc b))) result }
{
    let b = binding(w, b)?;
    let len = scope_find::value_len(w, b);
    if len == 0 {
        return None;
    }
    let at = words_scopes::offset(w, b);
    Some(Value {
        base: layout::VALUES,
        run: Run { at, len },
    })
}

// Where the value of the innermost constant of x that has one is recorded.
fn constant_run(w: &[u32], x: u8) -> Option<Value>
    requires { Good w.now }
    ensures { (Kept w.now (find_constant x (stack w.now)) result) × (Free (targeted w.now) (find_constant x (stack w.now))) }
{
    let run = scope_values::constant::find_constant(w, x)?;
    Some(Value {
        base: layout::CONSTANT_VALUES,
        run,
    })
}

// A recorded value, if there is one, takes the place of the tree at node i, at depth p, if rows 8 and 9 let it.
fn put_held(w: &mut [u32], i: usize, p: u32, v: Option<Value>) -> Result<(), Refusal>
    requires { (Planted w.old) × (Holds w.old v) }
    ensures { Puts result w.old w.new p i (tree_o (tree w.old) i) (held_value w.old v) }
{
    let Some(v) = v else {
        return Ok(());
    };
    if !in_tree(w, i) {
        return Ok(());
    }
    if 201 < p {
        return Err(Refusal::Depth);
    }
    replace_at(w, i, p, v)
}

// The value of binding b, if it has one, takes the place of the tree at node i, at depth p, if rows 8 and 9 let it.
pub fn put_value(w: &mut [u32], i: usize, p: u32, b: usize) -> Result<(), Refusal>
    requires { Planted w.old }
    ensures { Puts result w.old w.new p i (tree_o (tree w.old) i) (value_o (numbered (stack w.old) (suc b))) }
{
    let v = value_run(w, b);
    put_held(w, i, p, v)
}

// How many nodes the value of the innermost constant of x that has one has; an identifier is none that the script as read targets (request 8).
pub fn find_constant(w: &[u32], x: u8) -> Option<usize>
    requires { Good w.now }
    ensures { (count_of result ≡ counted_o (find_constant x (stack w.now))) × (IfSome result (λ m. m ≤ 512)) × (Free (targeted w.now) (find_constant x (stack w.now))) }
{
    let v = constant_run(w, x)?;
    Some(v.run.len)
}

// That value, if there is one, takes the place of the tree at node i, at depth p, if rows 8 and 9 let it; an identifier is none that is targeted.
pub fn put_constant(w: &mut [u32], i: usize, p: u32, x: u8) -> Result<(), Refusal>
    requires { Planted w.old }
    ensures { (Puts result w.old w.new p i (tree_o (tree w.old) i) (find_constant x (stack w.old))) × (Free (targeted w.old) (find_constant x (stack w.old))) }
{
    let v = constant_run(w, x);
    put_held(w, i, p, v)
}
