// `=` in Inlining: the first value of what was undefined.
ghost use Rattle.std.specs.Prelude.{◌≡◌, ◌<◌, ◌≤◌};
ghost use Rattle.def_pass.specs.Scope.{find_binding_from_current, is_inline_prevented};
ghost use Rattle.laws_flat.specs.WalkF.{after_assign_f};
ghost use Rattle.words.specs.Layout.{tree};
ghost use Rattle.words_scopes.specs.State.{Good, stack};
ghost use Rattle.scope_find.specs.Look.{node_tree};
ghost use Rattle.words_nodes.specs.Nodes.{Planted, Child, tree_from, size};
ghost use Rattle.words_state.specs.State.{abs};
ghost use Rattle.scope.specs.Steps.{Did};
ghost use Rattle.walk_ident.specs.Steps.{first_test, first_f};

use super::lift_value;
use def_file::kind::Kind;
use refusal::Refusal;
use scope::{
    find_binding_from_current, first_value, is_inline_prevented, is_undefined, var_inline_prevented,
};
use scope_find::ident_at;
use words::{arity_at, kind_at};
use words_nodes::skip;

// Is x bound here and undefined, and neither it nor the value at node j prevented.
fn first_here(w: &[u32], x: u8, j: usize) -> bool
    requires { (Good w.now) × (j < size w.now) }
    ensures { result ≡ first_test (find_binding_from_current x (stack w.now)) (is_inline_prevented (node_tree w.now j) (stack w.now)) }
{
    let Some(b) = find_binding_from_current(w, x) else {
        return false;
    };
    is_undefined(w, b) && !var_inline_prevented(w, b) && !is_inline_prevented(w, j)
}

// x gets its first value, the second child of node i, at node j, which then takes that node's place.
fn first_assigned(w: &mut [u32], i: usize, j: usize, p: u32, x: u8) -> Result<usize, Refusal>
    requires { (Planted w.old) × (Child (tree w.old) i 1 j) × (p ≤ 201) }
    ensures { Did w.old w.new result (first_f p x (tree_from (tree w.old) j) i (abs w.old)) }
{
    first_value(w, x, Some(j))?;
    lift_value(w, i, j, p)
}

// The assignment at node i, at depth p, after its parts.
pub fn after_assign(w: &mut [u32], i: usize, p: u32) -> Result<usize, Refusal>
    requires { (Planted w.old) × (i < size w.old) × (p ≤ 201) }
    ensures { Did w.old w.new result (after_assign_f p i (abs w.old)) }
{
    if arity_at(w, i) < 2 {
        return Ok(skip(w, i));
    }
    let Kind::BindingIdent = kind_at(w, i + 1) else {
        return Ok(skip(w, i));
    };
    let x = ident_at(w, i + 1);
    let j = skip(w, i + 1);
    if first_here(w, x, j) {
        return first_assigned(w, i, j, p, x);
    }
    Ok(skip(w, i))
}
