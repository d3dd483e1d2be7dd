// What an assignment writes and records.
ghost use Rattle.std.specs.Prelude.{◌≡◌, drop, ◌<◌, ◌≤◌, OnErr};
ghost use Rattle.def_tree.specs.Tree.{length_f, plant};
ghost use Rattle.def_tree.specs.Combine.{on_rest, tree_at, act_f};
ghost use Rattle.def_pass.specs.Walk.{store_value, assign_first, assign_last};
ghost use Rattle.def_file.specs.declared.kind.Kind.TheVariants.{BindingIdent};
ghost use Rattle.def_file.specs.Named.{number_of};
ghost use Rattle.refusal.specs.Number.{refused};
ghost use Rattle.words.specs.Layout.{tree, node_of};
ghost use Rattle.words_nodes.specs.Nodes.{Planted, size};
ghost use Rattle.words_state.specs.State.{abs, Act};

use super::{prevent_bound, write_ident, write_trees};
use def_file::form;
use def_file::kind::Kind;
use refusal::Refusal;
use scope::{Write, find_binding, is_inline_prevented, record_value, var_inline_prevented};
use scope_find::ident_at;
use walk_declarator::kept_value;
use words::kind_at;
use words_nodes::skip;

// Before the walk of an assignment's value: f is the assignment's form. A plain `=` is forced if its target is a member.
pub fn assign_first(w: &mut [u32], f: u32, n: usize, i: usize) -> Result<(), Refusal>
    requires { (Planted w.old) × (n ≤ length_f (plant (drop i (tree w.old)))) }
    ensures { Act w.old w.new (refused result) (act_f (assign_first f) n i (abs w.old)) }
{
    if n == 0 {
        return Ok(());
    }
    if f != form::ASSIGN {
        return write_trees(w, n, i, Write::Forced);
    }
    let kind = kind_at(w, i);
    write_trees(w, n, i, Write::Plain)?;
    if kind.is_member() {
        return write_trees(w, n, i, Write::Forced);
    }
    Ok(())
}

// The value at j is recorded for the name at i, unless its binding is prevented.
fn store_value(w: &mut [u32], i: usize, j: usize) -> Result<(), Refusal>
    requires { (Planted w.old) × (i < size w.old) × (j < size w.old) × ((node_of w.old i).kind ≡ number_of BindingIdent) }
    ensures did { Act w.old w.new (refused result) (on_rest (store_value (tree_at (abs w.old) i) (tree_at (abs w.old) j)) (abs w.old)) }
    ensures kept { OnErr result (w.new ≡ w.old) }
{
    let x = ident_at(w, i);
    let Some(b) = find_binding(w, x) else {
        return Ok(());
    };
    if var_inline_prevented(w, b) {
        return Ok(());
    }
    let v = kept_value(w, j);
    record_value(w, x, v)
}

// After the walk of an assignment's value: the names that the target binds are prevented if the value is; else a target that is a name is
// written, and the value recorded.
pub fn assign_last(w: &mut [u32], n: usize, i: usize) -> Result<(), Refusal>
    requires { (Planted w.old) × (n ≤ length_f (plant (drop i (tree w.old)))) }
    ensures { Act w.old w.new (refused result) (act_f assign_last n i (abs w.old)) }
{
    if n == 0 {
        return Ok(());
    }
    let j = skip(w, i);
    if n > 1 && is_inline_prevented(w, j) {
        prevent_bound(w, i);
        return Ok(());
    }
    let Kind::BindingIdent = kind_at(w, i) else {
        return Ok(());
    };
    write_ident(w, i, Write::Plain)?;
    if n == 1 {
        return Ok(());
    }
    store_value(w, i, j)
}
