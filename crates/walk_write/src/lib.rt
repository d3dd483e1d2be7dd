// Leaf steps of the walks: names written, marked, declared and stored. Each contract names the walk's own action. n, i: n trees from node i on, as the
// walks have them; that there are n is a clause, a fact of the words.
#![tactic(auto)]

ghost use Rattle.std.specs.Prelude.{◌≡◌, true, false, not, [], ◌⊎◌, drop, ◌<◌, ◌≤◌};
ghost use Rattle.std.proofs.Math.Option.{some};
ghost use Rattle.def_tree.specs.Tree.{kids, length_f, plant};
ghost use Rattle.def_tree.specs.Combine.{on_rest, act, act_f};
ghost use Rattle.def_pass.specs.Tree.{head_t, bound_names};
ghost use Rattle.def_pass.specs.Scope.{prevent_each, mark_this_sensitive, ident_of};
ghost use Rattle.def_pass.specs.Walk.{when, mark, write, write_tree, write_forest, write_name, but_last, assigning, pat_by, store_inline_barrier_m};
ghost use Rattle.def_file.specs.declared.kind.Kind.TheVariants.{BindingIdent, Ident};
ghost use Rattle.def_file.specs.Named.{number_of};
ghost use Rattle.refusal.specs.Number.{refused};
ghost use Rattle.words.specs.Layout.{tree, node_of};
ghost use Rattle.scope_find.specs.Answers.{is_name};
ghost use Rattle.scope_read_write.specs.Writes.{forced};
ghost use Rattle.words_nodes.specs.Nodes.{Planted, size};
ghost use Rattle.words_state.specs.State.{abs, Act};

pub mod assign;
pub mod declared;

use def_file::kind::Kind;
use refusal::Refusal;
use scope::{
    Write, add_write, find_binding_from_current, mark_this_sensitive, name_at, prevent_inline,
    store_inline_barrier,
};
use scope_find::ident_at;
use words::{arity_at, kind_at};
use words_nodes::skip;
use words_state::inlining;

// Is node i a binding or an identifier.
fn is_name(w: &[u32], i: usize) -> bool
    requires { (Planted w.now) × (i < size w.now) }
    ensures { result ≡ is_name (node_of w.now i) }
{
    kind_at(w, i).is_name()
}

// The name at node i is written, forced or not.
pub fn write_ident(w: &mut [u32], i: usize, how: Write) -> Result<(), Refusal>
    requires { (Planted w.old) × (i < size w.old) × (((node_of w.old i).kind ≡ number_of BindingIdent) ⊎ ((node_of w.old i).kind ≡ number_of Ident)) }
    ensures { Act w.old w.new (refused result) (act (write (forced how)) i (abs w.old)) }
{
    let name = name_at(w, i);
    add_write(w, name.ident, name.arguments(), how)
}

// IdentListVisitor (forced) and WriteVisitor (not) of n trees from i on: `more` trees are open, and a name's own nodes are passed.
pub fn write_trees(w: &mut [u32], n: usize, i: usize, how: Write) -> Result<(), Refusal>
    requires { (Planted w.old) × (n ≤ length_f (plant (drop i (tree w.old)))) }
    ensures { Act w.old w.new (refused result) (act_f (write_forest (forced how)) n i (abs w.old)) }
{
    let mut at = i;
    let mut more = n;
    // The index moves by a subtree's length.
    while 0 < more {
        if is_name(w, at) {
            write_ident(w, at, how)?;
            at = skip(w, at);
            more -= 1;
        } else {
            more = more - 1 + arity_at(w, at) as usize;
            at += 1;
        }
    }
    Ok(())
}

// The names of the tree at i.
pub fn write_tree(w: &mut [u32], i: usize, how: Write) -> Result<(), Refusal>
    requires { (Planted w.old) × (i < size w.old) }
    ensures { Act w.old w.new (refused result) (act (write_tree (forced how)) i (abs w.old)) }
{
    write_trees(w, 1, i, how)
}

// The names of all but the last of n trees.
pub fn write_but_last(w: &mut [u32], n: usize, i: usize, how: Write) -> Result<(), Refusal>
    requires { (Planted w.old) × (n ≤ length_f (plant (drop i (tree w.old)))) }
    ensures { Act w.old w.new (refused result) (act_f (λ ts. write_forest (forced how) (but_last ts)) n i (abs w.old)) }
{
    if n == 0 {
        return Ok(());
    }
    write_trees(w, n - 1, i, how)
}

// The names below node i, forced.
pub fn write_kids(w: &mut [u32], i: usize) -> Result<(), Refusal>
    requires { (Planted w.old) × (i < size w.old) }
    ensures { Act w.old w.new (refused result) (act (λ t. write_forest true (kids t)) i (abs w.old)) }
{
    let n = arity_at(w, i) as usize;
    write_trees(w, n, i + 1, Write::Forced)
}

// The same but for its last child.
pub fn write_kids_but_last(w: &mut [u32], i: usize) -> Result<(), Refusal>
    requires { (Planted w.old) × (i < size w.old) }
    ensures { Act w.old w.new (refused result) (act (λ t. write_forest true (but_last (kids t))) i (abs w.old)) }
{
    let n = arity_at(w, i) as usize;
    write_but_last(w, n, i + 1, Write::Forced)
}

// The names of a call's arguments, not forced; of `new` none. Which of the two it is is a parameter: it is that of the definition's `when`.
pub fn write_args(w: &mut [u32], call: bool, n: usize, i: usize) -> Result<(), Refusal>
    requires { (Planted w.old) × (n ≤ length_f (plant (drop i (tree w.old)))) }
    ensures { Act w.old w.new (refused result) (act_f (λ ts. when call (write_forest false ts)) n i (abs w.old)) }
{
    if !call {
        return Ok(());
    }
    write_trees(w, n, i, Write::Plain)
}

// The name of the function expression at i is written, forced.
pub fn write_name(w: &mut [u32], i: usize) -> Result<(), Refusal>
    requires { (Planted w.old) × (i < size w.old) }
    ensures { Act w.old w.new (refused result) (act (λ t. write_name (head_t (kids t))) i (abs w.old)) }
{
    if arity_at(w, i) == 0 {
        return Ok(());
    }
    let Kind::BindingIdent = kind_at(w, i + 1) else {
        return Ok(());
    };
    write_ident(w, i + 1, Write::Forced)
}

// What `this` is matters to the callee at i, if it is an identifier; in Analysis.
pub fn mark_callee(w: &mut [u32], i: usize)
    requires { (Planted w.old) × (i < size w.old) }
    ensures { Act w.old w.new 0 (act (λ c s. when (not s.inlining) (mark (mark_this_sensitive (ident_of (some c)))) s) i (abs w.old)) }
{
    if inlining(w) {
        return;
    }
    let Kind::Ident = kind_at(w, i) else {
        return;
    };
    let x = ident_at(w, i);
    mark_this_sensitive(w, x);
}

// Every name that the tree at i binds is prevented: `more` trees are open, and what is no pattern is passed over.
pub fn prevent_bound(w: &mut [u32], i: usize)
    requires { (Planted w.old) × (i < size w.old) }
    ensures { Act w.old w.new 0 (act (λ t. mark (prevent_each (bound_names t []))) i (abs w.old)) }
{
    let mut at = i;
    let mut more: usize = 1;
    // The index moves by a subtree's length.
    while 0 < more {
        let kind = kind_at(w, at);
        if kind.in_pattern() {
            more = more - 1 + arity_at(w, at) as usize;
            at += 1;
        } else {
            if let Kind::BindingIdent = kind {
                let x = ident_at(w, at);
                prevent_inline(w, x);
            }
            at = skip(w, at);
            more -= 1;
        }
    }
}

// The names that the parameter of a catch clause at i binds are prevented, in Analysis.
pub fn mark_caught(w: &mut [u32], i: usize)
    requires { (Planted w.old) × (i < size w.old) }
    ensures { Act w.old w.new 0 (act (λ b s. when (not s.inlining) (mark (prevent_each (bound_names b []))) s) i (abs w.old)) }
{
    if !inlining(w) {
        prevent_bound(w, i);
    }
}

// A barrier in every open scope, in Analysis.
pub fn store_barrier(w: &mut [u32])
    requires { Planted w.old }
    ensures { Act w.old w.new 0 (on_rest store_inline_barrier_m (abs w.old)) }
{
    if !inlining(w) {
        store_inline_barrier(w);
    }
}

// The binding at i, in an assignment's pattern: written, unless the current scope has it.
pub fn write_unbound(w: &mut [u32], i: usize) -> Result<(), Refusal>
    requires { (Planted w.old) × (i < size w.old) × ((node_of w.old i).kind ≡ number_of BindingIdent) }
    ensures { Act w.old w.new (refused result) (act (pat_by assigning) i (abs w.old)) }
{
    let x = ident_at(w, i);
    match find_binding_from_current(w, x) {
        Some(_) => Ok(()),
        None => write_ident(w, i, Write::Plain),
    }
}
