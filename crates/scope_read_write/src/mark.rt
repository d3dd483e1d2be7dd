// Marks: what changes the scopes and adds nothing to them.
ghost use Rattle.std.specs.Prelude.{◌≡◌, ◌≤◌};
ghost use Rattle.def_pass.specs.Scope.{is_some, is_fn, find_binding, change, sensitive_now, count_read, add_unresolved, prevent_inline_of_params, store_inline_barrier};
ghost use Rattle.def_tree.specs.Base.{pick};
ghost use Rattle.words_scopes.specs.State.{Good, HasScope, Becomes, stack, heads, flags, binds, consts, split};
ghost use Rattle.scope_find.specs.Look.{scope_at, fn_start, params_from};
ghost use Rattle.scope_find.specs.Touched.{BarStored};
ghost use Rattle.words.specs.Layout.{binding_count};

use scope_find::{first_of, hoisted, scope_kind, var_type};
use words::{layout, set_flag};
use words_scopes::kinds::ScopeKind;
use words_scopes::{current, find_binding};

// What `this` is matters to the innermost binding of x. It and words_scopes' `define` change one word each: one function would
// take the word, its value and the definition, and be called by no other name.
pub fn mark_this_sensitive(w: &mut [u32], x: u8)
    requires { Good w.old }
    ensures { Becomes w.old w.new (change x sensitive_now (stack w.old)) }
{
    if let Some(k) = find_binding(w, x) {
        w[layout::BINDINGS + k * 10 + layout::SENSITIVE] = 1;
    }
}

// x is used in the current scope, and not bound.
pub fn add_unresolved(w: &mut [u32], x: u8)
    requires { Good w.old }
    ensures { Becomes w.old w.new (add_unresolved x (stack w.old)) }
{
    let Some(d) = current(w) else {
        return;
    };
    set_flag(w, layout::UNRESOLVED + d * 8, x);
}

// A read of x is counted at its innermost binding, which is prevented if it is hoisted; without a binding x is unresolved.
pub fn count_read(w: &mut [u32], x: u8)
    requires { Good w.old }
    ensures { Becomes w.old w.new (pick (is_some (find_binding x (stack w.old))) (change x count_read (stack w.old)) (add_unresolved x (stack w.old))) }
{
    let Some(k) = find_binding(w, x) else {
        add_unresolved(w, x);
        return;
    };
    let p = layout::BINDINGS + k * 10;
    let reads = w[p + layout::READS];
    w[p + layout::READS] = if reads < 2 { reads + 1 } else { reads };
    if hoisted(w, k) {
        w[p + layout::PREVENTED] = 1;
    }
}

// Is scope k a function.
fn is_fn(w: &[u32], k: usize) -> bool
    requires { HasScope w.now k }
    ensures { result ≡ is_fn (scope_at w.now k).kind }
{
    matches!(scope_kind(w, k), ScopeKind::Fn { .. })
}

// Where the bindings of the nearest function begin, outwards.
fn fn_start(w: &[u32]) -> usize
    requires { Good w.now }
    ensures { result ≡ fn_start (heads w.now) }
{
    (0..w[layout::SCOPE_COUNT] as usize)
        .rev()
        .find(|&k| is_fn(w, k))
        .map_or(0, |k| first_of(w, k))
}

// Marks the parameters among the bindings from lo on.
fn prevent_params(w: &mut [u32], lo: usize)
    requires { (Good w.old) × (lo ≤ binding_count w.old) }
    ensures { Becomes w.old w.new (split (heads w.old) (flags w.old) (params_from lo (binds w.old)) (consts w.old)) }
{
    for k in lo..w[layout::BINDING_COUNT] as usize {
        if var_type(w, k).is_param() {
            w[layout::BINDINGS + k * 10 + layout::PREVENTED] = 1;
        }
    }
}

// Marks the parameters outwards, up to the nearest function.
pub fn prevent_inline_of_params(w: &mut [u32])
    requires { Good w.old }
    ensures { Becomes w.old w.new (prevent_inline_of_params (stack w.old)) }
{
    let lo = fn_start(w);
    prevent_params(w, lo);
}

// A barrier behind the last binding of scope k.
fn store_bar(w: &mut [u32], k: usize)
    requires { HasScope w.old k }
    ensures { BarStored w.old w.new k }
{
    let a = first_of(w, k);
    let e = first_of(w, k + 1);
    if a < e {
        w[layout::BINDINGS + (e - 1) * 10 + layout::BARRIER] = 1;
    } else {
        w[layout::SCOPES + k * 4 + layout::FIRST_BARRIER] = 1;
    }
}

// A barrier behind the last binding of every open scope.
pub fn store_inline_barrier(w: &mut [u32])
    requires { Good w.old }
    ensures { Becomes w.old w.new (store_inline_barrier (stack w.old)) }
{
    for k in 0..w[layout::SCOPE_COUNT] as usize {
        store_bar(w, k);
    }
}
