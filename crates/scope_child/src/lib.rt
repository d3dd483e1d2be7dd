// Scopes over the working words: opened, and closed, with what is hoisted then.
#![tactic(auto)]

ghost use Rattle.std.specs.Prelude.{◌≡◌, ℕ, ◌+◌, ◌-◌, ◌%◌, ◌<◌, ◌≤◌, [], ◌∷◌, length, nat_le};
ghost use Rattle.def_pass.specs.Scope.{close, new_scope, wrap, ending, counts_in};
ghost use Rattle.words.specs.Layout.{binding_count, scope_count, constant_count, id_word};
ghost use Rattle.words.specs.Tab.{tab};
ghost use Rattle.words_scopes.specs.State.{Good, Past, Becomes, stack, bind_at};
ghost use Rattle.scope_values.specs.Steps.{Limited};
ghost use Rattle.words_scopes.specs.Kinds.{kind_of};
ghost use Rattle.scope_child.specs.Hoist.{record_at, hoist_one, hoist_up, end_one, end_up};

use refusal::Refusal;
use scope_declare::redeclare::{rewrite, set_count};
use scope_find::{find_binding_from_current, scope_kind};
use scope_values::set_run;
use words::{Run, flag_at, layout, sum_at, wipe};
pub use words_scopes::kinds::{Scope, ScopeKind};
use words_scopes::{Record, append_record, drop_scope, first_binding, open, record_at};

// A binding of a closed scope, whose record j is, goes up if it is a `var`: in place of the innermost scope's binding of the same name, or appended.
// Answers the count that ends.
fn hoist_one(w: &mut [u32], j: usize) -> u32
    requires { (Good w.old) × (0 < scope_count w.old) × (binding_count w.old ≤ j) × (j + constant_count w.old < 256) × (id_word w.old j < 256) }
    ensures { (Becomes w.old w.new (hoist_one (record_at w.old j) (stack w.old))) × (Past (j + 1) w.old w.new) × (binding_count w.new ≤ j + 1) × (constant_count w.new ≡ constant_count w.old) × (result ≡ end_one (record_at w.old j) (stack w.old)) }
{
    let closed = record_at(w, j);
    let count = w[layout::COUNTS + j];
    if !closed.kind.is_var() {
        return count;
    }
    let x = w[layout::BINDINGS + j * 10] as u8;
    let d = w[layout::SCOPE_COUNT] as usize - 1;
    let used = flag_at(w, layout::UNRESOLVED + d * 8, x);
    let hoisted = Record {
        prevented: used || closed.prevented,
        undefined: false,
        hoisted: true,
        ..closed
    };
    let Some(k) = find_binding_from_current(w, x) else {
        append_record(w, x, hoisted, count);
        return 0;
    };
    let old = w[layout::COUNTS + k];
    set_run(w, k, Run::NONE);
    rewrite(w, k, hoisted);
    set_count(w, k, count);
    old
}

// The bindings of a closed scope, whose records are those from a up to e, go up. Answers the sum of the counts that end.
fn hoist_all(w: &mut [u32], a: usize, e: usize) -> u32
    requires { (Good w.old) × (0 < scope_count w.old) × (binding_count w.old ≤ a) × (a ≤ e) × (e + constant_count w.old ≤ 256) × ((j : ℕ) → j < e → id_word w.old j < 256) }
    ensures { (Becomes w.old w.new (hoist_up (λ j. record_at w.old j) a (e - a) (stack w.old))) × (result ≡ end_up (λ j. record_at w.old j) a (e - a) (stack w.old) % 4294967296) }
{
    let mut ended: u32 = 0;
    for j in a..e {
        let n = hoist_one(w, j);
        ended = ended.wrapping_add(n);
    }
    ended
}

// The sum of the counts of the bindings from a up to e, modulo 2^32.
fn sum_counts(w: &[u32], a: usize, e: usize) -> u32
    requires { (16384 ≤ length w.now) × (a ≤ e) × (e ≤ 256) }
    ensures { result ≡ counts_in (tab (e - a) (λ j. bind_at w.now (a + j))) % 4294967296 }
{
    (sum_at(w, layout::COUNT_TABLE, a, e) % (1 << 32)) as u32
}

// No scope is left.
fn drop_all(w: &mut [u32])
    requires { Good w.old }
    ensures { Becomes w.old w.new [] }
{
    wipe(w, layout::INDEX, 256);
    w[layout::BINDING_COUNT] = 0;
    w[layout::SCOPE_COUNT] = 0;
    w[layout::CONSTANT_COUNT] = 0;
}

// The end of the innermost scope: what was unresolved in it is unresolved above, and its `var` bindings go up unless it is a function's. Answers
// the sum of the counts that end, modulo 2^32.
pub fn close(w: &mut [u32]) -> u32
    requires { Good w.old }
    ensures { (Becomes w.old w.new (close (stack w.old))) × (result ≡ wrap (ending (stack w.old))) }
{
    let d = w[layout::SCOPE_COUNT] as usize;
    let e = w[layout::BINDING_COUNT] as usize;
    if d < 2 {
        let ended = sum_counts(w, 0, e);
        drop_all(w);
        return ended;
    }
    let kind = scope_kind(w, d - 1);
    let a = first_binding(w, d - 1);
    match kind {
        ScopeKind::Cond | ScopeKind::Loop | ScopeKind::Block => {
            drop_scope(w);
            hoist_all(w, a, e)
        }
        ScopeKind::Fn { .. } => {
            let ended = sum_counts(w, a, e);
            drop_scope(w);
            ended
        }
    }
}

// Opens a scope.
pub fn open_scope(w: &mut [u32], scope: Scope) -> Result<(), Refusal>
    requires { Good w.old }
    ensures { Limited 8 (nat_le 32 (length (stack w.old))) w.old w.new (new_scope (kind_of scope.kind) ∷ stack w.old) result }
{
    if 32 <= w[layout::SCOPE_COUNT] {
        return Err(Refusal::Depth);
    }
    open(w, scope.kind);
    Ok(())
}
