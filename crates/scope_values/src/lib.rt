// Records over the working words: what row 9 counts, and values. That a run is one of the tree's (`Offered`) is a clause, as a number's place is: a run
// cannot hold the words that it stands in.
#![tactic(auto)]

pub mod constant;

ghost use Rattle.std.specs.Prelude.{◌≡◌, ℕ, ◌+◌, ◌-◌, ◌≤◌, ◌<◌, ◌||◌, length, set, ltb};
ghost use Rattle.def_pass.specs.Scope.{recorded_nodes, live, change, with_value};
ghost use Rattle.words.specs.Layout.{values_base, constant_values_base, binding_count, constant_count, value_len_word, first_binding_word, first_constant_word};
ghost use Rattle.words.specs.Tab.{sum};
ghost use Rattle.words_scopes.specs.State.{Good, HasBinding, Past, stack, binds, consts, bind_at, off, coff};
ghost use Rattle.scope_values.specs.Outwards.{stops_at};
ghost use Rattle.scope_values.specs.Steps.{Roomed, IsStore, Spliced, Refilled, Listed, Grown, Offered, run_value, len_in, off_in};

use refusal::Refusal;
use words::{Run, layout, shift, sum_at};
use words_scopes::{find_binding, first_binding, first_constant, offset};

// In a store of values: a run of the tree's nodes takes the place of the old nodes at a place; those behind are shifted.
pub fn splice(w: &mut [u32], base: usize, at: usize, old: usize, end: usize, r: Run)
    requires { (16384 ≤ length w.old) × (values_base ≤ base) × (base ≤ constant_values_base) × (r.at + r.len ≤ 1024) × (at + old ≤ end) × (end ≤ 512) × (r.len + end ≤ 512 + old) }
    ensures { Spliced w.old w.new base at old end r.at r.len }
{
    shift(
        w,
        base + (at + old) * 2,
        base + (at + r.len) * 2,
        (end - at - old) * 2,
    );
    shift(w, layout::NODES + r.at * 2, base + at * 2, r.len * 2);
}

// In a store of n values, of the bindings or of the constants: value k becomes a run of the tree's nodes, and those behind it are shifted. `set_run` and
// `set_const` of `constant` are names for one call of it each, for their laws.
#[tactic(auto, using(crate::proofs::Store::sums))]
pub fn refill(w: &mut [u32], base: usize, lengths: layout::Table, k: usize, n: usize, r: Run)
    requires { (16384 ≤ length w.old) × IsStore base lengths × (k < n) × (n ≤ 256) × (r.at + r.len ≤ 1024) × (off_in w.old lengths n ≤ 512) × (r.len + off_in w.old lengths n ≤ 512 + len_in w.old lengths k) }
    ensures { Refilled w.old w.new base lengths k n r }
{
    let p = lengths.base + k * lengths.stride;
    let old = w[p] as usize;
    // Where none gives way to none, nothing is to be added up.
    if old + r.len == 0 {
        return;
    }
    let at = sum_at(w, lengths, 0, k);
    let end = at + sum_at(w, lengths, k, n);
    splice(w, base, at, old, end, r);
    w[p] = r.len as u32;
}

// How many nodes the values before constant k have. Beside `offset` of words_scopes, each one sum: the laws are of two lists of different records, so
// that one function over both would promise each by a case.
pub fn const_offset(w: &[u32], k: usize) -> usize
    requires { (Good w.now) × (k ≤ constant_count w.now) }
    ensures { (result ≡ coff w.now k) × (result ≤ 512) }
{
    sum_at(w, layout::CONSTANT_LENGTHS, 0, k)
}

// How many nodes are recorded.
pub fn recorded_nodes(w: &[u32]) -> usize
    requires { Good w.now }
    ensures { (result ≡ recorded_nodes (stack w.now)) × (result ≤ 1024) }
{
    let n = w[layout::BINDING_COUNT] as usize;
    let c = w[layout::CONSTANT_COUNT] as usize;
    offset(w, n) + const_offset(w, c)
}

// How many bindings and constants are live.
pub fn live(w: &[u32]) -> usize
    requires { Good w.now }
    ensures { (result ≡ live (stack w.now)) × (result ≤ 512) }
{
    w[layout::BINDING_COUNT] as usize + w[layout::CONSTANT_COUNT] as usize
}

// How many nodes scope k records: its bindings end before binding e, its constants before constant c.
fn nodes_in(w: &[u32], k: usize, e: usize, c: usize) -> usize
    requires { (Good w.now) × (k < 32) × (first_binding_word w.now k ≤ e) × (e ≤ binding_count w.now) × (first_constant_word w.now k ≤ c) × (c ≤ constant_count w.now) }
    ensures { off w.now (first_binding_word w.now k) + coff w.now (first_constant_word w.now k) + result ≡ off w.now e + coff w.now c }
{
    sum_at(w, layout::LENGTHS, first_binding(w, k), e)
        + sum_at(w, layout::CONSTANT_LENGTHS, first_constant(w, k), c)
}

// Adds to n nodes those recorded, scope by scope from the current one outwards, and stops once they are more than row 9 allows: after how many
// scopes.
pub fn stops_at(w: &[u32], n: usize) -> Option<usize>
    requires { (Good w.now) × (n ≤ 1024) }
    ensures { result ≡ stops_at n (stack w.now) }
{
    let d = w[layout::SCOPE_COUNT] as usize;
    let mut sum = n;
    let mut e = w[layout::BINDING_COUNT] as usize;
    let mut c = w[layout::CONSTANT_COUNT] as usize;
    for k in (0..d).rev() {
        if 512 < sum {
            return Some(d - 1 - k);
        }
        sum += nodes_in(w, k, e, c);
        e = first_binding(w, k);
        c = first_constant(w, k);
    }
    (512 < sum).then_some(d)
}

// Are there more nodes than row 9 allows once old nodes give way to m: there can be only where m are more. That old nodes are recorded, and that m are at
// most a tree's, are clauses here and in `room_for`: they are facts of numbers about the words, which a number cannot hold.
fn nodes_pass(w: &[u32], old: usize, m: usize) -> bool
    requires { (Good w.now) × (old ≤ recorded_nodes (stack w.now)) × (m ≤ 1024) }
    ensures { result ≡ ltb 512 (recorded_nodes (stack w.now) - old + m) }
{
    old < m && stops_at(w, m - old).is_some()
}

// The refusal, if row 9 is passed once old nodes give way to m, and there are `more` records more, 0 or 1: a summand of the count.
pub fn room_for(w: &[u32], old: usize, m: usize, more: usize) -> Result<(), Refusal>
    requires { (Good w.now) × (old ≤ recorded_nodes (stack w.now)) × (m ≤ 1024) × (more ≤ 1) }
    ensures { Roomed result (ltb 512 (recorded_nodes (stack w.now) - old + m) || ltb 256 (live (stack w.now) + more)) }
{
    if nodes_pass(w, old, m) || 256 < live(w) + more {
        return Err(Refusal::Room);
    }
    Ok(())
}

// Binding k gets a run of the tree's nodes as its value, which are one tree or none.
pub fn set_run(w: &mut [u32], k: usize, r: Run)
    requires { (HasBinding w.old k) × (Offered w.old r) × (r.len + (off w.old (binding_count w.old) + coff w.old (constant_count w.old)) ≤ 512 + value_len_word w.old k) }
    ensures { (Listed w.old w.new (set (binds w.old) k (with_value (run_value w.old r) (bind_at w.old k))) (consts w.old)) × (Past (k + 1) w.old w.new) }
{
    let n = w[layout::BINDING_COUNT] as usize;
    refill(w, layout::VALUES, layout::LENGTHS, k, n, r);
}

// The innermost binding of x gets a run of the tree's nodes as its value, none if it is empty.
pub fn record_value(w: &mut [u32], x: u8, r: Run) -> Result<(), Refusal>
    requires { (Good w.old) × (Offered w.old r) }
    ensures { Grown w.old w.new (change x (with_value (run_value w.old r)) (stack w.old)) result }
{
    let Some(k) = find_binding(w, x) else {
        return Ok(());
    };
    let old = w[layout::BINDINGS + k * 10 + layout::LENGTH] as usize;
    room_for(w, old, r.len, 0)?;
    set_run(w, k, r);
    Ok(())
}
