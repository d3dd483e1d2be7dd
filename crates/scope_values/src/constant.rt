// Constants over the working words: found, and recorded. That what a run becomes is no targeted identifier (`Free`) is a clause, as `Offered` is: a run
// cannot hold the words that say which are targeted.
ghost use Rattle.std.specs.Prelude.{◌≡◌, ◌+◌, ◌-◌, ◌≤◌, ◌<◌, [], ◌∷◌, ◌++◌, set};
ghost use Rattle.std.proofs.Math.Option.{none};
ghost use Rattle.def_pass.specs.Scope.{add_const, Free};
ghost use Rattle.words_scopes.specs.State.{Good, split, stack, heads, flags, binds, consts, off, coff, targeted};
ghost use Rattle.scope_values.specs.Steps.{Listed, Grown, Offered, run_value};
ghost use Rattle.scope_values.specs.Consts.{Found, Own, Left};
ghost use Rattle.words.specs.Layout.{binding_count, scope_count, constant_count, constant_id_word, constant_len_word};

use crate::{const_offset, refill, room_for};
use def_file::kind::Kind;
use refusal::Refusal;
use words::{Run, first_at, flag_at, kind_at, layout, num_at};
use words_scopes::first_constant;

// The value of the innermost constant of x that has one; no identifier that the script as read targets (request 8).
// The walk over the scopes is that of words_scopes' `find_by_walk`, but for the test of the length, by which it goes on.
pub fn find_constant(w: &[u32], x: u8) -> Option<Run>
    requires { Good w.now }
    ensures { Found w.now x result }
{
    let d = w[layout::SCOPE_COUNT] as usize;
    let mut e = w[layout::CONSTANT_COUNT] as usize;
    for k in (0..d).rev() {
        let a = first_constant(w, k);
        if let Some(r) = first_at(w, layout::CONSTANT_TABLE, a, e, x) {
            let len = w[layout::CONSTANTS + r * 2 + layout::CONSTANT_LENGTH] as usize;
            if 0 < len {
                return Some(Run {
                    at: const_offset(w, r),
                    len,
                });
            }
        }
        e = a;
    }
    None
}

// The constant of x in the innermost scope, by its place among all.
fn own_const(w: &[u32], x: u8) -> Option<usize>
    requires { (Good w.now) × (0 < scope_count w.now) }
    ensures { Own w.now x result }
{
    let d = w[layout::SCOPE_COUNT] as usize - 1;
    let a = first_constant(w, d);
    let c = w[layout::CONSTANT_COUNT] as usize;
    first_at(w, layout::CONSTANT_TABLE, a, c, x)
}

// Constant k gets a run of the tree's nodes as its value.
fn set_const(w: &mut [u32], k: usize, r: Run)
    requires { (Good w.old) × (k < constant_count w.old) × (Offered w.old r) × (Free (targeted w.old) (run_value w.old r)) × (r.len + (off w.old (binding_count w.old) + coff w.old (constant_count w.old)) ≤ 512 + constant_len_word w.old k) }
    ensures { Listed w.old w.new (binds w.old) (set (consts w.old) k (constant_id_word w.old k, run_value w.old r)) }
{
    let n = w[layout::CONSTANT_COUNT] as usize;
    refill(
        w,
        layout::CONSTANT_VALUES,
        layout::CONSTANT_LENGTHS,
        k,
        n,
        r,
    );
}

// Appends a constant without a value to the innermost scope.
fn push_const(w: &mut [u32], x: u8)
    requires { (Good w.old) × (binding_count w.old + constant_count w.old < 256) × (0 < scope_count w.old) }
    ensures { Listed w.old w.new (binds w.old) (consts w.old ++ ((x, none) ∷ [])) }
{
    let c = w[layout::CONSTANT_COUNT] as usize;
    w[layout::CONSTANTS + c * 2] = u32::from(x);
    w[layout::CONSTANTS + c * 2 + layout::CONSTANT_LENGTH] = 0;
    w[layout::CONSTANT_COUNT] = (c + 1) as u32;
}

// Constant k gets a run of the tree's nodes as its value, none if it is empty.
fn replace_const(w: &mut [u32], k: usize, r: Run) -> Result<(), Refusal>
    requires { (Good w.old) × (k < constant_count w.old) × (Offered w.old r) × (Free (targeted w.old) (run_value w.old r)) }
    ensures { Grown w.old w.new (split (heads w.old) (flags w.old) (binds w.old) (set (consts w.old) k (constant_id_word w.old k, run_value w.old r))) result }
{
    let old = w[layout::CONSTANTS + k * 2 + layout::CONSTANT_LENGTH] as usize;
    room_for(w, old, r.len, 0)?;
    set_const(w, k, r);
    Ok(())
}

// A constant of x is appended to the innermost scope, with a run of the tree's nodes as its value, none if it is empty.
fn append_const(w: &mut [u32], x: u8, r: Run) -> Result<(), Refusal>
    requires { (Good w.old) × (0 < scope_count w.old) × (Offered w.old r) × (Free (targeted w.old) (run_value w.old r)) }
    ensures { Grown w.old w.new (split (heads w.old) (flags w.old) (binds w.old) (consts w.old ++ ((x, run_value w.old r) ∷ []))) result }
{
    let c = w[layout::CONSTANT_COUNT] as usize;
    room_for(w, 0, r.len, 1)?;
    push_const(w, x);
    set_const(w, c, r);
    Ok(())
}

// What of a run of the tree's nodes a constant gets as its value: nothing, if they are an identifier that the script as read targets (request 8),
// else all of it.
fn untargeted(w: &[u32], r: Run) -> Run
    requires { (Good w.now) × (Offered w.now r) }
    ensures { Left w.now r result }
{
    if r.len == 0 {
        return r;
    }
    let Kind::Ident = kind_at(w, r.at) else {
        return r;
    };
    let x = num_at(w, r.at) as u8;
    if flag_at(w, layout::TARGETS, x) {
        return Run { len: 0, ..r };
    }
    r
}

// The constant of x in the innermost scope gets a run of the tree's nodes as its value, none if it is empty or a targeted identifier.
pub fn add_const(w: &mut [u32], x: u8, r: Run) -> Result<(), Refusal>
    requires { (Good w.old) × (Offered w.old r) }
    ensures { Grown w.old w.new (add_const (targeted w.old) x (run_value w.old r) (stack w.old)) result }
{
    if w[layout::SCOPE_COUNT] == 0 {
        return Ok(());
    }
    let left = untargeted(w, r);
    match own_const(w, x) {
        Some(k) => replace_const(w, k, left),
        None => append_const(w, x, left),
    }
}
