// Bindings over the working words: one overwritten in place. `prevented` and `undefined` are two bools, as the definition's `redeclare` has them.
ghost use Rattle.std.specs.Prelude.{◌≡◌, ◌+◌, ◌*◌, ◌-◌, ◌≤◌, ◌<◌, get_or, set};
ghost use Rattle.def_pass.specs.Scope.{redeclare};
ghost use Rattle.words_scopes.specs.State.{HasBinding, Past, binds, consts, bind_at, with_count};
ghost use Rattle.scope_values.specs.Steps.{Listed, Grown, Offered, run_value, refill, put_at};

use refusal::Refusal;
use scope_values::{room_for, set_run};
use words::{Run, layout, put};
use words_scopes::{Record, record_at};

// Overwrites the words of binding k but its name, its value and its count.
pub fn rewrite(w: &mut [u32], k: usize, r: Record)
    requires { HasBinding w.old k }
    ensures { (Listed w.old w.new (set (binds w.old) k (refill r (bind_at w.old k))) (consts w.old)) × (Past (k + 1) w.old w.new) }
{
    put(w, layout::BINDINGS + k * 10 + layout::KIND, r.words());
}

// Overwrites the count of binding k.
pub fn set_count(w: &mut [u32], k: usize, count: u32)
    requires { HasBinding w.old k }
    ensures { (Listed w.old w.new (set (binds w.old) k (with_count count (bind_at w.old k))) (consts w.old)) × (Past (k + 1) w.old w.new) }
{
    w[layout::COUNTS + k] = count;
}

// Binding k is declared again, with its value as it is.
pub fn redeclare_seen(w: &mut [u32], k: usize, prevented: bool, undefined: bool)
    requires { HasBinding w.old k }
    ensures { Listed w.old w.new (set (binds w.old) k (redeclare prevented undefined (bind_at w.old k).value (bind_at w.old k))) (consts w.old) }
{
    let r = record_at(w, k);
    let again = Record {
        reads: 0,
        prevented,
        undefined,
        ..r
    };
    rewrite(w, k, again);
}

// Binding k is declared again, with a run of the tree's nodes as its value, none if it is empty.
pub fn redeclare_as(
    w: &mut [u32],
    k: usize,
    r: Run,
    prevented: bool,
    undefined: bool,
) -> Result<(), Refusal>
    requires { (HasBinding w.old k) × (Offered w.old r) }
    ensures { Grown w.old w.new (put_at w.old k (redeclare prevented undefined (run_value w.old r) (bind_at w.old k))) result }
{
    let old = w[layout::BINDINGS + k * 10 + layout::LENGTH] as usize;
    room_for(w, old, r.len, 0)?;
    set_run(w, k, r);
    redeclare_seen(w, k, prevented, undefined);
    Ok(())
}
