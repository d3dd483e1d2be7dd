// Bindings over the working words: defined and declared.
ghost use Rattle.std.specs.Prelude.{◌≡◌, ◌+◌, ◌*◌, ◌-◌, ◌≤◌, ◌<◌};
ghost use Rattle.def_tree.specs.Base.{pick};
ghost use Rattle.def_pass.specs.Scope.{change, defined, with_value, fresh, append, kept};
ghost use Rattle.words_scopes.specs.State.{Good, stack};
ghost use Rattle.words_scopes.specs.Kinds.{type_of, alias_of};
ghost use Rattle.scope_values.specs.Steps.{Grown, Offered, run_value};
ghost use Rattle.scope_declare.specs.Kinds.{init_at, start_of, nodes_of, is_seen, Sized, bar_of};
ghost use Rattle.scope_declare.specs.Declare.{put_declared, declare_with};
ghost use Rattle.words.specs.Layout.{scope_count};

use crate::redeclare::{redeclare_as, redeclare_seen};
use refusal::Refusal;
use scope_find::find_binding_from_current;
use scope_values::{record_value, room_for, set_run};
use words::{Run, layout};
pub use words_scopes::kinds::{VarDeclKind, VarType};
use words_scopes::{Record, append_record, define, prevent_inline};

// What a declaration starts with: nothing, or the tree at a node as its value, which is recorded, or only seen. Three cases with none among them: the
// scope document names them, for the source's Option<Cow>.
#[derive(Clone, Copy, Debug, PartialEq, Eq)]
pub enum Init {
    NoInit,
    Recorded(usize),
    Seen(usize),
}

impl Init {
    // The node at which its tree begins, if it has one.
    pub fn node(self) -> Option<usize>
        ensures { result ≡ start_of self }
    {
        match self {
            Init::NoInit => None,
            Init::Recorded(i) | Init::Seen(i) => Some(i),
        }
    }

    // The nodes of its tree, which are `len`; none without one.
    fn nodes(self, len: usize) -> Run
        ensures { result ≡ nodes_of self len }
    {
        match self {
            Init::NoInit => Run::NONE,
            Init::Recorded(at) | Init::Seen(at) => Run { at, len },
        }
    }
}

// What a declaration of x says, and what its look-ups gave.
#[derive(Clone, Copy, Debug, PartialEq, Eq)]
pub struct Declaration {
    pub kind: VarType,
    // The type of the binding that the init names, if it names one.
    pub alias: Option<VarType>,
    pub prevented: bool,
    pub undefined: bool,
    // Is a loop met before a function.
    pub looped: bool,
    // The binding that the init names, if there is a barrier between x and it.
    pub barred: Option<u8>,
}

// The innermost binding of x gets its first value, a run of the tree's nodes, and becomes defined.
pub fn first_value(w: &mut [u32], x: u8, r: Run) -> Result<(), Refusal>
    requires { (Good w.old) × (Offered w.old r) }
    ensures { Grown w.old w.new (change x (λ c. defined (with_value (run_value w.old r) c)) (stack w.old)) result }
{
    record_value(w, x, r)?;
    define(w, x);
    Ok(())
}

// A binding of x is appended to the innermost scope, with a run of the tree's nodes as its value, none if it is empty.
fn declare_new(w: &mut [u32], x: u8, r: Run, d: Declaration) -> Result<(), Refusal>
    requires { (Good w.old) × (0 < scope_count w.old) × (Offered w.old r) }
    ensures { Grown w.old w.new (append (fresh x (type_of d.kind) (alias_of d.alias) d.prevented d.undefined (run_value w.old r)) (stack w.old)) result }
{
    room_for(w, 0, r.len, 1)?;
    let n = w[layout::BINDING_COUNT] as usize;
    let record = Record::fresh(d.kind, d.alias, d.prevented, d.undefined);
    append_record(w, x, record, 0);
    if 0 < r.len {
        set_run(w, n, r);
    }
    Ok(())
}

// The first half of declare: x is declared in the innermost scope, with its init's tree of `len` nodes as its value, none without an init, or with
// its old value if the new one is only seen.
fn put_declared(w: &mut [u32], x: u8, v: Init, len: usize, d: Declaration) -> Result<(), Refusal>
    requires { (Good w.old) × (Offered w.old (nodes_of v len)) × (Sized v len) }
    ensures { Grown w.old w.new (put_declared x (kept (init_at w.old v len)) d.prevented d.undefined (type_of d.kind) (alias_of d.alias) (stack w.old)) result }
{
    if w[layout::SCOPE_COUNT] == 0 {
        return Ok(());
    }
    match find_binding_from_current(w, x) {
        Some(k) => match v {
            Init::Seen(_) => {
                redeclare_seen(w, k, d.prevented, d.undefined);
                Ok(())
            }
            Init::NoInit | Init::Recorded(_) => {
                redeclare_as(w, k, v.nodes(len), d.prevented, d.undefined)
            }
        },
        None => match v {
            Init::Seen(_) => declare_new(w, x, Run::NONE, d),
            Init::NoInit | Init::Recorded(_) => declare_new(w, x, v.nodes(len), d),
        },
    }
}

// declare, with its look-ups given, and how many nodes its init's tree has.
pub fn declare_with(
    w: &mut [u32],
    x: u8,
    v: Init,
    len: usize,
    d: Declaration,
) -> Result<(), Refusal>
    requires { (Good w.old) × (Offered w.old (nodes_of v len)) × (Sized v len) }
    ensures { Grown w.old w.new (declare_with x (kept (init_at w.old v len)) (bar_of d.barred) d.prevented d.undefined (type_of d.kind) (alias_of d.alias) d.looped (stack w.old)) result }
{
    put_declared(w, x, v, len, d)?;
    if d.looped {
        prevent_inline(w, x);
    }
    if let Some(y) = d.barred {
        prevent_inline(w, x);
        prevent_inline(w, y);
    }
    Ok(())
}
