// scope.rs, item by item, as its callers see it: each function asks only that the words stand for a state, and says what it does in terms of that
// state. The look-ups are in `var_info`; a node or a value that the state has not is answered as none.
#![tactic(auto)]

pub mod var_info;

ghost use Rattle.std.specs.Prelude.{◌≡◌, ◌&&◌, not, OnErr};
ghost use Rattle.def_pass.specs.Scope.{declare, is_var, add_const, change, defined, with_value};
ghost use Rattle.def_pass.specs.Walk.{declare_m};
ghost use Rattle.words.specs.Layout.{tree};
ghost use Rattle.words_scopes.specs.State.{Good, stack, targeted};
ghost use Rattle.words_scopes.specs.Kinds.{type_of};
ghost use Rattle.scope_values.specs.Steps.{Grown};
ghost use Rattle.words_nodes.specs.Nodes.{Planted, size};
ghost use Rattle.words_state.specs.State.{rest};
ghost use Rattle.scope_declare.specs.Inits.{init_from, Sited, has_none};
ghost use Rattle.scope.specs.Given.{init_o, value_at, Runs};
ghost use Rattle.scope.specs.Steps.{named, done_of, Moves};

use refusal::Refusal;
pub use scope_child::{close, open_scope};
pub use scope_declare::define::Init;
use scope_declare::no_value;
pub use scope_find::{
    Name, has_constant, ident_prevented, name_at, read_cnt, read_prevents_inlining, scope_for,
    should_prevent_inline_because_of_scope, write_prevents_inline,
};
pub use scope_read_write::mark::{
    mark_this_sensitive, prevent_inline_of_params, store_inline_barrier,
};
pub use scope_read_write::{Write, add_read, add_write};
use var_info::in_tree;
pub use var_info::{
    find_binding, find_binding_from_current, find_constant, has_same_this, idx_val,
    is_inline_prevented, is_param, is_undefined, put_constant, put_value, value_ident, value_kind,
    value_len, var_inline_prevented,
};
use words::Run;
use words_nodes::tree_len;
pub use words_scopes::kinds::{Scope, ScopeKind, VarDeclKind, VarType};
pub use words_scopes::prevent_inline;
use words_state::{inlining, var_decl_kind};

// The init of a declaration, none if its tree is not in the state.
fn sited(w: &[u32], v: Init) -> Init
    requires { Good w.now }
    ensures { (Sited result (size w.now)) × (init_from (tree w.now) result ≡ init_o (tree w.now) v) }
{
    let Some(i) = v.node() else {
        return Init::NoInit;
    };
    if in_tree(w, i) {
        return v;
    }
    Init::NoInit
}

// declare, with its is_undefined given; `again`: the binding is flagged (request 3). The source's own arguments.
pub fn declare(
    w: &mut [u32],
    again: bool,
    x: u8,
    v: Init,
    undefined: bool,
    kind: VarType,
) -> Result<(), Refusal>
    requires { Planted w.old }
    ensures { Grown w.old w.new (declare again x (init_o (tree w.old) v) undefined (type_of kind) (stack w.old)) result }
{
    let e = sited(w, v);
    scope_declare::declare(w, again, x, e, undefined, kind)
}

// declare's is_undefined.
fn undefined_now(w: &[u32], v: Init, is_change: bool) -> bool
    requires { Good w.now }
    ensures { result ≡ (is_var (rest w.now).var_decl_kind && not is_change && has_none v && (rest w.now).inlining) }
{
    var_decl_kind(w).is_var() && !is_change && no_value(v) && inlining(w)
}

// Inlining::declare, of a name with its form.
pub fn declare_m(
    w: &mut [u32],
    name: Name,
    v: Init,
    is_change: bool,
    kind: VarType,
) -> Result<(), Refusal>
    requires { Planted w.old }
    ensures did { Moves w.old w.new (declare_m (named name.form name.ident) (init_o (tree w.old) v) is_change (type_of kind) (rest w.old)) (done_of result (rest w.new)) }
    ensures kept { OnErr result (w.new ≡ w.old) }
{
    let e = sited(w, v);
    let undefined = undefined_now(w, e, is_change);
    scope_declare::declare(w, name.twice(), name.ident, e, undefined, kind)
}

// constants.insert: x is a constant of the current scope, with the tree at a node as its value, if one is given; without it if that is an
// identifier that the script as read targets (request 8). record_value and first_value differ in the call alone: one function that takes the
// call as a closure is longer, by its contract.
pub fn add_const(w: &mut [u32], x: u8, v: Option<usize>) -> Result<(), Refusal>
    requires { Planted w.old }
    ensures { Grown w.old w.new (add_const (targeted w.old) x (value_at (tree w.old) v) (stack w.old)) result }
{
    let r = run_of(w, v);
    scope_values::constant::add_const(w, x, r)
}

// The nodes of a value: of none, or of the tree that begins at a node.
fn run_of(w: &[u32], v: Option<usize>) -> Run
    requires { Planted w.now }
    ensures { Runs w.now (value_at (tree w.now) v) result.at result.len }
{
    let Some(i) = v else {
        return Run::NONE;
    };
    if !in_tree(w, i) {
        return Run::NONE;
    }
    Run {
        at: i,
        len: tree_len(w, i),
    }
}

// The innermost binding of x gets a value.
pub fn record_value(w: &mut [u32], x: u8, v: Option<usize>) -> Result<(), Refusal>
    requires { Planted w.old }
    ensures { Grown w.old w.new (change x (with_value (value_at (tree w.old) v)) (stack w.old)) result }
{
    let r = run_of(w, v);
    scope_values::record_value(w, x, r)
}

// The innermost binding of x gets its first value.
pub fn first_value(w: &mut [u32], x: u8, v: Option<usize>) -> Result<(), Refusal>
    requires { Planted w.old }
    ensures { Grown w.old w.new (change x (λ c. defined (with_value (value_at (tree w.old) v) c)) (stack w.old)) result }
{
    let r = run_of(w, v);
    scope_declare::define::first_value(w, x, r)
}
