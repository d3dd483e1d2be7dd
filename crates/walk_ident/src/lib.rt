// The steps of identifiers, and of scopes around a walk, over the working words.
#![tactic(auto)]

ghost use Rattle.std.specs.Prelude.{◌≡◌, ◌<◌, ◌≤◌, IfSome, OnErr};
ghost use Rattle.std.proofs.Math.Option.{some};
ghost use Rattle.def_tree.specs.Combine.{on_rest};
ghost use Rattle.def_pass.specs.Tree.{void_zero};
ghost use Rattle.def_pass.specs.Scope.{find_binding};
ghost use Rattle.def_pass.specs.Walk.{opening, deeper, same_ident};
ghost use Rattle.def_file.specs.declared.kind.Kind.TheVariants.{Ident};
ghost use Rattle.def_file.specs.Named.{number_of};
ghost use Rattle.refusal.specs.Number.{refused};
ghost use Rattle.words.specs.Layout.{node_of, tree};
ghost use Rattle.words_scopes.specs.State.{Good, Becomes, stack};
ghost use Rattle.words_scopes.specs.Kinds.{kind_of};
ghost use Rattle.words_nodes.specs.Nodes.{Planted, Child, tree_from, size};
ghost use Rattle.words_state.specs.State.{rest, abs, Act, Turns};
ghost use Rattle.scope.specs.Steps.{named, Did};
ghost use Rattle.scope.specs.Handles.{value_tree, counted_o};
ghost use Rattle.scope_find.specs.Answers.{count_of};
ghost use Rattle.walk_ident.specs.Steps.{analysis_f, costly, test_stack, Fated, value_by, Has, constant_at, noted, counts_if, swap_f, value_f, const_f, Restored};

pub mod assign;

use def_file::form;
use refusal::Refusal;
use scope::{
    Scope, ScopeKind, VarDeclKind, VarType, add_read, close, find_binding, find_constant,
    is_undefined, name_at, open_scope, prevent_inline, put_constant, put_value, value_ident,
    value_kind, value_len, var_inline_prevented,
};
use scope_find::ident_at;
use words::layout;
use words_nodes::{put_void, tree_len, unwrap};
use words_scopes::count_one;
use words_state::{
    SavedFields, in_test, is_first_run, restore_fields, set_changed, set_conds, set_ended,
    set_replaced, set_var_decl_kind,
};

// What becomes of an identifier in Inlining: the value of the binding of a number takes its place. Three fates, and nothing is one of them.
#[derive(Clone, Copy, Debug, PartialEq, Eq)]
pub enum Found {
    Nothing,
    Void,
    Value(usize),
}

// Has x a binding whose value is no literal and no identifier.
fn costly(w: &[u32], x: u8) -> bool
    requires { Good w.now }
    ensures { result ≡ costly (find_binding x (stack w.now)) }
{
    let Some(b) = find_binding(w, x) else {
        return false;
    };
    match value_kind(w, b) {
        Some(kind) => !kind.is_cheap(),
        None => true,
    }
}

// A read of x in a test prevents a costly value.
fn test_read(w: &mut [u32], x: u8)
    requires { Good w.old }
    ensures { Becomes w.old w.new (test_stack (rest w.old).in_test x (stack w.old)) }
{
    if in_test(w) && costly(w, x) {
        prevent_inline(w, x);
    }
}

// The identifier at node i is read, in Analysis.
pub fn ident_analysis(w: &mut [u32], i: usize)
    requires { (Planted w.old) × (i < size w.old) × ((node_of w.old i).kind ≡ number_of Ident) }
    ensures { Act w.old w.new 0 (analysis_f i (abs w.old)) }
{
    let name = name_at(w, i);
    test_read(w, name.ident);
    add_read(w, name.ident, name.form == form::ARGUMENTS);
}

// What becomes of the identifier at node i, in Inlining.
pub fn fate(w: &[u32], i: usize) -> Found
    requires { (Planted w.now) × (i < size w.now) × ((node_of w.now i).kind ≡ number_of Ident) }
    ensures { Fated w.now i result }
{
    let x = ident_at(w, i);
    let Some(b) = find_binding(w, x) else {
        return Found::Nothing;
    };
    if var_inline_prevented(w, b) {
        return Found::Nothing;
    }
    if 0 < value_len(w, b) {
        return Found::Value(b);
    }
    if is_undefined(w, b) {
        return Found::Void;
    }
    Found::Nothing
}

// Is the value of binding b the identifier x. The two stand in different stores of nodes, so that their identifiers are all that `==` can
// compare.
fn same_ident(w: &[u32], x: u8, b: usize) -> bool
    requires { (Planted w.now) × (Has w.now b) }
    ensures { result ≡ same_ident (named 0 x) (value_by w.now b) }
{
    value_ident(w, b) == Some(u32::from(x))
}

// The end of a replacement by the value of the innermost binding of x: a change, and counted (request 9), or neither. The test is a parameter, since
// it is the definition's: the contract is that of one step with its test.
fn counted(w: &mut [u32], x: u8, changed: bool)
    requires { Planted w.old }
    ensures { Turns w.old w.new (noted (counts_if changed x) (rest w.old)) }
{
    if changed {
        set_changed(w, true);
        count_one(w, x);
        let n = w[layout::REPLACED];
        set_replaced(w, n.wrapping_add(1));
    }
}

// The value of binding b takes the place of the identifier at node i, a change that is counted unless it is the same identifier.
pub fn inline_value(w: &mut [u32], i: usize, p: u32, b: usize) -> Result<usize, Refusal>
    requires { (Planted w.old) × (i < size w.old) × ((node_of w.old i).kind ≡ number_of Ident) × (Has w.old b) }
    ensures did { Did w.old w.new result (value_f p (value_by w.old b) i (abs w.old)) }
    ensures kept { OnErr result (w.new ≡ w.old) }
{
    let x = ident_at(w, i);
    let same = same_ident(w, x, b);
    let m = value_len(w, b);
    put_value(w, i, p, b)?;
    counted(w, x, !same);
    Ok(i + m)
}

// `void 0` takes the place of the identifier at node i: no change.
pub fn inline_undefined(w: &mut [u32], i: usize, p: u32) -> Result<usize, Refusal>
    requires { (Planted w.old) × (i < size w.old) }
    ensures did { Did w.old w.new result (swap_f p void_zero i (abs w.old)) }
    ensures kept { OnErr result (w.new ≡ w.old) }
{
    put_void(w, i, p)?;
    Ok(i + 2)
}

// How many nodes the constant that the identifier at node i names has, in the first run.
pub fn constant(w: &[u32], i: usize) -> Option<usize>
    requires { (Planted w.now) × (i < size w.now) × ((node_of w.now i).kind ≡ number_of Ident) }
    ensures { (count_of result ≡ counted_o (constant_at (abs w.now) i)) × (IfSome result (λ m. m ≤ 512)) }
{
    if !is_first_run(w) {
        return None;
    }
    let x = ident_at(w, i);
    find_constant(w, x)
}

// The constant, of m nodes, takes the place of the identifier at node i.
pub fn inline_constant(w: &mut [u32], i: usize, p: u32, m: usize) -> Result<usize, Refusal>
    requires { (Planted w.old) × (i < size w.old) × ((node_of w.old i).kind ≡ number_of Ident) × (some m ≡ counted_o (constant_at (abs w.old) i)) × (m ≤ 512) }
    ensures did { Did w.old w.new result (const_f p (value_tree (constant_at (abs w.old) i)) i (abs w.old)) }
    ensures kept { OnErr result (w.new ≡ w.old) }
{
    let x = ident_at(w, i);
    put_constant(w, i, p, x)?;
    set_changed(w, true);
    Ok(i + m)
}

// The second child of node i, at node j, takes its place.
fn lift_value(w: &mut [u32], i: usize, j: usize, p: u32) -> Result<usize, Refusal>
    requires { (Planted w.old) × (Child (tree w.old) i 1 j) × (p ≤ 201) }
    ensures did { Did w.old w.new result (swap_f p (tree_from (tree w.old) j) i (abs w.old)) }
    ensures kept { OnErr result (w.new ≡ w.old) }
{
    let m = tree_len(w, j);
    unwrap(w, i, j, p)?;
    Ok(i + m)
}

// Opens a scope of a kind, in which a declaration is of `var`.
pub fn enter(w: &mut [u32], kind: ScopeKind) -> Result<(), Refusal>
    requires { Planted w.old }
    ensures did { Act w.old w.new (refused result) (on_rest (opening (kind_of kind)) (abs w.old)) }
    ensures kept { OnErr result (w.new ≡ w.old) }
{
    open_scope(w, Scope::new(kind))?;
    set_var_decl_kind(w, VarType::Declared(VarDeclKind::Var));
    Ok(())
}

// Closes the innermost scope, adds the counts that end to their total, and gives the visitor back the fields that it had before.
pub fn leave(w: &mut [u32], before: SavedFields)
    requires { Planted w.old }
    ensures { Restored w.old w.new before }
{
    let n = close(w);
    let ended = w[layout::ENDED];
    set_ended(w, ended.wrapping_add(n));
    restore_fields(w, before);
}

// One more right side is open in its Cond scope.
pub fn deeper(w: &mut [u32]) -> Result<(), Refusal>
    requires { Planted w.old }
    ensures did { Act w.old w.new (refused result) (on_rest deeper (abs w.old)) }
    ensures kept { OnErr result (w.new ≡ w.old) }
{
    let n = w[layout::CONDS];
    if 12 <= n {
        return Err(Refusal::Depth);
    }
    set_conds(w, n + 1);
    Ok(())
}
