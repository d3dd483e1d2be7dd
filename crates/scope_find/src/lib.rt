// Look-ups of scope.rs over the working words. Their contracts speak of the definition's stack of scopes. That a number is a scope's, a binding's or a
// node's is a clause: a number cannot hold the words that it is a number in.
#![tactic(auto)]

ghost use Rattle.std.specs.Prelude.{◌≡◌, suc, ◌+◌, ◌-◌, ◌≤◌, ◌<◌, true, ◌||◌, ltb, ◌⊎◌};
ghost use Rattle.std.proofs.Math.Option.{some};
ghost use Rattle.def_pass.specs.Scope.{is_some, const_in, find_binding, find_binding_from_current, write_prevents_inline, read_prevents_inlining, should_prevent_inline_because_of_scope, var_inline_prevented, is_hoisted_prevented, is_inline_prevented, mark_of, mark_of_id, ident_of, has_same_this, has_constant, scope_for, in_loop, any_from, between};
ghost use Rattle.def_tree.specs.Tree.{kids};
ghost use Rattle.def_pass.specs.Tree.{head_t};
ghost use Rattle.def_pass.specs.Twice.{is_twice, unflagged, is_args};
ghost use Rattle.def_file.specs.declared.kind.Kind.TheVariants.{BindingIdent, Ident};
ghost use Rattle.def_file.specs.Named.{number_of};
ghost use Rattle.words.specs.Layout.{yes, node_of, binding_count, scope_count, field_word};
ghost use Rattle.words.specs.Place.{placed};
ghost use Rattle.words_scopes.specs.Kinds.{type_of, kind_of};
ghost use Rattle.words_scopes.specs.State.{Good, HasBinding, HasScope, stack, heads, binds, place, bind_at, len_at, off};
ghost use Rattle.scope_find.specs.Look.{HasNode, start, first, scope_at, below, at_place, place_below, FoundIn, idx_here, idx_at, reads_o, IsKindOfValue, node_tree, held, bars_here, bound_here};
ghost use Rattle.scope_find.specs.Answers.{count_of};
ghost use Rattle.scope_find.specs.Own.{Own};

use def_file::form;
use def_file::kind::Kind;
use words::{arity_at, first_at, flag_at, form_at, kind_at, layout, node_at, num_at};
use words_scopes::kinds::{ScopeKind, VarType};
use words_scopes::{current, find_binding, offset};

// A name, a binding or an identifier of the tree: its number, and its form.
#[derive(Clone, Copy, Debug, PartialEq, Eq)]
pub struct Name {
    pub ident: u8,
    pub form: u32,
}

impl Name {
    // Is it flagged, a binding that is declared twice (request 3).
    pub fn twice(self) -> bool
        ensures { result ≡ is_twice self.form }
    {
        form::TWICE <= self.form
    }

    // Its form without the flag.
    pub fn unflagged(self) -> u32
        ensures { result ≡ unflagged self.form }
    {
        if self.twice() {
            self.form - form::TWICE
        } else {
            self.form
        }
    }

    // Is it `arguments`, flagged or not.
    pub fn arguments(self) -> bool
        ensures { result ≡ is_args self.form }
    {
        self.unflagged() == form::ARGUMENTS
    }
}

// scope_for: is the identifier bound in the scope found, and is that the current one. The definition's pair: of a name that is not bound, too, it
// says whether the scope found is the current one.
#[derive(Debug, Clone, Copy, PartialEq, Eq)]
pub struct ScopeFor {
    pub bound: bool,
    pub current: bool,
}

// A word of scope k's own record, where its bindings or its constants begin; behind the last scope a count, where they end.
fn start_of(w: &[u32], k: usize, field: usize, count: usize) -> usize
    requires { (Good w.now) × (k ≤ scope_count w.now) × (field < 4) × (count < 4) }
    ensures { result ≡ start w.now k field count }
{
    if k < w[layout::SCOPE_COUNT] as usize {
        return w[layout::SCOPES + k * 4 + field] as usize;
    }
    w[count] as usize
}

// Where the bindings of scope k begin; behind the last scope, where they end.
pub fn first_of(w: &[u32], k: usize) -> usize
    requires { (Good w.now) × (k ≤ scope_count w.now) }
    ensures { result ≡ first w.now k }
{
    start_of(w, k, layout::FIRST_BINDING, layout::BINDING_COUNT)
}

// Scope k's kind.
#[tactic(auto, unfolding(crate::specs::Look::scope_at))]
pub fn scope_kind(w: &[u32], k: usize) -> ScopeKind
    requires { HasScope w.now k }
    ensures { kind_of result ≡ (scope_at w.now k).kind }
{
    ScopeKind::from_word(w[layout::SCOPES + k * 4])
}

// The binding of x in scope k; p is the innermost one in the scopes up to k.
fn found_from(w: &[u32], k: usize, x: u8, p: Option<usize>) -> Option<usize>
    requires { (HasScope w.now k) × (placed p ≡ place_below w.now x (suc k)) }
    ensures { FoundIn w.now k x (placed result) }
{
    let b = p?;
    if b < first_of(w, k) {
        return None;
    }
    p
}

// The same for a scope inside which no binding of x stands: the index says.
fn found_in(w: &[u32], k: usize, x: u8) -> Option<usize>
    requires { (HasScope w.now k) × (place x (heads w.now) (binds w.now) ≡ place_below w.now x (suc k)) }
    ensures { FoundIn w.now k x (placed result) }
{
    found_from(w, k, x, find_binding(w, x))
}

// The innermost binding of x in the scopes before k; p is the one in the scopes up to k, and has kept what it shadows.
fn outside(w: &[u32], k: usize, x: u8, p: Option<usize>) -> Option<usize>
    requires { (HasScope w.now k) × (placed p ≡ place_below w.now x (suc k)) }
    ensures { placed result ≡ place_below w.now x k }
{
    let b = p?;
    if b < first_of(w, k) {
        return p;
    }
    (w[layout::SHADOWED + b] as usize).checked_sub(1)
}

// Is there a constant of x in scope k.
fn const_in(w: &[u32], k: usize, x: u8) -> bool
    requires { HasScope w.now k }
    ensures { result ≡ is_some (const_in x (scope_at w.now k).constants) }
{
    let a = start_of(w, k, layout::FIRST_CONSTANT, layout::CONSTANT_COUNT);
    let e = start_of(w, k + 1, layout::FIRST_CONSTANT, layout::CONSTANT_COUNT);
    first_at(w, layout::CONSTANT_TABLE, a, e, x).is_some()
}

// The binding of x in the current scope.
pub fn find_binding_from_current(w: &[u32], x: u8) -> Option<usize>
    requires { Good w.now }
    ensures found { (find_binding_from_current x (stack w.now) ≡ at_place w.now (placed result)) × (placed result ≤ binding_count w.now) }
    ensures own { Own w.now x result }
{
    let k = current(w)?;
    found_in(w, k, x)
}

// Does a scope have a constant of x.
pub fn has_constant(w: &[u32], x: u8) -> bool
    requires { Good w.now }
    ensures { result ≡ has_constant x (stack w.now) }
{
    let c = w[layout::CONSTANT_COUNT] as usize;
    first_at(w, layout::CONSTANT_TABLE, 0, c, x).is_some()
}

// Outwards, is a function, a loop or a condition met before the binding of x. A loop, as `bound_outwards` and `held_below`: `found_in`
// asks that no scope inside has x, a fact that goes from turn to turn. `find`, as `in_loop` has it, would ask that of the calls before (its clause
// `callable`), and the library has no lemma for it.
pub fn write_prevents_inline(w: &[u32], x: u8) -> bool
    requires { Good w.now }
    ensures { result ≡ write_prevents_inline x (stack w.now) }
{
    for k in (0..w[layout::SCOPE_COUNT] as usize).rev() {
        if found_in(w, k, x).is_some() {
            return false;
        }
        if scope_kind(w, k) != ScopeKind::Block {
            return true;
        }
    }
    false
}

// Outwards, is a loop met before a function.
pub fn in_loop(w: &[u32]) -> bool
    requires { Good w.now }
    ensures { result ≡ in_loop (stack w.now) }
{
    (0..w[layout::SCOPE_COUNT] as usize)
        .rev()
        .map(|k| scope_kind(w, k))
        .find(|kind| matches!(kind, ScopeKind::Fn { .. } | ScopeKind::Loop))
        .is_some_and(|kind| kind == ScopeKind::Loop)
}

// The index within the current scope of the binding of x.
pub fn idx_val(w: &[u32], x: u8) -> Option<usize>
    requires { Good w.now }
    ensures { idx_here x (stack w.now) ≡ idx_at w.now (placed result) }
{
    let k = current(w)?;
    let b = found_in(w, k, x)?;
    Some(b - first_of(w, k))
}

// How many bindings the current scope has.
pub fn bound_here(w: &[u32]) -> usize
    requires { Good w.now }
    ensures { result ≡ bound_here (stack w.now) }
{
    let Some(d) = current(w) else {
        return 0;
    };
    w[layout::BINDING_COUNT] as usize - first_of(w, d)
}

// Is a word of binding k's record set, as a flag.
fn is_set(w: &[u32], k: usize, field: usize) -> bool
    requires { (HasBinding w.now k) × (field < 10) }
    ensures { result ≡ yes (field_word w.now k field) }
{
    w[layout::BINDINGS + k * 10 + field] != 0
}

// Is binding k prevented: its own mark. This and the three behind it are one read each, with the definition's own field for an answer.
pub fn inline_prevented(w: &[u32], k: usize) -> bool
    requires { HasBinding w.now k }
    ensures { result ≡ (bind_at w.now k).inline_prevented }
{
    is_set(w, k, layout::PREVENTED)
}

pub fn is_undefined(w: &[u32], k: usize) -> bool
    requires { HasBinding w.now k }
    ensures { result ≡ (bind_at w.now k).is_undefined }
{
    is_set(w, k, layout::UNDEFINED)
}

pub fn this_sensitive(w: &[u32], k: usize) -> bool
    requires { HasBinding w.now k }
    ensures { result ≡ (bind_at w.now k).this_sensitive }
{
    is_set(w, k, layout::SENSITIVE)
}

pub fn hoisted(w: &[u32], k: usize) -> bool
    requires { HasBinding w.now k }
    ensures { result ≡ (bind_at w.now k).hoisted }
{
    is_set(w, k, layout::HOISTED)
}

// Binding k's VarType.
pub fn var_type(w: &[u32], k: usize) -> VarType
    requires { HasBinding w.now k }
    ensures { type_of result ≡ (bind_at w.now k).kind }
{
    VarType::from_word(w[layout::BINDINGS + k * 10 + layout::KIND])
}

// The kind of binding k's value.
pub fn value_kind(w: &[u32], k: usize) -> Option<Kind>
    requires { HasBinding w.now k }
    ensures { IsKindOfValue (bind_at w.now k).value result }
{
    if w[layout::BINDINGS + k * 10 + layout::LENGTH] == 0 {
        return None;
    }
    let at = offset(w, k);
    Some(node_at(w, layout::VALUES, at).kind)
}

// How many nodes it has; they stand from offset(w, k) on.
pub fn value_len(w: &[u32], k: usize) -> usize
    requires { HasBinding w.now k }
    ensures { (result ≡ len_at w.now k) × (off w.now k + result ≤ 512) }
{
    w[layout::BINDINGS + k * 10 + layout::LENGTH] as usize
}

// VarInfo::is_inline_prevented: the mark, or a member where `this` matters.
pub fn var_inline_prevented(w: &[u32], k: usize) -> bool
    requires { HasBinding w.now k }
    ensures { result ≡ var_inline_prevented (bind_at w.now k) }
{
    inline_prevented(w, k) || this_sensitive(w, k) && value_kind(w, k).is_some_and(Kind::is_member)
}

// How often the innermost binding of x was read.
pub fn read_cnt(w: &[u32], x: u8) -> Option<u32>
    requires { Good w.now }
    ensures { count_of result ≡ reads_o (find_binding x (stack w.now)) }
{
    let k = find_binding(w, x)?;
    Some(w[layout::BINDINGS + k * 10 + layout::READS])
}

// Outwards, is a function, a loop or a condition met before the binding: of a `var` that is not hoisted.
pub fn read_prevents_inlining(w: &[u32], x: u8) -> bool
    requires { Good w.now }
    ensures { result ≡ read_prevents_inlining x (stack w.now) }
{
    if let Some(k) = find_binding(w, x) {
        if !var_type(w, k).is_var() || hoisted(w, k) {
            return false;
        }
    }
    write_prevents_inline(w, x)
}

// Outwards, is a binding of x met, and no scope before that has a constant of x.
fn bound_outwards(w: &[u32], x: u8) -> bool
    requires { Good w.now }
    ensures { result ≡ (scope_for true x (stack w.now)).0 }
{
    for k in (0..w[layout::SCOPE_COUNT] as usize).rev() {
        if found_in(w, k, x).is_some() {
            return true;
        }
        if const_in(w, k, x) {
            return false;
        }
    }
    false
}

// The scope of x, outwards: the first one that has a constant or a binding of it, else the root.
pub fn scope_for(w: &[u32], x: u8) -> ScopeFor
    requires { Good w.now }
    ensures { (result.bound ≡ (scope_for true x (stack w.now)).0) × (result.current ≡ (scope_for true x (stack w.now)).1) }
{
    let d = w[layout::SCOPE_COUNT] as usize;
    ScopeFor {
        bound: bound_outwards(w, x),
        current: d <= 1 || found_in(w, d - 1, x).is_some() || const_in(w, d - 1, x),
    }
}

// Is there a binding at the place, hoisted and prevented.
fn hoisted_prevented(w: &[u32], r: Option<usize>) -> bool
    requires { (Good w.now) × (placed r ≤ binding_count w.now) }
    ensures { result ≡ is_hoisted_prevented (at_place w.now (placed r)) }
{
    let Some(k) = r else {
        return false;
    };
    hoisted(w, k) && var_inline_prevented(w, k)
}

// Does a scope before scope d leave x unresolved, or have a hoisted binding of it that is prevented; q is the innermost binding of x there.
fn held_below(w: &[u32], d: usize, x: u8, q: Option<usize>) -> bool
    requires { (Good w.now) × (d ≤ scope_count w.now) × (placed q ≡ place_below w.now x d) }
    ensures { result ≡ held x (below w.now d) }
{
    let mut p = q;
    for k in (0..d).rev() {
        if flag_at(w, layout::UNRESOLVED + k * 8, x) {
            return true;
        }
        if hoisted_prevented(w, found_from(w, k, x, p)) {
            return true;
        }
        p = outside(w, k, x, p);
    }
    false
}

// Is x used above before it is declared: unresolved, or hoisted from a closed scope and prevented.
pub fn should_prevent_inline_because_of_scope(w: &[u32], x: u8) -> bool
    requires { Good w.now }
    ensures { result ≡ should_prevent_inline_because_of_scope x (stack w.now) }
{
    let Some(d) = current(w) else {
        return false;
    };
    flag_at(w, layout::UNRESOLVED + d * 8, x)
        || held_below(w, d, x, outside(w, d, x, find_binding(w, x)))
}

// The mark of the innermost binding of x.
pub fn ident_prevented(w: &[u32], x: u8) -> bool
    requires { Good w.now }
    ensures { result ≡ mark_of (find_binding x (stack w.now)) }
{
    let Some(b) = find_binding(w, x) else {
        return false;
    };
    inline_prevented(w, b)
}

// The identifier of node i.
pub fn ident_at(w: &[u32], i: usize) -> u8
    requires { (HasNode w.now i) × (((node_of w.now i).kind ≡ number_of BindingIdent) ⊎ ((node_of w.now i).kind ≡ number_of Ident)) }
    ensures { result ≡ (node_of w.now i).num }
{
    num_at(w, i) as u8
}

// The name that node i is.
pub fn name_at(w: &[u32], i: usize) -> Name
    requires { (HasNode w.now i) × (((node_of w.now i).kind ≡ number_of BindingIdent) ⊎ ((node_of w.now i).kind ≡ number_of Ident)) }
    ensures { (result.ident ≡ (node_of w.now i).num) × (result.form ≡ (node_of w.now i).form) }
{
    Name {
        ident: ident_at(w, i),
        form: form_at(w, i),
    }
}

// Of a member, node i: the mark of the identifier that it is a member of.
fn object_prevented(w: &[u32], i: usize) -> bool
    requires { HasNode w.now i }
    ensures { result ≡ mark_of_id (ident_of (head_t (kids (node_tree w.now i)))) (stack w.now) }
{
    if arity_at(w, i) == 0 || w[layout::NODE_COUNT] as usize <= i + 1 {
        return false;
    }
    match kind_at(w, i + 1) {
        Kind::Ident => ident_prevented(w, ident_at(w, i + 1)),
        _ => false,
    }
}

// Is the expression that begins at node i prevented: an update, a call, `new` or parentheses; else by the binding of its identifier.
pub fn is_inline_prevented(w: &[u32], i: usize) -> bool
    requires { HasNode w.now i }
    ensures { result ≡ is_inline_prevented (node_tree w.now i) (stack w.now) }
{
    match kind_at(w, i) {
        Kind::Ident => ident_prevented(w, ident_at(w, i)),
        Kind::Member | Kind::Computed => object_prevented(w, i),
        // The kinds that are prevented whatever they have in them.
        Kind::Update | Kind::Call | Kind::New | Kind::Paren => true,
        _ => false,
    }
}

// Does it not matter to the binding of x what `this` is in the expression that begins at node i.
pub fn has_same_this(w: &[u32], x: u8, i: usize) -> bool
    requires { HasNode w.now i }
    ensures { result ≡ has_same_this (find_binding x (stack w.now)) (some (node_tree w.now i)) }
{
    let Some(k) = find_binding(w, x) else {
        return true;
    };
    !(this_sensitive(w, k) && kind_at(w, i).is_member())
}

// Is there a barrier before binding j of the current scope.
fn bar(w: &[u32], j: usize) -> bool
    requires { Good w.now }
    ensures { result ≡ bars_here (stack w.now) j }
{
    let Some(d) = current(w) else {
        return false;
    };
    if j == 0 {
        return w[layout::SCOPES + d * 4 + layout::FIRST_BARRIER] != 0;
    }
    let a = first_of(w, d);
    j <= w[layout::BINDING_COUNT] as usize - a && is_set(w, a + j - 1, layout::BARRIER)
}

// Is there one before one of the m bindings from a on.
fn barrier_exists(w: &[u32], a: usize, m: usize) -> bool
    requires { (Good w.now) × (a ≤ 256) × (m ≤ 257) }
    ensures { result ≡ any_from (bars_here (stack w.now)) a m }
{
    (a..a + m).any(|j| bar(w, j))
}

// declare: does the value at place v of the current scope stand behind place idx, or is there a barrier between them.
pub fn barred(w: &[u32], v: usize, idx: usize) -> bool
    requires { (Good w.now) × (idx ≤ 256) }
    ensures { result ≡ (ltb idx v || between v idx (bars_here (stack w.now))) }
{
    idx < v || barrier_exists(w, v, idx + 1 - v)
}
