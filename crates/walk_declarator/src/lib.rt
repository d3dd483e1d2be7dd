// The steps of declarators: declared, looked at, taken out.
#![tactic(auto)]

ghost use Rattle.std.specs.Prelude.{◌≡◌, ◌+◌, ◌-◌, ◌≤◌, ◌<◌, drop, OnErr};
ghost use Rattle.std.proofs.Math.Option.{some};
ghost use Rattle.def_tree.specs.Tree.{count, length_f, plant};
ghost use Rattle.def_tree.specs.Combine.{done};
ghost use Rattle.def_pass.specs.Tree.{is_cheap};
ghost use Rattle.def_pass.specs.Scope.{prevent_inline};
ghost use Rattle.def_pass.specs.Walk.{when, mark, declr_analysis, over_m, stays};
ghost use Rattle.words.specs.Layout.{tree};
ghost use Rattle.words_scopes.specs.State.{stack};
ghost use Rattle.words_scopes.specs.Kinds.{type_of};
ghost use Rattle.words_nodes.specs.Nodes.{Planted, Child, Replants, cut_at, tree_from, forest_from, size};
ghost use Rattle.words_state.specs.State.{rest, abs};
ghost use Rattle.walk_declarator.specs.Steps.{named, name_of, done_of, Moves, Did, Stands, declr_after, over_none, over_const, over_cheap, over_other, wants, take_ident, take_value, take_or_mark, take_init, cheap_at};
ghost use Rattle.scope.specs.Given.{value_at};

use refusal::Refusal;
use scope::{
    Init, Name, VarType, add_const, declare_m, has_same_this, ident_prevented, is_inline_prevented,
    prevent_inline, read_cnt,
};
use scope_declare::is_ident;
use words::kind_at;
use words_nodes::{cut, has_this, skip, tree_len};
use words_state::{is_first_run, var_decl_kind};

// What is declared: the name of a declarator, and the kind of its declaration.
#[derive(Clone, Copy, Debug, PartialEq, Eq)]
pub struct Declr {
    pub name: Name,
    pub kind: VarType,
}

// Where a declarator is: at node q, with its name and n trees from node i on, which end at node j. A count and no Option: the definition counts the
// trees behind a name, of which no state says that there is one at most.
#[derive(Clone, Copy, Debug, PartialEq, Eq)]
pub struct Spot {
    pub q: usize,
    pub n: usize,
    pub i: usize,
    pub j: usize,
}

// A literal or an identifier.
pub fn is_cheap(w: &[u32], i: usize) -> bool
    requires { (Planted w.now) × (i < size w.now) }
    ensures { result ≡ is_cheap (tree_from (tree w.now) i) }
{
    kind_at(w, i).is_cheap()
}

// The value at node i as it is recorded: itself, if it is a literal or an identifier, else none.
pub fn kept_value(w: &[u32], i: usize) -> Option<usize>
    requires { (Planted w.now) × (i < size w.now) }
    ensures { value_at (tree w.now) result ≡ cheap_at w.now i }
{
    is_cheap(w, i).then_some(i)
}

// Marks every binding of x, and every binding whose value is x, if a test holds. The test is a parameter: it is that of the definition's `when`.
fn prevent_if(w: &mut [u32], test: bool, x: u8)
    requires { Planted w.old }
    ensures { Moves w.old w.new (when test (mark (prevent_inline x)) (rest w.old)) (done (rest w.new) tt) }
{
    if test {
        prevent_inline(w, x);
    }
}

// A declarator in Analysis, without an initialiser.
fn over_none(w: &mut [u32], name: Name) -> Result<(), Refusal>
    requires { Planted w.old }
    ensures did { Moves w.old w.new (over_none name.form name.ident (rest w.old)) (done_of result (rest w.new)) }
    ensures kept { OnErr result (w.new ≡ w.old) }
{
    let kind = var_decl_kind(w);
    if kind.is_const() {
        return Ok(());
    }
    declare_m(w, name, Init::NoInit, true, kind)
}

// A constant, recorded in the first run.
fn over_const(w: &mut [u32], x: u8, e: usize) -> Result<(), Refusal>
    requires { (Planted w.old) × (e < size w.old) }
    ensures did { Moves w.old w.new (over_const x (tree_from (tree w.old) e) (rest w.old)) (done_of result (rest w.new)) }
    ensures kept { OnErr result (w.new ≡ w.old) }
{
    if !is_first_run(w) {
        return Ok(());
    }
    let v = kept_value(w, e);
    add_const(w, x, v)
}

// A literal or an identifier as initialiser.
fn over_cheap(w: &mut [u32], d: Declr, e: usize) -> Result<(), Refusal>
    requires { (Planted w.old) × (e < size w.old) }
    ensures did { Moves w.old w.new (over_cheap d.name.form d.name.ident (type_of d.kind) (tree_from (tree w.old) e) (rest w.old)) (done_of result (rest w.new)) }
    ensures kept { OnErr result (w.new ≡ w.old) }
{
    declare_m(w, d.name, Init::Recorded(e), false, d.kind)?;
    let test = is_inline_prevented(w, e);
    prevent_if(w, test, d.name.ident);
    Ok(())
}

// Another initialiser: one with a `this` is not walked again.
fn over_other(w: &mut [u32], d: Declr, e: usize) -> Result<bool, Refusal>
    requires { (Planted w.old) × (e < size w.old) }
    ensures did { Moves w.old w.new (over_other d.name.form d.name.ident (type_of d.kind) (tree_from (tree w.old) e) (rest w.old)) (done_of result (rest w.new)) }
    ensures kept { OnErr result (w.new ≡ w.old) }
{
    declare_m(w, d.name, Init::Seen(e), false, d.kind)?;
    let test = has_this(w, e);
    prevent_if(w, test, d.name.ident);
    Ok(test)
}

// A declarator in Analysis, with the initialiser at e.
fn over_some(w: &mut [u32], name: Name, e: usize) -> Result<bool, Refusal>
    requires { (Planted w.old) × (e < size w.old) }
    ensures did { Moves w.old w.new (declr_analysis (name_of name) (some (tree_from (tree w.old) e)) (rest w.old)) (done_of result (rest w.new)) }
    ensures kept { OnErr result (w.new ≡ w.old) }
{
    let kind = var_decl_kind(w);
    if kind.is_const() {
        over_const(w, name.ident, e)?;
        return Ok(false);
    }
    let d = Declr { name, kind };
    if is_cheap(w, e) {
        over_cheap(w, d, e)?;
        return Ok(false);
    }
    over_other(w, d, e)
}

// A declarator in Analysis, whose name and initialiser are the n trees from i on: is the name's walk left out.
pub fn over(w: &mut [u32], name: Name, n: usize, i: usize) -> Result<bool, Refusal>
    requires { (Planted w.old) × (n ≤ length_f (plant (drop i (tree w.old)))) }
    ensures did { Moves w.old w.new (over_m (name_of name) (forest_from (tree w.old) n i) (rest w.old)) (done_of result (rest w.new)) }
    ensures kept { OnErr result (w.new ≡ w.old) }
{
    if n < 2 {
        over_none(w, name)?;
        return Ok(false);
    }
    let e = skip(w, i);
    over_some(w, name, e)
}

// In Inlining: is the initialiser, the first of the n trees from i on, left as it is.
pub fn stays(w: &[u32], x: u8, n: usize, i: usize) -> bool
    requires { (Planted w.now) × (n ≤ length_f (plant (drop i (tree w.now)))) }
    ensures { result ≡ stays (named 0 x) (forest_from (tree w.now) n i) (stack w.now) }
{
    ident_prevented(w, x) || (n != 0 && !has_same_this(w, x, i))
}

// An identifier as initialiser: the name is declared again.
fn take_ident(w: &mut [u32], d: Declr, e: usize) -> Result<(), Refusal>
    requires { (Planted w.old) × (e < size w.old) }
    ensures did { Moves w.old w.new (take_ident d.name.form d.name.ident (type_of d.kind) (tree_from (tree w.old) e) (rest w.old)) (done_of result (rest w.new)) }
    ensures kept { OnErr result (w.new ≡ w.old) }
{
    if is_ident(w, e) {
        return declare_m(w, d.name, Init::Recorded(e), false, d.kind);
    }
    Ok(())
}

// Is x, with its initialiser at e, read where the initialiser may go.
fn wanted(w: &[u32], x: u8, e: usize) -> bool
    requires { (Planted w.now) × (e < size w.now) }
    ensures { result ≡ wants x (tree_from (tree w.now) e) (stack w.now) }
{
    is_cheap(w, e) || (!ident_prevented(w, x) && matches!(read_cnt(w, x), Some(1)))
}

// The name gets its initialiser as its value, if it is wanted.
fn take_value(w: &mut [u32], d: Declr, e: usize) -> Result<bool, Refusal>
    requires { (Planted w.old) × (e < size w.old) }
    ensures did { Moves w.old w.new (take_value d.name.form d.name.ident (type_of d.kind) (tree_from (tree w.old) e) (rest w.old)) (done_of result (rest w.new)) }
    ensures kept { OnErr result (w.new ≡ w.old) }
{
    if wanted(w, d.name.ident, e) {
        declare_m(w, d.name, Init::Recorded(e), false, d.kind)?;
        return Ok(true);
    }
    Ok(false)
}

// A prevented initialiser prevents its name.
fn take_or_mark(w: &mut [u32], d: Declr, e: usize) -> Result<bool, Refusal>
    requires { (Planted w.old) × (e < size w.old) }
    ensures did { Moves w.old w.new (take_or_mark d.name.form d.name.ident (type_of d.kind) (tree_from (tree w.old) e) (rest w.old)) (done_of result (rest w.new)) }
    ensures kept { OnErr result (w.new ≡ w.old) }
{
    if is_inline_prevented(w, e) {
        prevent_inline(w, d.name.ident);
        return Ok(false);
    }
    take_value(w, d, e)
}

// Is the initialiser at e to be taken out.
fn take_init(w: &mut [u32], d: Declr, e: usize) -> Result<bool, Refusal>
    requires { (Planted w.old) × (e < size w.old) }
    ensures { Moves w.old w.new (take_init d.name.form d.name.ident (type_of d.kind) (tree_from (tree w.old) e) (rest w.old)) (done_of result (rest w.new)) }
{
    take_ident(w, d, e)?;
    take_or_mark(w, d, e)
}

// The initialiser at i leaves its declarator at q; of what ended at j, the end.
fn cut_init(w: &mut [u32], q: usize, i: usize, j: usize) -> usize
    requires { (Planted w.old) × (Child (tree w.old) q 1 i) × (i + count (tree_from (tree w.old) i) ≤ j) }
    ensures { (Replants w.old w.new (cut_at (tree w.old) q i)) × (result ≡ j - count (tree_from (tree w.old) i)) }
{
    let old = tree_len(w, i);
    cut(w, q, i);
    j - old
}

// The end of a declarator without an initialiser.
fn after_bare(w: &mut [u32], d: Declr, s: Spot) -> Result<usize, Refusal>
    requires { (Planted w.old) × (Stands (tree w.old) s) × (s.n ≡ 0) }
    ensures did { Did w.old w.new result (declr_after s.q (type_of d.kind) (name_of d.name) s.n s.i s.j (abs w.old)) }
    ensures kept { OnErr result (w.new ≡ w.old) }
{
    declare_m(w, d.name, Init::NoInit, false, d.kind)?;
    Ok(s.j)
}

// And with one.
fn after_init(w: &mut [u32], d: Declr, s: Spot) -> Result<usize, Refusal>
    requires { (Planted w.old) × (Stands (tree w.old) s) × (0 < s.n) }
    ensures { Did w.old w.new result (declr_after s.q (type_of d.kind) (name_of d.name) s.n s.i s.j (abs w.old)) }
{
    let gone = take_init(w, d, s.i)?;
    if gone {
        return Ok(cut_init(w, s.q, s.i, s.j));
    }
    Ok(s.j)
}

// The end of a declarator in Inlining, after the second walk of its initialiser: one that is recorded leaves the declarator.
pub fn declr_after(w: &mut [u32], d: Declr, s: Spot) -> Result<usize, Refusal>
    requires { (Planted w.old) × (Stands (tree w.old) s) }
    ensures { Did w.old w.new result (declr_after s.q (type_of d.kind) (name_of d.name) s.n s.i s.j (abs w.old)) }
{
    if s.n == 0 {
        return after_bare(w, d, s);
    }
    after_init(w, d, s)
}
