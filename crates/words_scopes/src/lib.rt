// The scope state in lent words: leaf functions whose contracts speak of the definition's stack of scopes. The words stay a lent slice and `Good` a
// clause: a struct around a `&mut` makes its lender forget the words unless each function promises that the same slice comes back, so that one clause
// goes and another comes, and its model is equal to the slice only by a proof. Of those that only read, each stands between two that write, so that a
// struct of the words as they are would be made anew for each call.
#![tactic(auto)]

ghost use Rattle.std.specs.Prelude.{◌≡◌, ℕ, ◌+◌, ◌-◌, ◌<◌, ◌≤◌, not, ◌&&◌, ◌∷◌, length, IfSome};
ghost use Rattle.std.proofs.Math.Option.{none};
ghost use Rattle.def_pass.specs.Scope.{defined, count_one, change, prevent_one, prevent_inline, append, fresh, new_scope};
ghost use Rattle.words_scopes.specs.Mark.{marked};
ghost use Rattle.words.specs.Layout.{binding_count, scope_count, constant_count, binding_place, value_len_word, first_binding_word, first_constant_word};
ghost use Rattle.words.specs.Place.{placed};
ghost use Rattle.words_scopes.specs.Kinds.{type_of, alias_of, kind_of};
ghost use Rattle.words_scopes.specs.State.{AreWords, Good, HasBinding, Past, Becomes, stack, heads, binds, place, off, bind_at, name_of, hit_at, Window, recorded, Recorded, drop_inner};
ghost use Rattle.words_scopes.specs.Index.{Entered, Restored};

use binding::{Binding, mark_all};
use def_file::kind::Kind;
use kinds::{ScopeKind, VarType, alias_from_word, alias_word};
use words::{first_at, layout, merge, node_at, put, sum_at, wipe};

pub mod binding;
pub mod kinds;

// A binding without its identifier, its value and its count.
#[derive(Clone, Copy, Debug, PartialEq, Eq)]
pub struct Record {
    pub kind: VarType,
    pub alias: Option<VarType>,
    pub reads: u32,
    pub prevented: bool,
    pub undefined: bool,
    pub this_sensitive: bool,
    pub hoisted: bool,
}

impl Record {
    // That of a binding that was not read yet; its two bools are the definition's arguments.
    pub fn fresh(kind: VarType, alias: Option<VarType>, prevented: bool, undefined: bool) -> Record
        ensures { (i : ℕ) → recorded i result 0 ≡ fresh i (type_of kind) (alias_of alias) prevented undefined none }
    {
        Record {
            kind,
            alias,
            reads: 0,
            prevented,
            undefined,
            this_sensitive: false,
            hoisted: false,
        }
    }

    // The words that stand for it, from the kind's on; `record_at` is the way back.
    pub fn words(self) -> [u32; 7]
        ensures { AreWords self result }
    {
        [
            u32::from(self.kind),
            alias_word(self.alias),
            self.reads,
            u32::from(self.prevented),
            u32::from(self.undefined),
            u32::from(self.this_sensitive),
            u32::from(self.hoisted),
        ]
    }
}

// The current scope, if there is one.
pub fn current(w: &[u32]) -> Option<usize>
    requires { 16384 ≤ length w.now }
    ensures { placed result ≡ scope_count w.now }
{
    (w[layout::SCOPE_COUNT] as usize).checked_sub(1)
}

// Where the bindings of scope k begin, as its own word has it; `first_of` of scope_find answers behind the last scope, too.
pub fn first_binding(w: &[u32], k: usize) -> usize
    requires { (16384 ≤ length w.now) × (k < 32) }
    ensures { result ≡ first_binding_word w.now k }
{
    w[layout::SCOPES + k * 4 + layout::FIRST_BINDING] as usize
}

// Where its constants begin. One read each: a field as an argument would be a number in place of a name.
pub fn first_constant(w: &[u32], k: usize) -> usize
    requires { (16384 ≤ length w.now) × (k < 32) }
    ensures { result ≡ first_constant_word w.now k }
{
    w[layout::SCOPES + k * 4 + layout::FIRST_CONSTANT] as usize
}

// The innermost binding of x, if there is one.
pub fn find_binding(w: &[u32], x: u8) -> Option<usize>
    requires { Good w.now }
    ensures place { placed result ≡ place x (heads w.now) (binds w.now) }
    ensures bound { IfSome result (λ k. k < binding_count w.now) }
{
    let n = w[layout::INDEX + usize::from(x)] as usize;
    n.checked_sub(1)
}

// The same by a walk from the current scope to the root, without the index: scope_calls sets both side by side. `find_constant` of scope_values is
// the same walk, but goes on past a constant without a value.
pub fn find_by_walk(w: &[u32], x: u8) -> Option<usize>
    requires { Good w.now }
    ensures place { placed result ≡ place x (heads w.now) (binds w.now) }
    ensures bound { IfSome result (λ k. k < binding_count w.now) }
{
    let depth = w[layout::SCOPE_COUNT] as usize;
    let mut e = w[layout::BINDING_COUNT] as usize;
    for k in (0..depth).rev() {
        let a = first_binding(w, k);
        if let Some(r) = first_at(w, layout::BINDING_TABLE, a, e, x) {
            return Some(r);
        }
        e = a;
    }
    None
}

// The innermost binding of x, if there is one, becomes defined. This and `count_one` change one word each, with a definition each.
pub fn define(w: &mut [u32], x: u8)
    requires { Good w.old }
    ensures { Becomes w.old w.new (change x defined (stack w.old)) }
{
    if let Some(k) = find_binding(w, x) {
        w[layout::BINDINGS + k * 10 + layout::UNDEFINED] = 0;
    }
}

// Counts a replacement at the innermost binding of x, if there is one (request 9).
pub fn count_one(w: &mut [u32], x: u8)
    requires { Good w.old }
    ensures { Becomes w.old w.new (change x count_one (stack w.old)) }
{
    let Some(k) = find_binding(w, x) else {
        return;
    };
    let n = w[layout::COUNTS + k];
    w[layout::COUNTS + k] = n.wrapping_add(1);
}

// The identifier that the value of binding k is, if it is one; the value begins at node at of the store.
pub fn named(w: &[u32], k: usize, at: usize) -> Option<u32>
    requires { (HasBinding w.now k) × (at ≡ off w.now k) × (at + value_len_word w.now k ≤ 512) }
    ensures { result ≡ name_of (bind_at w.now k).value }
{
    if w[layout::BINDINGS + k * 10 + layout::LENGTH] == 0 {
        return None;
    }
    let x = node_at(w, layout::VALUES, at);
    let Kind::Ident = x.kind else {
        return None;
    };
    Some(x.num)
}

// Whether binding k, whose record begins at word p, gets a mark that it has not: it has none, and x is its identifier or its value, which begins at
// node at of the store.
fn to_mark(w: &[u32], k: usize, p: usize, at: usize, x: u8) -> bool
    requires { (HasBinding w.now k) × (p ≡ binding_place k) × (at ≡ off w.now k) }
    ensures { result ≡ (not (bind_at w.now k).inline_prevented && hit_at w.now k x) }
{
    w[p + layout::PREVENTED] == 0
        && (w[p] == u32::from(x)
            || w[p + layout::LENGTH] != 0 && named(w, k, at) == Some(u32::from(x)))
}

// The bindings from k on as records, oldest first, as many as an array holds; the value of k begins at node at. An array of a fixed length, since
// there is no heap, and the words have no records to lend; past the last binding stands a record of no identifier.
fn records(w: &[u32], k: usize, at: usize) -> [Binding; 8]
    requires { (HasBinding w.now k) × (at ≡ off w.now k) }
    ensures { (length result ≡ 8) × (Window (λ b. b) w.now k result) }
{
    let n = w[layout::BINDING_COUNT] as usize;
    let e = (n - k).min(8);
    let mut bs = [Binding {
        id: 256,
        value: None,
        prevented: false,
    }; 8];
    let mut o = at;
    // By the index, which is the binding's too; over `iter_mut` the array is not named in the invariant.
    for i in 0..e {
        let j = k + i;
        bs[i] = Binding {
            id: w[layout::BINDINGS + j * 10],
            value: named(w, j, o),
            prevented: w[layout::BINDINGS + j * 10 + layout::PREVENTED] != 0,
        };
        o += w[layout::BINDINGS + j * 10 + layout::LENGTH] as usize;
    }
    bs
}

// The same records in the same array, x and its aliases among them marked; beside the pass, so that the pass keeps its registers.
#[inline(never)]
fn marks_of(w: &[u32], k: usize, at: usize, x: u8) -> [Binding; 8]
    requires { (HasBinding w.now k) × (at ≡ off w.now k) }
    ensures { Window (marked x) w.now k result }
{
    let mut bs = records(w, k, at);
    mark_all(&mut bs, u32::from(x));
    bs
}

// Marks every binding of x, and every binding whose value is x, in all scopes: one pass through the bindings, each looked at by name and by value
// together. Where a mark is missing, a window of records is made from that binding on, and marked as a lent slice. No `for`: the index moves by a
// window's length there, and elsewhere by one.
pub fn prevent_inline(w: &mut [u32], x: u8)
    requires { Good w.old }
    ensures { Becomes w.old w.new (prevent_inline x (stack w.old)) }
{
    let n = w[layout::BINDING_COUNT] as usize;
    let mut j: usize = 0;
    let mut p: usize = layout::BINDINGS;
    let mut o: usize = 0;
    // The index moves by one binding, or by a window.
    while j < n {
        let m = w[p + layout::LENGTH] as usize;
        if to_mark(w, j, p, o, x) {
            let bs = marks_of(w, j, o, x);
            let e = (n - j).min(8);
            for b in &bs[..e] {
                if b.prevented {
                    w[layout::BINDINGS + j * 10 + layout::PREVENTED] = 1;
                }
                o += w[layout::BINDINGS + j * 10 + layout::LENGTH] as usize;
                j += 1;
            }
            p = layout::BINDINGS + j * 10;
        } else {
            o += m;
            j += 1;
            p += 10;
        }
    }
}

// How many nodes the values before binding e have, if those before binding k have `at`. It goes beside k, as above in the loops, whose running sum it
// is, so that it is not added up anew; a struct of the two has no words, and could not say that `at` belongs to k.
pub fn offset_from(w: &[u32], k: usize, at: usize, e: usize) -> usize
    requires { (Good w.now) × (k ≤ e) × (e ≤ binding_count w.now) × (at ≡ off w.now k) × (at ≤ 512) }
    ensures { (result ≡ off w.now e) × (result ≤ 512) }
{
    at + sum_at(w, layout::LENGTHS, k, e)
}

// How many nodes the values before binding k have.
pub fn offset(w: &[u32], k: usize) -> usize
    requires { (Good w.now) × (k ≤ binding_count w.now) }
    ensures { (result ≡ off w.now k) × (result ≤ 512) }
{
    offset_from(w, 0, 0, k)
}

// Enters binding n, of identifier x, into the tables beside the bindings; the current scope begins at binding a. In the words 0 is none, here and in
// `restore`, as layout.rt has it.
fn enter(w: &mut [u32], n: usize, x: u8, a: usize)
    requires { (16384 ≤ length w.old) × (n < 256) }
    ensures { Entered w.old w.new n x a }
{
    let o = w[layout::INDEX + usize::from(x)];
    w[layout::SHADOWED + n] = o;
    if o as usize <= a {
        w[layout::INDEX + usize::from(x)] = (n + 1) as u32;
    }
}

// Sets the index back to what it was before the bindings from a on, the last one first.
fn restore(w: &mut [u32], a: usize)
    requires { (Good w.old) × (a ≤ binding_count w.old) }
    ensures { Restored w.old w.new a }
{
    let n = w[layout::BINDING_COUNT] as usize;
    for j in (a..n).rev() {
        let x = w[layout::BINDINGS + j * 10] as usize;
        w[layout::INDEX + x] = w[layout::SHADOWED + j];
    }
}

// What the words of record k say, whether it is a binding's or past the last.
pub fn record_at(w: &[u32], k: usize) -> Record
    requires { (16384 ≤ length w.now) × (k < 256) }
    ensures { Recorded w.now k result }
{
    let p = layout::BINDINGS + k * 10;
    Record {
        kind: VarType::from_word(w[p + layout::KIND]),
        alias: alias_from_word(w[p + layout::ALIAS]),
        reads: w[p + layout::READS],
        prevented: w[p + layout::PREVENTED] != 0,
        undefined: w[p + layout::UNDEFINED] != 0,
        this_sensitive: w[p + layout::SENSITIVE] != 0,
        hoisted: w[p + layout::HOISTED] != 0,
    }
}

// Appends a binding without a value to the innermost scope.
pub fn append_record(w: &mut [u32], id: u8, r: Record, count: u32)
    requires { (Good w.old) × (binding_count w.old + constant_count w.old < 256) × (0 < scope_count w.old) }
    ensures { (Becomes w.old w.new (append (recorded id r count) (stack w.old))) × (Past (binding_count w.old + 1) w.old w.new) × (binding_count w.new ≡ binding_count w.old + 1) × (constant_count w.new ≡ constant_count w.old) }
{
    let n = w[layout::BINDING_COUNT] as usize;
    let d = w[layout::SCOPE_COUNT] as usize - 1;
    let a = first_binding(w, d);
    enter(w, n, id, a);
    let p = layout::BINDINGS + n * 10;
    wipe(w, p, 10);
    w[p] = u32::from(id);
    put(w, p + layout::KIND, r.words());
    w[layout::COUNTS + n] = count;
    w[layout::BINDING_COUNT] = (n + 1) as u32;
}

// Appends a binding that was not read yet.
pub fn push(
    w: &mut [u32],
    id: u8,
    kind: VarType,
    alias: Option<VarType>,
    prevented: bool,
    undefined: bool,
)
    requires { (Good w.old) × (binding_count w.old + constant_count w.old < 256) × (0 < scope_count w.old) }
    ensures { Becomes w.old w.new (append (fresh id (type_of kind) (alias_of alias) prevented undefined none) (stack w.old)) }
{
    let r = Record::fresh(kind, alias, prevented, undefined);
    append_record(w, id, r, 0);
}

// Opens a scope of a kind.
pub fn open(w: &mut [u32], kind: ScopeKind)
    requires { (Good w.old) × (scope_count w.old < 32) }
    ensures { Becomes w.old w.new (new_scope (kind_of kind) ∷ stack w.old) }
{
    let d = w[layout::SCOPE_COUNT] as usize;
    let n = w[layout::BINDING_COUNT];
    let c = w[layout::CONSTANT_COUNT];
    wipe(w, layout::UNRESOLVED + d * 8, 8);
    put(w, layout::SCOPES + d * 4, [u32::from(kind), n, c, 0]);
    w[layout::SCOPE_COUNT] = (d + 1) as u32;
}

// Drops the innermost of two or more scopes with its records; what was unresolved in it is unresolved above.
pub fn drop_scope(w: &mut [u32])
    requires { (Good w.old) × (1 < scope_count w.old) }
    ensures { (Becomes w.old w.new (drop_inner (stack w.old))) × (Past 0 w.old w.new) × (binding_count w.new ≡ first_binding_word w.old (scope_count w.old - 1)) × (constant_count w.new ≤ constant_count w.old) }
{
    let d = w[layout::SCOPE_COUNT] as usize - 1;
    let n = first_binding(w, d);
    let c = first_constant(w, d);
    restore(w, n);
    merge(
        w,
        layout::UNRESOLVED + d * 8,
        layout::UNRESOLVED + (d - 1) * 8,
        8,
    );
    w[layout::BINDING_COUNT] = n as u32;
    w[layout::CONSTANT_COUNT] = c as u32;
    w[layout::SCOPE_COUNT] = d as u32;
}
