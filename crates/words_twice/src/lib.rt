// Request 3: the bindings of the identifiers that a function or the script itself declares more than once by `var`, where one initialiser is no
// literal, flagged in the tree as read. Each function, and the script, is scanned once for what it declares, and its bindings are looked up in what
// was found. n, i: n trees from node i on, of which each loop changes both; seen: how each of the 256 identifiers is declared.
#![tactic(auto)]

ghost use Rattle.std.specs.Prelude.{◌≡◌, ℕ, Bool, ◌+◌, ◌<◌, ◌++◌, [], ◌∷◌, length, get_or, set};
ghost use Rattle.def_tree.specs.Base.{pick};
ghost use Rattle.def_tree.specs.Tree.{no_core, kids, counts};
ghost use Rattle.def_file.specs.Named.{Coded};
ghost use Rattle.def_pass.specs.Twice.{declarator, declarators, vars_f, twice};
ghost use Rattle.laws_flat.specs.PassF.{flagged_l};
ghost use Rattle.words.specs.Layout.{node_of, tree};
ghost use Rattle.words_nodes.specs.Nodes.{Planted, Replants, tree_from, forest_from, size};
ghost use Rattle.words_twice.specs.Twice.{next, Declares, Tells, is_binding, named, is_costly, own, outside, Stand, Plain, flag_node, flagged_from};

use def_file::form;
use def_file::kind::Kind;
use words::{Node, arity_at, form_at, kind_at, layout, node_at, num_at, put_node};
use words_nodes::skip;

// How often an identifier is declared; costly: one of its initialisers is no literal.
#[derive(Clone, Copy, Debug, PartialEq, Eq)]
enum Seen {
    Never,
    Once,
    OnceCostly,
    Again,
    AgainCostly,
}

impl Seen {
    // One declaration more; costly: its initialiser is no literal.
    fn once_more(self, costly: bool) -> Seen
        ensures { result ≡ next self costly }
    {
        match self {
            Seen::Never if costly => Seen::OnceCostly,
            Seen::Never => Seen::Once,
            Seen::Once | Seen::Again if !costly => Seen::Again,
            _ => Seen::AgainCostly,
        }
    }
}

// How many of the c children of a function stand outside it: its name, if it has one.
fn outside(kind: Kind, f: u32, c: usize) -> usize
    ensures { (k : ℕ) → Coded kind k → result ≡ outside k f c }
{
    match kind {
        Kind::FnDecl if 0 < c => 1,
        Kind::FnExpr if 0 < c && f == form::NAMED => 1,
        _ => 0,
    }
}

// The node at j declares, if it is a binding.
#[tactic(auto, using(crate::proofs::Looks::below))]
fn name(w: &[u32], j: usize, costly: bool, seen: &mut [Seen])
    requires { (Planted w.now) × (j < size w.now) × (length seen.old ≡ 256) }
    ensures { Declares seen.old seen.new (λ x. pick (is_binding x (node_of w.now j)) (costly ∷ []) []) }
{
    if let Kind::BindingIdent = kind_at(w, j) {
        let so_far = &mut seen[num_at(w, j) as usize];
        *so_far = so_far.once_more(costly);
    }
}

// What the n trees from i on bind, as the parameters of a function do, or the name of a declarator. What is no pattern is passed over.
fn names(w: &[u32], i: usize, n: usize, costly: bool, seen: &mut [Seen])
    requires { (Planted w.now) × (Stand (tree w.now) i n) × (length seen.old ≡ 256) }
    ensures { Declares seen.old seen.new (λ x. named costly x (forest_from (tree w.now) n i)) }
{
    let mut at = i;
    let mut more = n;
    // A while: the index moves by a subtree's length.
    while 0 < more {
        if kind_at(w, at).in_pattern() {
            more = more - 1 + arity_at(w, at) as usize;
            at += 1;
        } else {
            name(w, at, costly, seen);
            // The last tree is not passed over: a function's is its body.
            if more == 1 {
                return;
            }
            at = skip(w, at);
            more -= 1;
        }
    }
}

// Has the declarator at j an initialiser that is no literal. That of a pattern is no literal.
fn is_costly(w: &[u32], j: usize) -> bool
    requires { (Planted w.now) × (j < size w.now) }
    ensures { result ≡ is_costly (kids (tree_from (tree w.now) j)) }
{
    if arity_at(w, j) < 2 {
        return false;
    }
    if kind_at(w, j + 1).is_pattern() {
        return true;
    }
    !matches!(kind_at(w, skip(w, j + 1)), Kind::LITERAL)
}

// What the declarator at j declares.
fn declares(w: &[u32], j: usize, seen: &mut [Seen])
    requires { (Planted w.now) × (j < size w.now) × (length seen.old ≡ 256) }
    ensures { Declares seen.old seen.new (λ x. declarator x (kids (tree_from (tree w.now) j))) }
{
    if 0 < arity_at(w, j) {
        names(w, j + 1, 1, is_costly(w, j), seen);
    }
}

// What the n declarators from i on declare.
fn declarators(w: &[u32], i: usize, n: usize, seen: &mut [Seen])
    requires { (Planted w.now) × (Stand (tree w.now) i n) × (length seen.old ≡ 256) }
    ensures { Declares seen.old seen.new (λ x. declarators x (forest_from (tree w.now) n i)) }
{
    let mut at = i;
    for _k in 0..n {
        declares(w, at, seen);
        at = skip(w, at);
    }
}

// What the declarators of the node at j declare, if it is a `var`.
fn var_at(w: &[u32], j: usize, seen: &mut [Seen])
    requires { (Planted w.now) × (j < size w.now) × (length seen.old ≡ 256) }
    ensures { Declares seen.old seen.new (λ x. own x (tree_from (tree w.now) j)) }
{
    let Kind::VarDecl = kind_at(w, j) else {
        return;
    };
    if form_at(w, j) == form::VAR {
        let n = arity_at(w, j) as usize;
        declarators(w, j + 1, n, seen);
    }
}

// What declarators declare in the n trees from i on, nested functions passed over.
fn vars(w: &[u32], i: usize, n: usize, seen: &mut [Seen])
    requires { (Planted w.now) × (Stand (tree w.now) i n) × (length seen.old ≡ 256) }
    ensures { Declares seen.old seen.new (λ x. vars_f x (forest_from (tree w.now) n i)) }
{
    let mut at = i;
    let mut more = n;
    // A while: the index moves by a subtree's length.
    while 0 < more {
        if kind_at(w, at).is_function() {
            at = skip(w, at);
            more -= 1;
        } else {
            var_at(w, at, seen);
            more = more - 1 + arity_at(w, at) as usize;
            at += 1;
        }
    }
}

// What the n trees from i on, a function's parameters and body or the script's statements, declare.
fn declared(w: &[u32], i: usize, n: usize) -> [Seen; 256]
    requires { (Planted w.now) × (Stand (tree w.now) i n) }
    ensures { (length result ≡ 256) × Tells result (twice (forest_from (tree w.now) n i)) }
{
    let mut seen = [Seen::Never; 256];
    // A parameter has no initialiser: a default is none.
    names(w, i, n, false, &mut seen);
    vars(w, i, n, &mut seen);
    seen
}

// The node at j, if it is a binding of what is declared twice, is flagged on its form.
fn flag_node(w: &mut [u32], j: usize, seen: &[Seen])
    requires { (Planted w.old) × (j < size w.old) × (Plain (tree w.old) j) × (length seen.now ≡ 256) }
    ensures { (b : ℕ → Bool) → Tells seen.now b → Replants w.old w.new (set (tree w.old) j (flag_node b (get_or (tree w.old) j no_core))) }
{
    let x = node_at(w, layout::NODES, j);
    let Kind::BindingIdent = x.kind else {
        return;
    };
    if let Seen::AgainCostly = seen[x.num as usize] {
        let flagged = Node {
            form: x.form + form::TWICE,
            ..x
        };
        put_node(w, j, flagged);
    }
}

// The bindings in the n trees from i on, by what is declared around them; those in a function by what it declares itself. Gives the index behind
// them.
fn flags(w: &mut [u32], i: usize, n: usize, seen: &[Seen]) -> usize
    requires { (Planted w.old) × (Stand (tree w.old) i n) × (Plain (tree w.old) i) × (length seen.now ≡ 256) }
    ensures { (result ≡ i + counts (forest_from (tree w.old) n i)) × ((b : ℕ → Bool) → Tells seen.now b → Replants w.old w.new (flagged_from b (tree w.old) n i)) }
{
    let mut at = i;
    let mut more = n;
    // A while: the index moves by a subtree's length.
    while 0 < more {
        let k = kind_at(w, at);
        let c = arity_at(w, at) as usize;
        if k.is_function() {
            let f = form_at(w, at);
            let out = outside(k, f, c);
            let inside = flags(w, at + 1, out, seen);
            let own = declared(w, inside, c - out);
            at = flags(w, inside, c - out, &own);
            more -= 1;
        } else {
            flag_node(w, at, seen);
            more = more - 1 + c;
            at += 1;
        }
    }
    at
}

// The whole script.
pub fn flag_twice(w: &mut [u32])
    requires { (Planted w.old) × (Plain (tree w.old) 0) }
    ensures { Replants w.old w.new (flagged_l (tree w.old)) }
{
    let n = arity_at(w, 0) as usize;
    let seen = declared(w, 1, n);
    let _ = flags(w, 0, 1, &seen);
}
