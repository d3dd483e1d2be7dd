// Operations on the tree's nodes as they stand in the working words. Each contract speaks of the list of nodes. `Planted`, and that a node is one of
// the tree's, are clauses, as `Good` is in words_scopes: a node's number cannot hold the words that it is a number in.
#![tactic(auto)]

ghost use Rattle.std.specs.Prelude.{◌≡◌, ◌+◌, ◌*◌, ◌-◌, ◌≤◌, ◌<◌, length, drop};
ghost use Rattle.def_tree.specs.Tree.{count};
ghost use Rattle.def_pass.specs.Tree.{has_this, void_zero};
ghost use Rattle.words.specs.Layout.{tree, run};
ghost use Rattle.words_scopes.specs.State.{Whole};
ghost use Rattle.words_nodes.specs.Nodes.{Planted, Trees, Child, tree_from, value_from, put_at, cut_at, Measured, Swapped, Slid, Replants, size};

use def_file::form;
use def_file::kind::Kind;
use refusal::Refusal;
use words::{Node, Value, arity_at, kind_at, layout, node_at, put_node, shift};

// The index behind the subtree at i.
pub fn skip(w: &[u32], i: usize) -> usize
    requires { (Planted w.now) × (i < size w.now) }
    ensures { (result ≡ i + count (tree_from (tree w.now) i)) × (i < result) × (result ≤ size w.now) }
{
    let mut at = i;
    let mut trees: usize = 1;
    // A while: how many nodes it looks at depends on the nodes.
    while 0 < trees {
        trees = trees - 1 + arity_at(w, at) as usize;
        at += 1;
    }
    at
}

// How many nodes the subtree at i has.
pub fn tree_len(w: &[u32], i: usize) -> usize
    requires { (Planted w.now) × (i < size w.now) }
    ensures { (result ≡ count (tree_from (tree w.now) i)) × (0 < result) × (i + result ≤ size w.now) }
{
    skip(w, i) - i
}

// Does the subtree at i have a `this` outside of the functions in it.
pub fn has_this(w: &[u32], i: usize) -> bool
    requires { (Planted w.now) × (i < size w.now) }
    ensures { result ≡ has_this (tree_from (tree w.now) i) }
{
    let mut at = i;
    let mut more: usize = 1;
    // A while: the index moves by a subtree's length.
    while 0 < more {
        match kind_at(w, at) {
            Kind::This => return true,
            Kind::FnExpr | Kind::FnDecl => {
                at = skip(w, at);
                more -= 1;
            }
            _ => {
                more = more - 1 + arity_at(w, at) as usize;
                at += 1;
            }
        }
    }
    false
}

// Where the tree at node `at` of the store at word `base` ends, if it is at most `left` high. No call goes deeper than `left`.
pub fn within_height(w: &[u32], base: usize, at: usize, end: usize, left: u32) -> Option<usize>
    requires { (base + end * 2 ≤ length w.now) × (at < end) × (Trees (drop at (run w.now base 0 end))) }
    ensures { Measured result at left (tree_from (run w.now base 0 end) at) }
{
    if left == 0 {
        return None;
    }
    let n = node_at(w, base, at).arity;
    let mut j = at + 1;
    for _k in 0..n {
        j = within_height(w, base, j, end, left - 1)?;
    }
    Some(j)
}

// The nodes behind the `old` from i on move, so that there is place for m.
fn slide(w: &mut [u32], i: usize, old: usize, m: usize)
    requires { (16384 ≤ length w.old) × (size w.old ≤ 1024) × (i + old ≤ size w.old) × (size w.old + m ≤ 1024 + old) }
    ensures { Slid w.old w.new i old m }
{
    if old == m {
        return;
    }
    let n = w[layout::NODE_COUNT] as usize;
    shift(
        w,
        layout::NODES + (i + old) * 2,
        layout::NODES + (i + m) * 2,
        (n - i - old) * 2,
    );
    w[layout::NODE_COUNT] = (n + m - old) as u32;
}

// The subtree of `old` nodes at i gives way to a recorded value.
pub fn put_run(w: &mut [u32], i: usize, old: usize, v: Value)
    requires { (Planted w.old) × (i < size w.old) × (old ≡ count (tree_from (tree w.old) i)) × (size w.old + v.run.len ≤ 1024 + old) × (v.base + (v.run.at + v.run.len) * 2 ≤ length w.old) × (0 < v.run.len) × (Whole (run w.old v.base v.run.at v.run.len)) }
    ensures { Replants w.old w.new (put_at (tree w.old) i (value_from w.old v.base v.run.at v.run.len)) }
{
    let r = v.run;
    slide(w, i, old, r.len);
    shift(w, v.base + r.at * 2, layout::NODES + i * 2, r.len * 2);
}

// The subtree at i, at depth p, gives way to a recorded value, if rows 8 and 9 let it.
pub fn replace_at(w: &mut [u32], i: usize, p: u32, v: Value) -> Result<(), Refusal>
    requires { (Planted w.old) × (i < size w.old) × (p ≤ 201) × (v.base + (v.run.at + v.run.len) * 2 ≤ length w.old) × (0 < v.run.len) × (Whole (run w.old v.base v.run.at v.run.len)) }
    ensures { Swapped result w.old w.new p i (value_from w.old v.base v.run.at v.run.len) }
{
    let n = w[layout::NODE_COUNT] as usize;
    let r = v.run;
    within_height(w, v.base, r.at, r.at + r.len, 201 - p).ok_or(Refusal::Depth)?;
    let old = tree_len(w, i);
    if 1024 + old < n + r.len {
        return Err(Refusal::Room);
    }
    put_run(w, i, old, v);
    Ok(())
}

// The subtree at i, at depth p, gives way to `void 0`.
pub fn put_void(w: &mut [u32], i: usize, p: u32) -> Result<(), Refusal>
    requires { (Planted w.old) × (i < size w.old) }
    ensures { Swapped result w.old w.new p i void_zero }
{
    if 199 < p {
        return Err(Refusal::Depth);
    }
    let n = w[layout::NODE_COUNT] as usize;
    let old = tree_len(w, i);
    if 1024 + old < n + 2 {
        return Err(Refusal::Room);
    }
    slide(w, i, old, 2);
    let void = Node {
        kind: Kind::Unary,
        form: form::VOID,
        arity: 1,
        num: 0,
    };
    let zero = Node {
        kind: Kind::LITERAL,
        form: 0,
        arity: 0,
        num: 0,
    };
    put_node(w, i, void);
    put_node(w, i + 1, zero);
    Ok(())
}

// The node at i, of a subtree of `old` nodes, gives way to its second child, m nodes at j.
fn lift(w: &mut [u32], i: usize, old: usize, j: usize, m: usize)
    requires { (Planted w.old) × (Child (tree w.old) i 1 j) × (old ≡ count (tree_from (tree w.old) i)) × (m ≡ count (tree_from (tree w.old) j)) }
    ensures { Replants w.old w.new (put_at (tree w.old) i (tree_from (tree w.old) j)) }
{
    shift(w, layout::NODES + j * 2, layout::NODES + i * 2, m * 2);
    slide(w, i, old, m);
}

// The same at depth p, if row 8 lets it; row 9 does, since there are no more nodes than before.
pub fn unwrap(w: &mut [u32], i: usize, j: usize, p: u32) -> Result<(), Refusal>
    requires { (Planted w.old) × (Child (tree w.old) i 1 j) × (p ≤ 201) }
    ensures { Swapped result w.old w.new p i (tree_from (tree w.old) j) }
{
    let n = w[layout::NODE_COUNT] as usize;
    let e = within_height(w, layout::NODES, j, n, 201 - p).ok_or(Refusal::Depth)?;
    let old = tree_len(w, i);
    lift(w, i, old, j, e - j);
    Ok(())
}

// The node at q loses its second child, at i.
pub fn cut(w: &mut [u32], q: usize, i: usize)
    requires { (Planted w.old) × (Child (tree w.old) q 1 i) }
    ensures { Replants w.old w.new (cut_at (tree w.old) q i) }
{
    let old = tree_len(w, i);
    slide(w, i, old, 0);
    let x = node_at(w, layout::NODES, q);
    let left = Node {
        arity: x.arity - 1,
        ..x
    };
    put_node(w, q, left);
}
