// The working words: functions that copy, store, wipe, read and search them. What stands where is in layout.rt, and for contracts in
// specs/Layout.antt.
#![tactic(auto)]

ghost use Rattle.std.specs.Prelude.{◌≡◌, ◌+◌, ◌*◌, ◌/◌, ◌%◌, ◌≤◌, ◌<◌, [], ◌∷◌, ◌++◌, get_or, length};
ghost use Rattle.std.proofs.lemmas.List.Edits.{sets};
ghost use Rattle.words.specs.Layout.{yes, core_from, node_of, tree, values_base, node_count};
ghost use Rattle.def_file.specs.Named.{IsKindOf};
ghost use Rattle.words.specs.Flags.{flag_at, Flagged};
ghost use Rattle.words.specs.Moved.{Moved, Zeroed, Merged, Cleared};
ghost use Rattle.words.specs.Node.{IsNode, core_of, Packed, Apart, NodePut};
ghost use Rattle.words.specs.Place.{FirstAt};
ghost use Rattle.words.specs.Tab.{sum};

use def_file::kind::Kind;
use layout::Table;

pub mod layout;

// A node of a store: its kind, its form, how many children it has, and its number.
#[derive(Clone, Copy, Debug, PartialEq, Eq)]
pub struct Node {
    pub kind: Kind,
    pub form: u32,
    pub arity: u32,
    pub num: u32,
}

// The nodes from `at` on, `len` of them, of a store of nodes. A run of no nodes is spliced as any other, so that no call takes an Option apart.
#[derive(Clone, Copy, Debug, PartialEq, Eq)]
pub struct Run {
    pub at: usize,
    pub len: usize,
}

impl Run {
    // No nodes.
    pub const NONE: Run = Run { at: 0, len: 0 };
}

// A recorded value: the word at which its store begins, which is one of those behind the tree's nodes, and the value's nodes in it.
#[derive(Clone, Copy, Debug, PartialEq, Eq)]
pub struct Value {
    pub base: usize,
    pub run: Run,
    ghost behind: { values_base ≤ base },
}

// The kind of node k of the tree. This and the next three read one word each, where `node_at` reads both.
pub fn kind_at(w: &[u32], k: usize) -> Kind
    requires { (16384 ≤ length w.now) × (k < 1024) }
    ensures { IsKindOf (node_of w.now k).kind result }
{
    Kind::from(w[layout::NODES + k * 2] % 64)
}

// Its form.
pub fn form_at(w: &[u32], k: usize) -> u32
    requires { (16384 ≤ length w.now) × (k < 1024) }
    ensures { result ≡ (node_of w.now k).form }
{
    w[layout::NODES + k * 2] / 64 % 32
}

// How many children it has.
pub fn arity_at(w: &[u32], k: usize) -> u32
    requires { (16384 ≤ length w.now) × (k < 1024) }
    ensures { result ≡ (node_of w.now k).arity }
{
    w[layout::NODES + k * 2] / 2048 % 65536
}

// Its number.
pub fn num_at(w: &[u32], k: usize) -> u32
    requires { (16384 ≤ length w.now) × (k < 1024) }
    ensures { result ≡ (node_of w.now k).num }
{
    w[layout::NODES + k * 2 + 1]
}

// Node k of the store at word `base`.
pub fn node_at(w: &[u32], base: usize, k: usize) -> Node
    requires { base + (k + 1) * 2 ≤ length w.now }
    ensures { IsNode (core_from w.now (base + k * 2)) result }
{
    let first = w[base + k * 2];
    Node {
        kind: Kind::from(first % 64),
        form: first / 64 % 32,
        arity: first / 2048 % 65536,
        num: w[base + k * 2 + 1],
    }
}

// Stores node k of the tree.
pub fn put_node(w: &mut [u32], k: usize, x: Node)
    requires { (16384 ≤ length w.old) × (k < 1024) × Packed x }
    ensures { NodePut w.old w.new k (core_of x) }
{
    let p = layout::NODES + k * 2;
    w[p] = u32::from(x.kind) + 64 * (x.form + 32 * x.arity);
    w[p + 1] = x.num;
}

// Appends a node.
pub fn add_node(w: &mut [u32], x: Node)
    requires { (16384 ≤ length w.old) × (node_count w.old < 1024) × Packed x }
    ensures { (tree w.new ≡ tree w.old ++ (core_of x ∷ [])) × (Apart w.old w.new) }
{
    let n = w[layout::NODE_COUNT] as usize;
    put_node(w, n, x);
    w[layout::NODE_COUNT] = (n + 1) as u32;
}

// Copies n words from a to b; the two stretches may meet. This, `put` and `wipe` are names for one call of the library each, for its law in the
// contract.
pub fn shift(w: &mut [u32], a: usize, b: usize, n: usize)
    requires { (a + n ≤ length w.old) × (b + n ≤ length w.old) }
    ensures { Moved w.old w.new a b n }
{
    w.copy_within(a..a + n, b);
}

// Stores the elements of an array from p on: words, or a file's bytes.
pub fn put<T: Copy, const N: usize>(w: &mut [T], p: usize, a: [T; N])
    requires { p + N ≤ length w.old }
    ensures { w.new ≡ sets w.old p a }
{
    w[p..p + N].copy_from_slice(&a);
}

// Sets n words from p on to 0.
pub fn wipe(w: &mut [u32], p: usize, n: usize)
    requires { p + n ≤ length w.old }
    ensures { Zeroed w.old w.new p n }
{
    w[p..p + n].fill(0);
}

// Sets the first 16,384 words to 0.
pub fn clear(w: &mut [u32])
    requires { 16384 ≤ length w.old }
    ensures { Cleared w.old w.new }
{
    wipe(w, 0, 16384);
}

// Sets bits: those that word a + j has, word b + j has too, for the first n; stores in every turn, so that several turns can be done at once.
pub fn merge(w: &mut [u32], a: usize, b: usize, n: usize)
    requires { (b + n ≤ a) × (a + n ≤ length w.old) }
    ensures { Merged w.old w.new a b n }
{
    for i in 0..n {
        w[b + i] |= w[a + i];
    }
}

// Where the bit of x is in a set: the word, and which of its bits.
fn bit_of(x: u8) -> (usize, u32)
    ensures { (result.0 ≡ x / 32) × (result.1 ≡ x % 32) }
{
    (usize::from(x) / 32, u32::from(x) % 32)
}

// Whether x is in the set that stands in eight words from p on, a bit for each number.
pub fn flag_at(w: &[u32], p: usize, x: u8) -> bool
    requires { p + 8 ≤ length w.now }
    ensures { result ≡ yes (flag_at w.now p x) }
{
    let (i, k) = bit_of(x);
    (w[p + i] >> k) % 2 != 0
}

// Puts x into such a set.
pub fn set_flag(w: &mut [u32], p: usize, x: u8)
    requires { p + 8 ≤ length w.old }
    ensures { Flagged w.old w.new p x }
{
    let (i, k) = bit_of(x);
    w[p + i] |= 1 << k;
}

// The first of the places from a up to e of a table whose word is x, if there is one.
pub fn first_at(w: &[u32], t: Table, a: usize, e: usize, x: u8) -> Option<usize>
    requires { (16384 ≤ length w.now) × (a ≤ e) × (e ≤ 256) × (t.stride ≤ 10) × (t.base ≤ 8192) }
    ensures { FirstAt w.now t.base t.stride a e x result }
{
    (a..e).find(|&k| w[t.base + k * t.stride] == u32::from(x))
}

// The sum of the words of a table at the places from a up to e.
pub fn sum_at(w: &[u32], t: Table, a: usize, e: usize) -> usize
    requires { (16384 ≤ length w.now) × (a ≤ e) × (e ≤ 256) × (t.stride ≤ 10) × (t.base ≤ 8192) }
    ensures { sum (λ j. get_or w.now (t.base + j * t.stride) 0) a + result ≡ sum (λ j. get_or w.now (t.base + j * t.stride) 0) e }
{
    (a..e).map(|k| w[t.base + k * t.stride] as usize).sum()
}
