// The names that clash in a script, over the working words: a lexical name that is declared twice in a scope, or is a var-declared name of what stands in
// it too or, in a function's body, a parameter (refusal 13 of the resolver). Nothing here calls itself: the nodes are looked at in their order, each with
// the blocks among its children, so that the tables of names stand on the stack once. n, i: n trees from node i on, of which each loop changes both.
#![tactic(auto)]

ghost use Rattle.std.specs.Prelude.{◌≡◌, ℕ, ◌<◌, ◌||◌};
ghost use Rattle.def_tree.specs.Tree.{kids};
ghost use Rattle.def_file.specs.Named.{Coded, is_kind};
ghost use Rattle.def_file.specs.declared.kind.Kind.TheVariants.{Block, CatchClause};
ghost use Rattle.def_resolve.specs.Scopes as scopes;
ghost use Rattle.words.specs.Layout.{node_of, tree};
ghost use Rattle.words_nodes.specs.Nodes.{Planted, tree_from, forest_from, size};
ghost use Rattle.words_twice.specs.Twice.{Stand};
ghost use Rattle.words_clash.specs.Clash.{counting, shares, apart_f, own_clash, block_clash, blocks_clash, node_clash, nodes_clash};

use def_file::kind::Kind;
use words::{arity_at, kind_at};
use words_nodes::skip;
use words_resolve::clash as leaf;
use words_resolve::scopes::defaults;

// Which names a node counts, that is no block.
#[derive(Clone, Copy, Debug, PartialEq, Eq)]
enum Counting {
    Function,
    Statements,
    Catch,
    Script,
    Nothing,
}

impl Counting {
    // Of a node of that kind; of a loop and of a switch are those of the statements in it.
    fn of(kind: Kind) -> Counting
        ensures { (k : ℕ) → Coded kind k → result ≡ counting k }
    {
        match kind {
            Kind::FnDecl | Kind::FnExpr | Kind::Arrow => Counting::Function,
            Kind::For | Kind::ForIn | Kind::ForOf | Kind::Switch => Counting::Statements,
            Kind::CatchClause => Counting::Catch,
            Kind::Script => Counting::Script,
            _ => Counting::Nothing,
        }
    }
}

// Do names clash in the scope of the node at j, other than a block.
fn own_clash(w: &[u32], j: usize) -> bool
    requires { (Planted w.now) × (j < size w.now) }
    ensures { result ≡ own_clash (tree_from (tree w.now) j) }
{
    match Counting::of(kind_at(w, j)) {
        Counting::Function => leaf::function_clash(w, j),
        Counting::Statements => leaf::block_clash(w, j),
        Counting::Catch => leaf::catch_clash(w, j),
        Counting::Script => leaf::script_clash(w, j),
        Counting::Nothing => false,
    }
}

fn is_block(kind: Kind) -> bool
    ensures { (k : ℕ) → Coded kind k → result ≡ is_kind Block k }
{
    matches!(kind, Kind::Block)
}

// Is the node at j a block with a scope of its own in which names clash.
fn block_clash(w: &[u32], j: usize) -> bool
    requires { (Planted w.now) × (j < size w.now) }
    ensures { result ≡ block_clash (tree_from (tree w.now) j) }
{
    is_block(kind_at(w, j)) && leaf::block_clash(w, j)
}

// Is one of the n trees from i on such a block.
fn blocks_clash(w: &[u32], i: usize, n: usize) -> bool
    requires { (Planted w.now) × (Stand (tree w.now) i n) }
    ensures { result ≡ blocks_clash (forest_from (tree w.now) n i) }
{
    let mut at = i;
    for _k in 0..n {
        if block_clash(w, at) {
            return true;
        }
        at = skip(w, at);
    }
    false
}

fn is_catch(kind: Kind) -> bool
    ensures { (k : ℕ) → Coded kind k → result ≡ is_kind CatchClause k }
{
    matches!(kind, Kind::CatchClause)
}

// Is the last child of the node at j a function's body, or the block of a catch that shares the catch's scope: it is counted with the node.
fn shares(w: &[u32], j: usize) -> bool
    requires { (Planted w.now) × (j < size w.now) }
    ensures { result ≡ shares (node_of w.now j).kind (node_of w.now j).form (kids (tree_from (tree w.now) j)) }
{
    let kind = kind_at(w, j);
    kind.is_function() || is_catch(kind) && !defaults(w, j)
}

// Do names clash in the scope of the node at j, or in that of a block among its children.
fn node_clash(w: &[u32], j: usize) -> bool
    requires { (Planted w.now) × (j < size w.now) }
    ensures { result ≡ node_clash (tree_from (tree w.now) j) }
{
    if own_clash(w, j) {
        return true;
    }
    let n = arity_at(w, j) as usize;
    if shares(w, j) {
        blocks_clash(w, j + 1, n.saturating_sub(1))
    } else {
        blocks_clash(w, j + 1, n)
    }
}

// Does some node of the n trees from i on.
fn nodes_clash(w: &[u32], i: usize, n: usize) -> bool
    requires { (Planted w.now) × (Stand (tree w.now) i n) }
    ensures { result ≡ nodes_clash (forest_from (tree w.now) n i) }
{
    let mut at = i;
    let mut more = n;
    // A while: the index moves through the nodes, and each opens its children.
    while 0 < more {
        if node_clash(w, at) {
            return true;
        }
        more = more - 1 + arity_at(w, at) as usize;
        at += 1;
    }
    false
}

// Do names clash in some scope of the script.
pub fn clashes(w: &[u32]) -> bool
    requires { (Planted w.now) × (Stand (tree w.now) 0 1) }
    ensures { result ≡ scopes.clashes scopes.apart (tree_from (tree w.now) 0) }
{
    block_clash(w, 0) || nodes_clash(w, 0, 1)
}
