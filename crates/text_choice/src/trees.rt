// Trees of a file's nodes: where one ends, and how many default clauses there are among some.
ghost use Rattle.std.specs.Prelude.{◌≡◌, ◌&&◌, ◌+◌, ◌<◌, eqb, leb};
ghost use Rattle.def_tree.specs.Tree.{count};
ghost use Rattle.def_file.specs.Named.{is_kind};
ghost use Rattle.def_file.specs.declared.kind.Kind.TheVariants as kinds;
ghost use Rattle.def_text.specs.Derives.{laid_all};
ghost use Rattle.text_table.specs.Put.{default_count};
ghost use Rattle.words_twice.specs.Twice.{Stand};
ghost use Rattle.text_tokens.specs.Tokens.{node_of};
ghost use Rattle.text_choice.specs.Trees.{cores, tree_of, trees_of};

use def_file::kind::Kind;
use text_tokens::nodes::Nodes;

// The index behind the tree of node k.
pub fn skip(nodes: Nodes, k: usize) -> usize
    requires { k < nodes.header.nodes }
    ensures { result ≡ k + count (tree_of nodes.entry.file.now nodes.entry.header k) }
{
    let mut at = k;
    let mut trees: usize = 1;
    // A while: the index moves by a subtree's length.
    while 0 < trees {
        trees = trees - 1 + usize::from(nodes.node(at).arity);
        at += 1;
    }
    at
}

// A default clause.
fn is_default(nodes: Nodes, k: usize) -> bool
    requires { k < nodes.header.nodes }
    ensures { result ≡ (is_kind kinds.SwitchCase (node_of nodes.entry.file.now nodes.entry.header k).kind && eqb (node_of nodes.entry.file.now nodes.entry.header k).form 0) }
{
    let node = nodes.node(k);
    Kind::from(node.kind) == Kind::SwitchCase && node.form == 0
}

// At most one of the n trees from node k on is a default clause.
pub fn one_default(nodes: Nodes, k: usize, n: usize) -> bool
    requires { Stand (cores nodes.file.now nodes.header) k n }
    ensures { result ≡ leb (default_count (laid_all (trees_of nodes.entry.file.now nodes.entry.header n k))) 1 }
{
    let mut next = k;
    let mut defaults: usize = 0;
    for _i in 0..n {
        if is_default(nodes, next) {
            defaults += 1;
        }
        next = skip(nodes, next);
    }
    defaults <= 1
}
