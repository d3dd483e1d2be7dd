// What each of the 256 names means where the walk is: the number of the innermost scope that declares it, 0 where none does. `arguments` is one of
// these names, or no name where its number is 256 or above.
ghost use Rattle.std.specs.Prelude.{◌≡◌, ◌<◌, List, ℕ, length};
ghost use Rattle.def_tree.specs.Base.{pick};
ghost use Rattle.def_resolve.specs.Resolve.{Numbered};
ghost use Rattle.words.specs.Layout.{node_of, tree};
ghost use Rattle.words_nodes.specs.Nodes.{Planted, size};
ghost use Rattle.words_resolve.specs.Meanings.{OneArguments, View, Nested, context, declared};

use crate::names::Seen;
use words::{kind_at, num_at};

// Of one name: what a scope of that number makes of it; cut: what it does not declare means nothing.
fn inside(seen: Seen, number: u16, cut: bool, around: u16) -> u16
    ensures { result ≡ pick (declared seen) number (pick cut 0 around) }
{
    match seen {
        Seen::Never if cut => 0,
        Seen::Never => around,
        _ => number,
    }
}

// In a scope more, of that number, which declares what was seen; cut: `arguments`, if it does not declare it, means nothing.
pub fn nested(around: &[u16], seen: &[Seen], number: u16, cut: bool, arguments: usize) -> [u16; 256]
    requires { (length around.now ≡ 256) × (length seen.now ≡ 256) }
    ensures { Nested around.now seen.now number cut arguments result }
{
    let mut inner = [0; 256];
    for x in 0..256 {
        inner[x] = inside(seen[x], number, cut && x == arguments, around[x]);
    }
    inner
}

// The context of the node at j, if it is a name, and the number of another node.
pub fn number(w: &[u32], j: usize, table: &[u16]) -> u32
    requires { (Planted w.now) × (j < size w.now) × (length table.now ≡ 256) }
    ensures { (a : ℕ) (es : List Numbered) → OneArguments (tree w.now) a → View a table.now es → result ≡ context (node_of w.now j) es }
{
    let num = num_at(w, j);
    if kind_at(w, j).is_name() {
        u32::from(table[num as usize])
    } else {
        num
    }
}
