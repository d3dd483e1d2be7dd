// The walk that works out contexts, over the working words: each node's context, or, where the node is no name, its number, into an array with a place
// for each node. Each open scope has a call of `enter` or `enter_named`, with a table of what names mean in it on the stack.
#![tactic(auto)]

ghost use Rattle.std.specs.Prelude.{◌≡◌, [], ◌+◌, ◌*◌, ◌≤◌, ◌<◌, length};
ghost use Rattle.def_resolve.specs.Scopes as scopes;
ghost use Rattle.def_resolve.specs.Resolve.{resolve};
ghost use Rattle.words.specs.Layout.{tree};
ghost use Rattle.words_nodes.specs.Nodes.{Planted, tree_from, forest_from, size};
ghost use Rattle.words_twice.specs.Twice.{Stand};
ghost use Rattle.words_resolve.specs.Meanings.{OneArguments};
ghost use Rattle.words_resolve.specs.Walk.{nums, writes};
ghost use Rattle.words_contexts.specs.Walk.{role_of, Lent, Walked, Entered, Opened};

mod scopes;

use crate::scopes::{Role, in_name, in_scope, last_role, opened, outside};
use words::arity_at;
use words_resolve::meanings::number;

// Where the walk is: at a node, and before the scope of that number.
#[derive(Clone, Copy, Debug, PartialEq, Eq)]
struct Place {
    at: usize,
    next: u16,
}

// The children of the node at `from`, in the innermost scope that it opens, which has the next number.
#[inline(never)]
#[cycle(trees_enter_enter_named)]
fn enter(
    w: &[u32],
    out: &mut [u32],
    from: Place,
    role: Role,
    table: &[u16],
    arguments: usize,
) -> Place
    requires { Lent w.now out.old arguments × (length table.now ≡ 256) × (from.at < size w.now) × (from.next ≤ 2 * from.at + 2) × (0 < length (scopes.opened (role_of role) (tree_from (tree w.now) from.at))) }
    ensures { Entered arguments table.now (role_of role) (tree_from (tree w.now) from.at) from result out.old out.new }
{
    let node = from.at;
    let inner = in_scope(w, node, role, from.next, table, arguments);
    let last = last_role(w, node);
    let before = outside(w, node);
    let left = arity_at(w, node) as usize - before;
    let first = Place {
        at: node + 1,
        next: from.next + 1,
    };
    // A function's name and what a switch looks at stand outside.
    let place = trees(w, out, first, before, last.before(left), table, arguments);
    trees(w, out, place, left, last, &inner, arguments)
}

// The children of the function expression at `from`, whose name has a scope just before.
#[inline(never)]
#[cycle(trees_enter_enter_named)]
fn enter_named(
    w: &[u32],
    out: &mut [u32],
    from: Place,
    role: Role,
    table: &[u16],
    arguments: usize,
) -> Place
    requires { Lent w.now out.old arguments × (length table.now ≡ 256) × (from.at < size w.now) × (from.next ≤ 2 * from.at + 1) × (1 < length (scopes.opened (role_of role) (tree_from (tree w.now) from.at))) }
    ensures { Opened arguments table.now (role_of role) (tree_from (tree w.now) from.at) from result out.old out.new }
{
    let name = in_name(w, from.at, from.next, table, arguments);
    let own = Place {
        at: from.at,
        next: from.next + 1,
    };
    enter(w, out, own, role, &name, arguments)
}

// So many trees from `from` on, the last of which stands so.
#[cycle(trees_enter_enter_named)]
fn trees(
    w: &[u32],
    out: &mut [u32],
    from: Place,
    count: usize,
    last: Role,
    table: &[u16],
    arguments: usize,
) -> Place
    requires { Lent w.now out.old arguments × (length table.now ≡ 256) × Stand (tree w.now) from.at count × (from.next ≤ 2 * from.at + 1) }
    ensures { Walked arguments table.now (role_of last) (forest_from (tree w.now) count from.at) from result out.old out.new }
{
    let mut place = from;
    let mut more = count;
    let mut last = last;
    // A while: the index moves by a subtree's length.
    while 0 < more {
        let node = place.at;
        let role = last.before(more - 1);
        out[node] = number(w, node, table);
        match opened(w, node, role) {
            0 => {
                last = last.after(more - 1);
                more = more - 1 + arity_at(w, node) as usize;
                place.at += 1;
            }
            1 => {
                place = enter(w, out, place, role, table, arguments);
                more -= 1;
            }
            _ => {
                place = enter_named(w, out, place, role, table, arguments);
                more -= 1;
            }
        }
    }
    place
}

// The contexts of all nodes of the script, in which the name of that number is `arguments`; it is 256 or above where none is.
pub fn contexts(w: &[u32], arguments: usize, out: &mut [u32])
    requires { (Planted w.now) × (Stand (tree w.now) 0 1) × (OneArguments (tree w.now) arguments) × (length out.old ≡ 1024) }
    ensures { out.new ≡ writes out.old 0 (nums (resolve scopes.apart (tree_from (tree w.now) 0) [] 1)) }
{
    let none = [0; 256];
    let script = Place { at: 0, next: 1 };
    let _ = trees(w, out, script, 1, Role::Apart, &none, arguments);
}
