// Where every sequence begins: a tree to take values from, and an empty root scope.
ghost use Rattle.std.specs.Prelude.{◌<◌, ◌≤◌, List, [], ◌∷◌, ◌++◌, length};
ghost use Rattle.def_tree.specs.Tree.{Core, core};
ghost use Rattle.def_file.specs.Named.{number_of};
ghost use Rattle.words_nodes.specs.Nodes.{Planted};
ghost use Rattle.scope_calls.specs.Begun.{Begun};
ghost use Rattle.words.specs.Layout.{node_count};

use def_file::kind::Kind;
use scope::{Scope, ScopeKind, open_scope};
use words::{Node, add_node, clear};

// One more node.
fn grow(w: &mut [u32], kind: Kind, arity: u32, num: u32)
    requires { (16384 ≤ length w.old) × (node_count w.old < 1024) × (number_of kind < 64) × (arity < 65536) }
    ensures { (xs : List Core) → Begun w.old xs → Begun w.new (xs ++ (core (number_of kind) 0 arity num ∷ [])) }
{
    let x = Node {
        kind,
        form: 0,
        arity,
        num,
    };
    add_node(w, x);
}

// An array of all values: identifiers 0 and 1, a literal, a member of 0, an array of a literal and 1, a call of 2.
fn plant(w: &mut [u32])
    requires { 16384 ≤ length w.old }
    ensures { Planted w.new }
{
    clear(w);
    for (kind, arity, num) in [
        (Kind::Array, 6, 0),
        (Kind::Ident, 0, 0),
        (Kind::Ident, 0, 1),
        (Kind::LITERAL, 0, 3),
        (Kind::Member, 1, 4),
        (Kind::Ident, 0, 0),
        (Kind::Array, 2, 0),
        (Kind::LITERAL, 0, 7),
        (Kind::Ident, 0, 1),
        (Kind::Call, 1, 0),
        (Kind::Ident, 0, 2),
    ] {
        grow(w, kind, arity, num);
    }
}

pub fn begin(w: &mut [u32])
    requires { 16384 ≤ length w.old }
    ensures { Planted w.new }
{
    plant(w);
    let root = Scope::new(ScopeKind::DEFAULT);
    // No scope is open yet, so that this one is not refused.
    let _ = open_scope(w, root);
}
