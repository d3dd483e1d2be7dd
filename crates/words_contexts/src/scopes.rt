// The scopes that a node opens: how many, what the innermost declares, and which children stand in it.
ghost use Rattle.std.specs.Prelude.{◌≡◌, ℕ, ◌&&◌, ◌||◌, ◌<◌, length};
ghost use Rattle.def_tree.specs.Base.{pick};
ghost use Rattle.def_tree.specs.Tree.{Forest, kids};
ghost use Rattle.def_file.specs.Named.{Coded, is_kind};
ghost use Rattle.def_file.specs.declared.kind.Kind.TheVariants.{Block, Script, CatchClause, Switch, FnDecl, FnExpr};
ghost use Rattle.def_pass.specs.Twice as twice;
ghost use Rattle.def_resolve.specs.Names.{bound_first};
ghost use Rattle.def_resolve.specs.Scopes as scopes;
ghost use Rattle.words.specs.Layout.{node_of, tree};
ghost use Rattle.words_nodes.specs.Nodes.{Planted, tree_from, size};
ghost use Rattle.words_resolve.specs.Names.{adds, fresh};
ghost use Rattle.words_resolve.specs.Meanings.{Inside};
ghost use Rattle.words_contexts.specs.Walk.{role_of, last_before, last_after, opens_one, outside, innermost, last_role};

use def_file::form;
use def_file::kind::Kind;
use words::{arity_at, form_at, kind_at};
use words_resolve::meanings::nested;
use words_resolve::names::{Seen, bound_first};
use words_resolve::scopes::{
    block_names, body_names, catch_names, defaults, function_names, is_named,
};

// How a block stands: with a scope of its own; in the scope of its function or catch; or as a function's body with a scope of its own.
#[derive(Clone, Copy, Debug, PartialEq, Eq)]
pub enum Role {
    Apart,
    Shared,
    Body,
}

impl Role {
    // Of trees of which the last stands so: how one stands that so many stand behind.
    pub fn before(self, behind: usize) -> Role
        ensures { role_of result ≡ last_before (role_of self) behind }
    {
        if behind == 0 { self } else { Role::Apart }
    }

    // Of trees of which the last stands so: how the last stands once one that so many stand behind has given way to its children.
    pub fn after(self, behind: usize) -> Role
        ensures { role_of result ≡ last_after (role_of self) behind }
    {
        if behind == 0 { Role::Apart } else { self }
    }

    // How many scopes a block opens.
    fn opens(self) -> usize
        ensures { (ts : Forest) → result ≡ length (scopes.opened_block (role_of self) ts) }
    {
        match self {
            Role::Shared => 0,
            _ => 1,
        }
    }
}

// A block.
fn is_block(kind: Kind) -> bool
    ensures { (k : ℕ) → Coded kind k → result ≡ is_kind Block k }
{
    matches!(kind, Kind::Block)
}

// A catch clause.
fn is_catch(kind: Kind) -> bool
    ensures { (k : ℕ) → Coded kind k → result ≡ is_kind CatchClause k }
{
    matches!(kind, Kind::CatchClause)
}

// The script.
fn is_script(kind: Kind) -> bool
    ensures { (k : ℕ) → Coded kind k → result ≡ is_kind Script k }
{
    matches!(kind, Kind::Script)
}

// A switch.
fn is_switch(kind: Kind) -> bool
    ensures { (k : ℕ) → Coded kind k → result ≡ is_kind Switch k }
{
    matches!(kind, Kind::Switch)
}

// A function that has an `arguments` of its own.
fn has_arguments(kind: Kind) -> bool
    ensures { (k : ℕ) → Coded kind k → result ≡ (is_kind FnDecl k || is_kind FnExpr k) }
{
    matches!(kind, Kind::FnDecl | Kind::FnExpr)
}

// What is no block and no function, and opens a scope.
fn opens_one(kind: Kind) -> bool
    ensures { (k : ℕ) → Coded kind k → result ≡ opens_one k }
{
    matches!(
        kind,
        Kind::Script | Kind::For | Kind::ForIn | Kind::ForOf | Kind::CatchClause | Kind::Switch
    )
}

// A function expression with a name, which has a scope just before.
fn names_itself(w: &[u32], node: usize) -> bool
    requires { (Planted w.now) × (node < size w.now) }
    ensures { result ≡ (is_kind FnExpr (node_of w.now node).kind && twice.is_named (node_of w.now node).kind (node_of w.now node).form) }
{
    match kind_at(w, node) {
        Kind::FnExpr => form_at(w, node) == form::NAMED,
        _ => false,
    }
}

// How many scopes the node opens.
pub fn opened(w: &[u32], node: usize, role: Role) -> usize
    requires { (Planted w.now) × (node < size w.now) }
    ensures { result ≡ length (scopes.opened (role_of role) (tree_from (tree w.now) node)) }
{
    let kind = kind_at(w, node);
    if is_block(kind) {
        return role.opens();
    }
    if kind.is_function() {
        return if names_itself(w, node) { 2 } else { 1 };
    }
    if opens_one(kind) { 1 } else { 0 }
}

// What the innermost scope that the node opens declares.
fn declared(w: &[u32], node: usize, role: Role) -> [Seen; 256]
    requires { (Planted w.now) × (node < size w.now) × (0 < length (scopes.opened (role_of role) (tree_from (tree w.now) node))) }
    ensures { result ≡ adds fresh (innermost (scopes.opened (role_of role) (tree_from (tree w.now) node))).names }
{
    let kind = kind_at(w, node);
    if is_block(kind) {
        return match role {
            Role::Body => body_names(w, node),
            _ => block_names(w, node),
        };
    }
    if kind.is_function() {
        return function_names(w, node);
    }
    if is_catch(kind) {
        return catch_names(w, node);
    }
    if is_script(kind) {
        return body_names(w, node);
    }
    block_names(w, node)
}

// What names mean in the innermost scope that the node opens, which has that number. Never inlined, so that no other table stands in the frame of an
// open scope.
#[inline(never)]
pub fn in_scope(
    w: &[u32],
    node: usize,
    role: Role,
    number: u16,
    table: &[u16],
    arguments: usize,
) -> [u16; 256]
    requires { (Planted w.now) × (node < size w.now) × (0 < length (scopes.opened (role_of role) (tree_from (tree w.now) node))) × (length table.now ≡ 256) }
    ensures { Inside arguments table.now number (innermost (scopes.opened (role_of role) (tree_from (tree w.now) node))) result }
{
    let seen = declared(w, node, role);
    let cut = has_arguments(kind_at(w, node));
    nested(table, &seen, number, cut, arguments)
}

// What names mean in the scope of the name of a function expression, which has that number. Never inlined, as `in_scope`.
#[inline(never)]
pub fn in_name(w: &[u32], node: usize, number: u16, table: &[u16], arguments: usize) -> [u16; 256]
    requires { (Planted w.now) × (node < size w.now) × (length table.now ≡ 256) }
    ensures { Inside arguments table.now number (scopes.scope (bound_first (kids (tree_from (tree w.now) node)))) result }
{
    let mut seen = [Seen::Never; 256];
    bound_first(w, node, &mut seen);
    nested(table, &seen, number, false, arguments)
}

// How the last child of the node stands.
pub fn last_role(w: &[u32], node: usize) -> Role
    requires { (Planted w.now) × (node < size w.now) }
    ensures { role_of result ≡ last_role (tree_from (tree w.now) node) }
{
    let kind = kind_at(w, node);
    if kind.is_function() {
        return if defaults(w, node) {
            Role::Body
        } else {
            Role::Shared
        };
    }
    if is_catch(kind) && !defaults(w, node) {
        Role::Shared
    } else {
        Role::Apart
    }
}

// How many children of the node stand outside its innermost scope: the name of a function, what a switch looks at.
pub fn outside(w: &[u32], node: usize) -> usize
    requires { (Planted w.now) × (node < size w.now) }
    ensures { result ≡ outside (node_of w.now node).kind (node_of w.now node).form (node_of w.now node).arity }
{
    if arity_at(w, node) == 0 {
        return 0;
    }
    if is_named(w, node) {
        return 1;
    }
    if is_switch(kind_at(w, node)) { 1 } else { 0 }
}
