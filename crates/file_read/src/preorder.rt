// Row 6: the nodes fill the places that the kinds give, none missing and none left over, and a table allows each under its parent. A node's reader
// and its children's call each other, each call one deeper; the depth that is left falls from 200.
ghost use Rattle.std.specs.Prelude.{◌≡◌, ◌&&◌, ◌≤◌, get_or, [], ◌∷◌};
ghost use Rattle.def_kinds.specs.Pairs.{pairs};
ghost use Rattle.def_file.specs.declared.kind.Kind.TheVariants.{VarDeclarator};
ghost use Rattle.def_file.specs.Named.{number_of};
ghost use Rattle.def_file.specs.Kinds.{allows, row_of, form_ok, count_ok};
ghost use Rattle.def_file.specs.Script.{zero_node};
ghost use Rattle.def_file.specs.Read.{fields_ok, fills};
ghost use Rattle.file_read.specs.Child.{behind, place, root_place, nodes_of, Room, Fitting, Filled};

use crate::fields::node_at;
use def_file::Raw;
use def_file::kind::Kind;
use def_file::kinds::{Class, row_of};
use file_kinds::{KINDS, allows_under};
use refusal::Refusal;

// What was read with all below it, a binding (20, or a pattern of bindings, 45 or 46) or another node, and the index behind it. No Option and no
// Result: something was read in both cases.
#[derive(Clone, Copy, Debug, PartialEq, Eq)]
pub enum Child {
    Binding(usize),
    Other(usize),
}

impl Child {
    // The index behind it.
    fn behind(self) -> usize
        ensures { result ≡ behind self }
    {
        match self {
            Child::Binding(j) | Child::Other(j) => j,
        }
    }
}

// Unused fields are 0, and a text number is one of t.
fn fields_ok(x: Raw, t: usize) -> bool
    ensures { result ≡ fields_ok t x }
{
    let kind = Kind::from(x.kind);
    let text = x.text as usize;
    let known = if kind.uses_text() {
        text < t
    } else {
        text == 0
    };
    known && (kind.uses_bits() || x.bits == 0)
}

// A node that fills a place of a class, in a script with t texts.
fn node_ok(x: Raw, c: Class, t: usize) -> bool
    ensures { result ≡ (allows c x.kind x.arity && fields_ok t x && form_ok (row_of x.kind x.form) x.form && count_ok (row_of x.kind x.form) x.arity) }
{
    let kind = Kind::from(x.kind);
    let n = usize::from(x.arity);
    let row = row_of(kind, x.form);
    c.allows(kind, n) && fields_ok(x, t) && row.form_ok(usize::from(x.form)) && row.count_ok(n)
}

// A script of a file: its nodes, how many texts they may name, and the table that allows each under its parent.
#[derive(Clone, Copy, Debug, PartialEq, Eq)]
struct Nodes<'a> {
    file: &'a [u8],
    count: usize,
    texts: usize,
    table: &'a [u8],
    ghost room: { Room file.now count },
}

// A place is its class and the levels left, under a parent's kind: each child has others, so that a struct of them would be made anew for each.
impl Nodes<'_> {
    // The children of the node at index `at`, which fills a place of class c with `left` levels, under that parent.
    #[cycle(children_declarator_node)]
    fn children(
        self,
        at: usize,
        c: Class,
        left: usize,
        parent: Option<u8>,
    ) -> Result<Child, Refusal>
        requires { Fitting self.file.now self.count self.texts self.table.now at (place c left) parent }
        ensures { Filled self.entry.texts self.entry.table.now (nodes_of self.entry.file.now self.entry.count) (place c left) parent at result }
    {
        let x = node_at(self.file, at);
        let kind = Kind::from(x.kind);
        let row = row_of(kind, x.form);
        let count = x.arity;
        let mut next = at + 1;
        for i in 0..count {
            let class = row.child(count, i);
            let answer = self.node(next, class, left - 1, Some(x.kind))?;
            next = answer.behind();
        }
        if kind.is_binding_name() {
            Ok(Child::Binding(next))
        } else {
            Ok(Child::Other(next))
        }
    }

    // 6 declarator: 20, 45 or 46, then [e]; a first child that is no binding is refused.
    #[cycle(children_declarator_node)]
    fn declarator(
        self,
        at: usize,
        c: Class,
        left: usize,
        parent: Option<u8>,
    ) -> Result<Child, Refusal>
        requires { Fitting self.file.now self.count self.texts self.table.now at (place c left) parent × ((get_or (nodes_of self.file.now self.count) at zero_node).kind ≡ number_of VarDeclarator) }
        ensures { Filled self.entry.texts self.entry.table.now (nodes_of self.entry.file.now self.entry.count) (place c left) parent at result }
    {
        let x = node_at(self.file, at);
        let name = self.node(at + 1, Class::Name, left - 1, Some(x.kind))?;
        let Child::Binding(next) = name else {
            return Err(Refusal::Nodes);
        };
        if x.arity == 1 {
            return Ok(Child::Other(next));
        }
        let init = self.node(next, Class::Expression, left - 1, Some(x.kind))?;
        Ok(Child::Other(init.behind()))
    }

    // The node at index `at` and all below it, at a place of class c with `left` levels, under a parent of that kind, or at the script's own place. The
    // table is asked before the place is.
    #[cycle(children_declarator_node)]
    fn node(self, at: usize, c: Class, left: usize, parent: Option<u8>) -> Result<Child, Refusal>
        requires { left ≤ 200 }
        ensures { Filled self.entry.texts self.entry.table.now (nodes_of self.entry.file.now self.entry.count) (place c left) parent at result }
    {
        if self.count <= at || left == 0 {
            return Err(Refusal::Nodes);
        }
        let x = node_at(self.file, at);
        if !allows_under(self.table, parent, x.kind) {
            return Err(Refusal::Nodes);
        }
        if !node_ok(x, c, self.texts) {
            return Err(Refusal::Nodes);
        }
        match Kind::from(x.kind) {
            Kind::VarDeclarator => self.declarator(at, c, left, parent),
            _ => self.children(at, c, left, parent),
        }
    }
}

// Row 6 with a table: the n nodes are one script in preorder, against the kinds, with t texts, and the table allows each under its parent.
pub fn nodes_ok_under(file: &[u8], n: usize, t: usize, table: &[u8]) -> bool
    requires { Room file.now n }
    ensures { result ≡ (fills t (root_place ∷ []) (nodes_of file.now n) && pairs table.now (None ∷ []) (nodes_of file.now n)) }
{
    let nodes = Nodes {
        file,
        count: n,
        texts: t,
        table,
    };
    nodes
        .node(0, Class::Root, 200, None)
        .is_ok_and(|root| root.behind() == n)
}

// Row 6: the n nodes are one script in preorder, against the kinds, with t texts.
pub fn nodes_ok(file: &[u8], n: usize, t: usize) -> bool
    requires { Room file.now n }
    ensures { result ≡ fills t (root_place ∷ []) (nodes_of file.now n) }
{
    nodes_ok_under(file, n, t, &KINDS)
}
