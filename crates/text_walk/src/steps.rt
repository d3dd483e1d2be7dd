// Small steps of the walk.
ghost use Rattle.std.specs.Prelude.{◌≡◌, [], ◌+◌, ◌<◌, ◌≤◌, length};
ghost use Rattle.def_tree.specs.Base.{pick};
ghost use Rattle.def_file.specs.Named.{is_kind};
ghost use Rattle.def_file.specs.declared.kind.Kind.TheVariants.{DoWhile};
ghost use Rattle.text_spots.specs.Spots.{bars_of, next_of};
ghost use Rattle.text_parts.specs.Parts.{comma, comma_before, behind_child, bars_behind, how_many};
ghost use Rattle.text_choice.specs.Trees as trees;
ghost use Rattle.text_walk.specs.Lists.{used, Pushed};
ghost use Rattle.text_walk.specs.Walk.{extra_at};

use crate::list::push;
use def_file::kind::Kind;
use text_table::{Bars, Style};
use text_tokens::nodes::Nodes;
use text_words::word::{COMMA, NOTHING};

// What a node adds to the form of a declaration that is its first child.
fn extra(kind: u8, form: u8) -> u8
    ensures { result ≡ trees.extra kind form }
{
    match Kind::from(kind) {
        Kind::For => { if form % 2 == 1 { 3 } else { 0 } }
        Kind::ForIn | Kind::ForOf => 6,
        _ => 0,
    }
}

// What node k adds to the form of a declaration at `at`, if that is its first child.
pub fn extra_at(nodes: Nodes, k: usize, at: usize) -> u8
    requires { k < nodes.header.nodes }
    ensures is { result ≡ extra_at nodes.entry.file.now nodes.entry.header k at }
    ensures few { result ≤ 6 }
{
    if at != k + 1 {
        return 0;
    }
    let node = nodes.node(k);
    extra(node.kind, node.form)
}

// A node's form where it stands, d being added to a declaration's.
pub fn form_of(kind: u8, form: u8, d: u8) -> u8
    requires { kind ≡ 5 → form + d < 256 }
    ensures { result ≡ trees.form_of kind form d }
{
    if Kind::from(kind) == Kind::VarDecl {
        form + d
    } else {
        form
    }
}

// A do-while.
pub fn is_do_while(kind: u8) -> bool
    ensures { result ≡ is_kind DoWhile kind }
{
    Kind::from(kind) == Kind::DoWhile
}

// How many children stand at a part of which a list has m.
pub fn how_many(style: Style, m: usize) -> usize
    ensures { result ≡ how_many style m }
{
    if style == Style::One { 1 } else { m }
}

// Does a comma stand before a child of a list.
fn comma_before(style: Style, first: bool) -> bool
    ensures { comma_before style first ≡ pick result comma [] }
{
    match style {
        Style::More => true,
        Style::Commas => !first,
        _ => false,
    }
}

// The comma before a child of a list; what is barred behind it.
pub fn put_comma(words: &mut [u32], nodes: Nodes, style: Style, first: bool, bars: Bars) -> Bars
    requires { (16384 ≤ length words.old) × (used words.old < 16383) }
    ensures bars { bars_of result ≡ bars_behind (comma_before style first) (bars_of bars) }
    ensures pushed { Pushed nodes.entry.file.now nodes.entry.header words.old words.new (comma_before style first) }
    ensures few { used words.new ≤ used words.old + 1 }
{
    if !comma_before(style, first) {
        return bars;
    }
    push(words, u32::from(COMMA));
    Bars::Nothing
}

// The word behind a child that so many others of its list stand behind.
pub fn behind_child(style: Style, left: usize, last: u8) -> u8
    ensures { next_of result ≡ behind_child style left (next_of last) }
{
    if left == 0 {
        last
    } else if style == Style::Run {
        NOTHING
    } else {
        COMMA
    }
}
