// A node's own token: its text, its number in decimal, or its string in quotes.
ghost use Rattle.std.specs.Prelude.{◌≡◌, ◌+◌, ◌≤◌, ◌<◌, length};
ghost use Rattle.number_text.specs.Put.{Puts};
ghost use Rattle.text_words.specs.Decimals.{decimal_text};
ghost use Rattle.text_tokens.specs.Tokens.{node_of, own_of, HasOwn, SortFits, own_ok};

use crate::nodes::Nodes;
use def_file::kind::Kind;
use number_text::{decimal_of, put_text, text_len};
use text_table::Sort;
use text_words::names::{is_name, is_plain, is_variable};
use text_words::quoted::{put_bytes, put_quoted, quoted_len};

// A number's text, none where it has none.
fn number_len(bits: u64) -> usize
    ensures is { result ≡ length (decimal_text bits) }
    ensures few { result ≤ 26 }
{
    match decimal_of(bits) {
        Some(x) => text_len(&x),
        None => 0,
    }
}

fn put_number(bits: u64, out: &mut [u8], at: usize) -> usize
    requires { at + length (decimal_text bits) ≤ length out.old }
    ensures { (result ≡ at + length (decimal_text bits)) × Puts out.old out.new at (decimal_text bits) }
{
    match decimal_of(bits) {
        Some(x) => put_text(out, at, &x),
        None => at,
    }
}

// How many bytes it has.
pub fn own_len(nodes: Nodes, k: usize) -> usize
    requires { (k < nodes.header.nodes) × HasOwn nodes.file.now nodes.header k }
    ensures is { result ≡ length (own_of nodes.entry.file.now nodes.entry.header k) }
    ensures few { result ≤ 131074 }
{
    let x = nodes.node(k);
    match Kind::from(x.kind) {
        Kind::Number => number_len(x.bits),
        Kind::Str => quoted_len(nodes.text(k)),
        _ => nodes.text(k).len(),
    }
}

// Writes it from `at` on; the place behind it.
pub fn put_own(nodes: Nodes, k: usize, out: &mut [u8], at: usize) -> usize
    requires { (k < nodes.header.nodes) × HasOwn nodes.file.now nodes.header k × (at + length (own_of nodes.file.now nodes.header k) ≤ length out.old) }
    ensures { (result ≡ at + length (own_of nodes.entry.file.now nodes.entry.header k)) × Puts out.old out.new at (own_of nodes.entry.file.now nodes.entry.header k) }
{
    let x = nodes.node(k);
    match Kind::from(x.kind) {
        Kind::Number => put_number(x.bits, out, at),
        Kind::Str => put_quoted(out, at, nodes.text(k)),
        _ => put_bytes(out, at, nodes.text(k)),
    }
}

// Is it what a production asks for.
pub fn own_ok(nodes: Nodes, k: usize, sort: Sort) -> bool
    requires { (k < nodes.header.nodes) × SortFits (node_of nodes.file.now nodes.header k).kind sort }
    ensures { result ≡ own_ok (own_of nodes.entry.file.now nodes.entry.header k) sort }
{
    match sort {
        Sort::Name => is_name(nodes.text(k)),
        Sort::Variable => is_variable(nodes.text(k)),
        Sort::Number => decimal_of(nodes.node(k).bits).is_some(),
        Sort::Text => is_plain(nodes.text(k)),
    }
}
