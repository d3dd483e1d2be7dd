// The bytes of a list of tokens: one blank between two tokens of a line.
ghost use Rattle.std.specs.Prelude.{◌≡◌, ◌+◌, ◌≤◌, ◌<◌, length};
ghost use Rattle.number_text.specs.Put.{Puts};
ghost use Rattle.text_tokens.specs.Tokens.{token};
ghost use Rattle.text_tokens.specs.Bytes.{Token, Listed, Tokens, codes_of, piece, rendered};

use crate::nodes::Nodes;
use crate::own::{own_len, put_own};
use text_words::quoted::put_byte;
use text_words::word::{put_word, word_len};

// The end of a line, in the list.
pub const LINE: u32 = 127;

// From here on a token is a node's own, by the node's index.
pub const OWN: u32 = 128;

// How many bytes a token has.
fn token_len(nodes: Nodes, code: u32) -> usize
    requires { Token nodes.file.now nodes.header code }
    ensures is { result ≡ length (token nodes.entry.file.now nodes.entry.header code) }
    ensures few { result ≤ 131074 }
{
    if code < OWN {
        word_len(code as usize)
    } else {
        own_len(nodes, (code - OWN) as usize)
    }
}

// Writes a token from `at` on; the place behind it.
fn put_token(nodes: Nodes, code: u32, out: &mut [u8], at: usize) -> usize
    requires { Token nodes.file.now nodes.header code × (at + length (token nodes.file.now nodes.header code) ≤ length out.old) }
    ensures { (result ≡ at + length (token nodes.entry.file.now nodes.entry.header code)) × Puts out.old out.new at (token nodes.entry.file.now nodes.entry.header code) }
{
    if code < OWN {
        put_word(code as usize, out, at)
    } else {
        put_own(nodes, (code - OWN) as usize, out, at)
    }
}

// How many bytes one of the list has, at the beginning of a line or not.
fn piece_len(nodes: Nodes, code: u32, fresh: bool) -> usize
    requires { Listed nodes.file.now nodes.header code }
    ensures is { result ≡ length (piece nodes.entry.file.now nodes.entry.header fresh code) }
    ensures few { result ≤ 131075 }
{
    if code == LINE {
        return 1;
    }
    let len = token_len(nodes, code);
    if fresh { len } else { len + 1 }
}

// Writes it from `at` on; the place behind it.
fn put_piece(nodes: Nodes, code: u32, fresh: bool, out: &mut [u8], at: usize) -> usize
    requires { Listed nodes.file.now nodes.header code × (at + length (piece nodes.file.now nodes.header fresh code) ≤ length out.old) }
    ensures { (result ≡ at + length (piece nodes.entry.file.now nodes.entry.header fresh code)) × Puts out.old out.new at (piece nodes.entry.file.now nodes.entry.header fresh code) }
{
    if code == LINE {
        return put_byte(out, at, 10);
    }
    if fresh {
        return put_token(nodes, code, out, at);
    }
    let next = put_byte(out, at, 32);
    put_token(nodes, code, out, next)
}

// How many bytes the first `count` tokens of a list have. The list begins at word 1.
pub fn measure(nodes: Nodes, words: &[u32], count: usize) -> usize
    requires { Tokens nodes.file.now nodes.header words.now count }
    ensures { result ≡ length (rendered nodes.entry.file.now nodes.entry.header (codes_of words.now count)) }
{
    let mut fresh = true;
    let mut len = 0;
    for i in 0..count {
        let code = words[1 + i];
        len += piece_len(nodes, code, fresh);
        fresh = code == LINE;
    }
    len
}

// Writes them from byte 0 on.
pub fn put_tokens(nodes: Nodes, words: &[u32], count: usize, out: &mut [u8])
    requires { Tokens nodes.file.now nodes.header words.now count × (length (rendered nodes.file.now nodes.header (codes_of words.now count)) ≤ length out.old) }
    ensures { Puts out.old out.new 0 (rendered nodes.entry.file.now nodes.entry.header (codes_of words.now count)) }
{
    let mut fresh = true;
    let mut at = 0;
    for i in 0..count {
        let code = words[1 + i];
        at = put_piece(nodes, code, fresh, out, at);
        fresh = code == LINE;
    }
}
