// The core of a script into the working words: its nodes, and its identifiers with row 7.
ghost use Rattle.std.specs.Prelude.{◌≤◌, length};
ghost use Rattle.file_read.specs.Load.{Named, Readable, Loading, Step, Done};

use crate::fields::node_at;
use crate::header::Header;
use crate::idents::enter;
use def_file::kind::Kind;
use refusal::Refusal;
use words::{Node, add_node, layout, wipe};

// Node k, which has an identifier.
fn load_ident(file: &[u8], words: &mut [u32], h: Header, k: usize) -> Result<(), Refusal>
    requires { Loading file.now words.old h.nodes h.texts k × (Named file.now k) }
    ensures { Step file.now words.old words.new h.nodes h.texts k result }
{
    let x = node_at(file, k);
    let name = h.places().text(file, x.text as usize);
    let arguments = name == b"arguments".as_slice();
    let j = enter(file, words, h.nodes, k).ok_or(Refusal::Idents)?;
    let named = Node {
        kind: Kind::from(x.kind),
        form: u32::from(arguments),
        arity: u32::from(x.arity),
        num: j,
    };
    add_node(words, named);
    Ok(())
}

// Node k.
fn load_node(file: &[u8], words: &mut [u32], h: Header, k: usize) -> Result<(), Refusal>
    requires { Loading file.now words.old h.nodes h.texts k }
    ensures { Step file.now words.old words.new h.nodes h.texts k result }
{
    let x = node_at(file, k);
    let kind = Kind::from(x.kind);
    let num = (k + 1) as u32;
    match kind {
        Kind::Null | Kind::Bool | Kind::Number | Kind::Str => {
            let literal = Node {
                kind: Kind::LITERAL,
                form: 0,
                arity: 0,
                num,
            };
            add_node(words, literal);
        }
        Kind::BindingIdent | Kind::Ident => load_ident(file, words, h, k)?,
        _ => {
            let other = Node {
                kind,
                form: u32::from(x.form),
                arity: u32::from(x.arity),
                num,
            };
            add_node(words, other);
        }
    }
    Ok(())
}

// All n nodes of a script that passed rows 2 to 6.
pub fn load(file: &[u8], words: &mut [u32], h: Header) -> Result<(), Refusal>
    requires { Readable file.now h.nodes h.texts × (16384 ≤ length words.old) }
    ensures { Done file.now words.old words.new h.nodes h.texts result }
{
    wipe(words, layout::FIRST_OF_TEXT, 256);
    words[layout::NODE_COUNT] = 0;
    words[layout::IDENT_COUNT] = 0;
    for k in 0..h.nodes {
        load_node(file, words, h, k)?;
    }
    Ok(())
}
