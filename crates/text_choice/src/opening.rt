// What a node begins with as it stands, as far as something may be barred.
ghost use Rattle.std.specs.Prelude.{◌≡◌, ◌∷◌, ◌<◌};
ghost use Rattle.def_text.specs.Print as print;
ghost use Rattle.text_words.specs.Words.{word};
ghost use Rattle.text_tokens.specs.Tokens.{node_of, own_of, HasOwn};
ghost use Rattle.text_spots.specs.Spots.{next_of};
ghost use Rattle.text_parts.specs.Parts.{begin_parts, PartsFit};
ghost use Rattle.text_choice.specs.Trees.{shown, spelled};
ghost use Rattle.text_choice.specs.Choice.{barred_by, first_tokens, Opens};

use crate::parts::follow;
use def_file::kind::Kind;
use text_rows::any;
use text_table::{ALL_PARTS, Bars, PARTS, Part, ROWS, Style};
use text_tokens::nodes::Nodes;
use text_words::word::{BRACE, BRACKET, FUNCTION, LET, OF};

// What tokens begin with: `let` and `async` with the word behind them.
#[derive(Clone, Copy, Debug, PartialEq, Eq)]
pub enum Beginning {
    Other,
    Brace,
    Function,
    Let(u8),
    Async(u8),
}

// May they not begin so.
pub fn barred(bars: Bars, first: Beginning) -> bool
    ensures { result ≡ barred_by bars first }
{
    match first {
        Beginning::Other => false,
        Beginning::Brace => bars == Bars::Statement || bars == Bars::Body,
        Beginning::Function => bars == Bars::Statement,
        Beginning::Let(next) => {
            bars == Bars::Of
                || (next == BRACKET && (bars == Bars::Statement || bars == Bars::LetBracket))
        }
        Beginning::Async(next) => bars == Bars::Of && next == OF,
    }
}

// A word of the productions.
fn opening_word(w: u8, next: u8) -> Beginning
    ensures { Opens result (word w ∷ next_of next) }
{
    if w == BRACE {
        Beginning::Brace
    } else if w == FUNCTION {
        Beginning::Function
    } else if w == LET {
        Beginning::Let(next)
    } else {
        Beginning::Other
    }
}

// A text, which need not be a name.
fn opening_text(text: &[u8], next: u8) -> Beginning
    ensures { Opens result (text.now ∷ next_of next) }
{
    if text == b"{".as_slice() {
        Beginning::Brace
    } else if text == b"function".as_slice() {
        Beginning::Function
    } else if text == b"let".as_slice() {
        Beginning::Let(next)
    } else if text == b"async".as_slice() {
        Beginning::Async(next)
    } else {
        Beginning::Other
    }
}

// A node's own token: a number or a string is none of these.
fn opening_own(nodes: Nodes, k: usize, next: u8) -> Beginning
    requires { (k < nodes.header.nodes) × HasOwn nodes.file.now nodes.header k }
    ensures { Opens result (own_of nodes.entry.file.now nodes.entry.header k ∷ next_of next) }
{
    match Kind::from(nodes.node(k).kind) {
        Kind::Number | Kind::Str => Beginning::Other,
        _ => opening_text(nodes.text(k), next),
    }
}

// A first child that is a pattern.
fn opening_first(nodes: Nodes, k: usize) -> Beginning
    requires { k < nodes.header.nodes }
    ensures { Opens result (first_tokens nodes.entry.file.now nodes.entry.header k) }
{
    if nodes.node(k).arity == 0 {
        return Beginning::Other;
    }
    match Kind::from(nodes.node(k + 1).kind) {
        Kind::ObjectPat => Beginning::Brace,
        _ => Beginning::Other,
    }
}

// What the parts of a row for node k begin with, each list in which has m children.
fn opening_parts(nodes: Nodes, k: usize, parts: &[Part], m: usize, next: u8) -> Beginning
    requires { (k < nodes.header.nodes) × PartsFit (node_of nodes.file.now nodes.header k).kind parts.now }
    ensures { Opens result (begin_parts m (own_of nodes.entry.file.now nodes.entry.header k) (next_of next) (first_tokens nodes.entry.file.now nodes.entry.header k) parts.now) }
{
    for (j, part) in parts.iter().enumerate() {
        match *part {
            Part::End => return Beginning::Other,
            Part::Word(w) => return opening_word(w, follow(&parts[j + 1..], m, next)),
            Part::Own(_) => return opening_own(nodes, k, follow(&parts[j + 1..], m, next)),
            Part::Kids(kids) => match kids.style {
                Style::One => return opening_first(nodes, k),
                Style::Run | Style::Commas => {
                    if 0 < m {
                        return opening_first(nodes, k);
                    }
                }
                Style::More => {
                    if 0 < m {
                        return Beginning::Other;
                    }
                }
            },
            _ => {}
        }
    }
    Beginning::Other
}

// What the tokens of node k with that form begin with.
pub fn opening(nodes: Nodes, k: usize, form: u8, next: u8) -> Beginning
    requires { k < nodes.header.nodes }
    ensures { Opens result (print.opening (spelled nodes.entry.file.now nodes.entry.header) (shown nodes.entry.file.now nodes.entry.header k form) (next_of next)) }
{
    let node = nodes.node(k);
    let n = usize::from(node.arity);
    match any(node.kind, form, n) {
        Some(row) => opening_parts(
            nodes,
            k,
            &ALL_PARTS[row * PARTS..row * PARTS + PARTS],
            n - usize::from(ROWS[row].singles),
            next,
        ),
        None => Beginning::Other,
    }
}
