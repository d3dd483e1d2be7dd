// The core of a script whose contexts are passed over, into the working words: a name's number is that of its text, in the order of first use.
// Without contexts each text has one identifier, so that the words of the identifiers and of the first one of each text are used as in reading.
ghost use Rattle.std.specs.Prelude.{◌≤◌, ◌<◌, length};
ghost use Rattle.words.specs.Layout.{ident_count};
ghost use Rattle.file_read.specs.Load.{Named};
ghost use Rattle.file_resolve.specs.Check.{Shaped, read_of};
ghost use Rattle.file_resolve.specs.Load.{Entered, Told, Arguments, Loading, Step, NamesLoaded};

use def_file::kind::Kind;
use file_read::fields::node_at;
use file_read::header::Header;
use words::{Node, add_node, layout, wipe};

// No number of a text or of a name: there are at most 256 of each.
const NONE: usize = 256;

// The number of text t among the texts of names; it is put behind them where it is new.
fn name_number(words: &mut [u32], t: usize) -> u32
    requires { (16384 ≤ length words.old) × (t < 256) × (ident_count words.old ≤ 1024) }
    ensures { Entered words.old words.new t result }
{
    let known = words[layout::FIRST_OF_TEXT + t];
    if 0 < known {
        return known - 1;
    }
    let count = words[layout::IDENT_COUNT];
    words[layout::FIRST_OF_TEXT + t] = count + 1;
    words[layout::IDENT_COUNT] = count + 1;
    count
}

// Its number once all names are loaded; none where no name has the text, or t is none itself.
fn number_of(words: &[u32], t: usize) -> usize
    requires { 16384 ≤ length words.now }
    ensures { Told words.now t result }
{
    if NONE <= t {
        return NONE;
    }
    let known = words[layout::FIRST_OF_TEXT + t];
    if known == 0 {
        return NONE;
    }
    known as usize - 1
}

// The number of the text `arguments`, or none.
fn arguments_text(file: &[u8], header: Header) -> usize
    requires { Shaped file.now header }
    ensures { Arguments (read_of file.now header) result }
{
    let texts = header.places();
    for t in 0..header.texts {
        if texts.text(file, t) == b"arguments".as_slice() {
            return t;
        }
    }
    NONE
}

// Node k, a name.
fn load_name(file: &[u8], words: &mut [u32], header: Header, k: usize, arguments: usize)
    requires { Loading file.now words.old header.nodes header.texts arguments k × Named file.now k }
    ensures { Step file.now words.old words.new header.nodes header.texts k }
{
    let x = node_at(file, k);
    let t = x.text as usize;
    let num = name_number(words, t);
    let name = Node {
        kind: Kind::from(x.kind),
        form: u32::from(t == arguments),
        arity: u32::from(x.arity),
        num,
    };
    add_node(words, name);
}

// Node k.
fn load_node(file: &[u8], words: &mut [u32], header: Header, k: usize, arguments: usize)
    requires { Loading file.now words.old header.nodes header.texts arguments k }
    ensures { Step file.now words.old words.new header.nodes header.texts k }
{
    let x = node_at(file, k);
    let kind = Kind::from(x.kind);
    let num = (k + 1) as u32;
    match kind {
        Kind::Null | Kind::Bool | Kind::Number | Kind::Str => {
            let literal = Node {
                kind: Kind::LITERAL,
                form: 0,
                arity: 0,
                num,
            };
            add_node(words, literal);
        }
        Kind::BindingIdent | Kind::Ident => load_name(file, words, header, k, arguments),
        _ => {
            let other = Node {
                kind,
                form: u32::from(x.form),
                arity: u32::from(x.arity),
                num,
            };
            add_node(words, other);
        }
    }
}

// All nodes, over counts and tables that are wiped first; the number of the names `arguments`, or none.
pub fn load_names(file: &[u8], words: &mut [u32], header: Header) -> usize
    requires { Shaped file.now header × (16384 ≤ length words.old) }
    ensures { NamesLoaded file.now words.old words.new header.nodes header.texts result }
{
    wipe(words, layout::NODE_COUNT, 5);
    wipe(words, layout::INDEX, 256);
    wipe(words, layout::FIRST_OF_TEXT, 256);
    let arguments = arguments_text(file, header);
    for k in 0..header.nodes {
        load_node(file, words, header, k, arguments);
    }
    number_of(words, arguments)
}
