// A tree file resolved: read, its contexts worked out, and written with them.
#![tactic(auto)]

mod idents;
mod load;
mod write;

ghost use Rattle.std.specs.Prelude.{◌≤◌, length};
ghost use Rattle.def_resolve.specs.Entry.{read_shaped, resolve_script, resolve_read};
ghost use Rattle.file_write.specs.Written.{says};
ghost use Rattle.file_copy.specs.Copy.{numbers};
ghost use Rattle.file_resolve.specs.Check.{CheckIs, Shaped, read_of};
ghost use Rattle.file_resolve.specs.Resolve.{Resolves, ResolveIs};

use crate::idents::count_idents;
use crate::load::load_names;
use crate::write::Resolved;
use file_copy::Copied;
use file_read::header::{Header, read_header};
use file_read::preorder::nodes_ok;
use refusal::Refusal;
use words::clear;
use words_clash::clashes;
use words_contexts::contexts;

// The file is a script's: its version, counts, layout, texts and nodes are looked at (refusals 2 to 6).
fn check(file: &[u8]) -> Result<Header, Refusal>
    ensures { CheckIs file.now result }
{
    let header = read_header(file)?;
    let at = header.places();
    if !at.rising(file, header.bytes) || !at.distinct(file) {
        return Err(Refusal::Texts);
    }
    if !nodes_ok(file, header.nodes, header.texts) {
        return Err(Refusal::Nodes);
    }
    Ok(header)
}

// Names that clash (13), too many identifiers (7), or no room for the result (10), in this order; otherwise the resolved script is written.
fn resolve_script(
    file: &[u8],
    buffer: &mut [u8],
    words: &mut [u32],
    header: Header,
) -> Result<usize, Refusal>
    requires { Shaped file.now header × (16384 ≤ length words.old) }
    ensures { Resolves buffer.old buffer.new words.old words.new (resolve_script (length buffer.old) (read_of file.now header)) result }
{
    let arguments = load_names(file, words, header);
    if clashes(words) {
        return Err(Refusal::Clash);
    }
    let mut numbers = [0; 1024];
    contexts(words, arguments, &mut numbers);
    count_idents(file, words, &numbers, header)?;
    let resolved = Resolved {
        file,
        contexts: &numbers,
        header,
    };
    resolved.write(buffer)
}

// All that is refused behind the number of words, over the first 16,384 of them.
fn resolve_file(file: &[u8], buffer: &mut [u8], words: &mut [u32]) -> Result<usize, Refusal>
    requires { 16384 ≤ length words.old }
    ensures { Resolves buffer.old buffer.new words.old words.new (resolve_read (length buffer.old) (read_shaped file.now)) result }
{
    let header = check(file)?;
    resolve_script(file, buffer, words, header)
}

// Too few words (1), then what keeps the file from being read (2 to 6), names that clash (13), too many identifiers (7), and no room (10). What is written
// is the file of the resolved script.
pub fn resolve(file: &[u8], buffer: &mut [u8], words: &mut [u32]) -> Result<usize, Refusal>
    ensures { ResolveIs file.now buffer.old buffer.new words.old words.new (numbers (says result)) }
{
    if words.len() < 16384 {
        return Err(Refusal::Call);
    }
    let answer = resolve_file(file, buffer, words);
    clear(words);
    answer
}

// `resolve` for C.
#[unsafe(no_mangle)]
pub extern "C" fn negbosun_resolve(file: &[u8], buffer: &mut [u8], words: &mut [u32]) -> Copied
    ensures { ResolveIs file.now buffer.old buffer.new words.old words.new result }
{
    Copied::from(resolve(file, buffer, words))
}
