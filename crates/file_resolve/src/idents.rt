// How many identifiers there are, as numbered here: over 256 are refused (7). Each is told from others by one number, of its text and its context;
// these numbers stand where the words have the identifiers of the pass, which are free here.
ghost use Rattle.std.specs.Prelude.{◌≡◌, ◌≤◌, length};
ghost use Rattle.def_tree.specs.Base.{member};
ghost use Rattle.words.specs.Layout.{ident_count};
ghost use Rattle.file_resolve.specs.Check.{Shaped, read_of};
ghost use Rattle.file_resolve.specs.Idents.{Contexts, keys_of, Noted, Counted};

use def_file::kind::Kind;
use file_read::fields::node_at;
use file_read::header::Header;
use refusal::Refusal;
use words::layout;

// Is the number one of those noted. Each of them is looked at, so that several can be at once.
fn is_noted(words: &[u32], key: u32) -> bool
    requires { (16384 ≤ length words.now) × (ident_count words.now ≤ 256) }
    ensures { result ≡ member key (keys_of words.now) }
{
    let count = words[layout::IDENT_COUNT] as usize;
    let mut noted = false;
    for j in 0..count {
        noted |= words[layout::IDENTS + j] == key;
    }
    noted
}

// Notes the number if it is none of those noted; refused where 256 are.
fn note(words: &mut [u32], key: u32) -> Result<(), Refusal>
    requires { (16384 ≤ length words.old) × (ident_count words.old ≤ 256) }
    ensures { Noted words.old words.new key result }
{
    if is_noted(words, key) {
        return Ok(());
    }
    let count = words[layout::IDENT_COUNT];
    if count == 256 {
        return Err(Refusal::Idents);
    }
    words[layout::IDENTS + count as usize] = key;
    words[layout::IDENT_COUNT] = count + 1;
    Ok(())
}

// Those of all names, each noted once.
pub fn count_idents(
    file: &[u8],
    words: &mut [u32],
    contexts: &[u32],
    header: Header,
) -> Result<(), Refusal>
    requires { Shaped file.now header × Contexts (read_of file.now header) contexts.now × (16384 ≤ length words.old) }
    ensures { Counted (read_of file.now header) words.old words.new result }
{
    words[layout::IDENT_COUNT] = 0;
    for k in 0..header.nodes {
        let x = node_at(file, k);
        if Kind::from(x.kind).is_name() {
            note(words, x.text + 256 * contexts[k])?;
        }
    }
    Ok(())
}
