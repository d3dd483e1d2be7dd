// The whole pass over a tree file, the one file of a script, a file resolved, and a script's text, for C callers: the functions of crates/pass,
// crates/file_canon, crates/file_resolve and crates/file_text, under their names and with their promises, in an archive. What they answer are structs
// that C reads, so that a refusal and a flag are numbers in them. A static library exports what stands in its own crate, so that the functions stand
// here again.
#![tactic(auto)]

ghost use Rattle.file_canon.specs.Canon.{CanonIs};
ghost use Rattle.file_resolve.specs.Resolve.{ResolveIs};
ghost use Rattle.file_text.specs.Text.{TextIs};
ghost use Rattle.pass_answers.specs.Entry.{InlineIs};
ghost use Rattle.pass_answers.specs.Roots.{RootsIs, RootIs};
ghost use Rattle.pass_answers.specs.Under.{InlineUnderIs, RootsUnderIs, RootUnderIs};

use file_copy::Copied;
use pass_answers::{Inlined, RootBinding, Roots};

// Rows 1 to 10. What is written is the result's file.
#[unsafe(no_mangle)]
pub extern "C" fn negbosun_inline(
    file: &[u8],
    res: &mut [u8],
    words: &mut [u32],
    runs: u32,
) -> Inlined
    ensures { InlineIs file.now res.old res.new words.old words.new runs result }
{
    pass::negbosun_inline(file, res, words, runs)
}

// Rows 1 to 10, of the pass over the file. What is written are the root bindings, oldest first, five words for each: text number, context's low
// and high half, prevented mark, how often an identifier was replaced by its value.
#[unsafe(no_mangle)]
pub extern "C" fn negbosun_roots(
    file: &[u8],
    roots: &mut [u32],
    words: &mut [u32],
    runs: u32,
) -> Roots
    ensures { RootsIs file.now roots.old roots.new words.old words.new runs result }
{
    pass::negbosun_roots(file, roots, words, runs)
}

// Rows 1 to 9, of the pass over the file. The answer is the n-th root binding, from 0, oldest first, or that there is none.
#[unsafe(no_mangle)]
pub extern "C" fn negbosun_root(file: &[u8], words: &mut [u32], runs: u32, n: u32) -> RootBinding
    ensures { RootIs file.now words.old words.new runs n result }
{
    pass::negbosun_root(file, words, runs, n)
}

// Rows 1 to 10, with 14 and 15 behind 1, under the kind table that is lent. What is written is the result's file.
#[unsafe(no_mangle)]
pub extern "C" fn negbosun_inline_under(
    file: &[u8],
    table: &[u8],
    res: &mut [u8],
    words: &mut [u32],
    runs: u32,
) -> Inlined
    ensures { InlineUnderIs table.now file.now res.old res.new words.old words.new runs result }
{
    pass::negbosun_inline_under(file, table, res, words, runs)
}

// The same rows, of the pass over the file. What is written are the root bindings, as by `negbosun_roots`.
#[unsafe(no_mangle)]
pub extern "C" fn negbosun_roots_under(
    file: &[u8],
    table: &[u8],
    roots: &mut [u32],
    words: &mut [u32],
    runs: u32,
) -> Roots
    ensures { RootsUnderIs table.now file.now roots.old roots.new words.old words.new runs result }
{
    pass::negbosun_roots_under(file, table, roots, words, runs)
}

// The same but row 10, which cannot be met. The answer is the n-th root binding, as that of `negbosun_root`.
#[unsafe(no_mangle)]
pub extern "C" fn negbosun_root_under(
    file: &[u8],
    table: &[u8],
    words: &mut [u32],
    runs: u32,
    n: u32,
) -> RootBinding
    ensures { RootUnderIs table.now file.now words.old words.new runs n result }
{
    pass::negbosun_root_under(file, table, words, runs, n)
}

// Rows 1 to 7, then 16. What is written is the file of the script's canonical form.
#[unsafe(no_mangle)]
pub extern "C" fn negbosun_canon(file: &[u8], res: &mut [u8], words: &mut [u32]) -> Copied
    ensures { CanonIs file.now res.old res.new words.old words.new result }
{
    file_canon::negbosun_canon(file, res, words)
}

// Rows 1 to 6, a name declared twice (13), then rows 7 and 10. What is written is the file with the contexts that its scopes give.
#[unsafe(no_mangle)]
pub extern "C" fn negbosun_resolve(file: &[u8], res: &mut [u8], words: &mut [u32]) -> Copied
    ensures { ResolveIs file.now res.old res.new words.old words.new result }
{
    file_resolve::negbosun_resolve(file, res, words)
}

// Refusals 1 to 7, then 12 where the script has no text, then 11 where it is longer than its buffer. What is written is the script as JavaScript.
#[unsafe(no_mangle)]
pub extern "C" fn negbosun_text(file: &[u8], text: &mut [u8], words: &mut [u32]) -> Copied
    ensures { TextIs file.now text.old text.new words.old words.new result }
{
    file_text::negbosun_text(file, text, words)
}
