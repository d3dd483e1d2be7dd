// The whole pass over a tree file, from its bytes to the result's, as C functions.
#![tactic(auto)]

ghost use Rattle.std.specs.Prelude.{◌≡◌, true, false, length, Err};
ghost use Rattle.refusal.specs.declared.Refusal.TheVariants.{Call};
ghost use Rattle.def_under.specs.Reading.{lent};
ghost use Rattle.pass_run.specs.Inline.{FileIs};
ghost use Rattle.def_pass.specs.Entry.{enough};
ghost use Rattle.pass_answers.specs.Entry.{inlined, InlineIs};
ghost use Rattle.pass_answers.specs.Roots.{counted, bound, RootsIs, RootIs};
ghost use Rattle.pass_answers.specs.Under.{InlineUnderIs, RootsUnderIs, RootUnderIs};

use file_kinds::KINDS;
use file_write::write;
use pass_answers::{Done, Inlined, RootBinding, Roots};
use pass_roots::{Root, root_at, write_roots};
use pass_run::Ran;
use pass_run::inline::inline_file;
use refusal::Refusal;
use words::clear;

// Row 1: 1 to 16 runs, and at least 16,384 words.
fn enough(runs: u32, words: usize) -> bool
    ensures { result ≡ enough runs words }
{
    (1..=16).contains(&runs) && 16384 <= words
}

// Rows 1, 14 and 15, then 2 to 9: the pass over the file, under the table that is lent, in the words. The three functions below begin with it and end with
// `clear`: two lines that are left in each.
// One generic function with the step between them as a closure is no plainer: what a closure has captured by `&mut` is unknown behind the call, so that
// the buffer is an argument, of which `find_under` has none to lend; its contract is three clauses over a relation of the closure's `post`, for two here,
// and it is 32 lines with its calls, for 25.
fn run(file: &[u8], table: &[u8], words: &mut [u32], runs: u32) -> Result<Ran, Refusal>
    ensures refused { enough runs (length words.old) ≡ false → (result ≡ Err Call) × (words.new ≡ words.old) }
    ensures ran { enough runs (length words.old) ≡ true → FileIs (lent table.now file.now) file.now words.old words.new runs result }
{
    if !enough(runs, words.len()) {
        return Err(Refusal::Call);
    }
    inline_file(file, table, words, runs)
}

// Rows 1, 14 and 15, then 2 to 10 under the table that is lent. What is written is the result's file.
pub fn inline_under(
    file: &[u8],
    table: &[u8],
    res: &mut [u8],
    words: &mut [u32],
    runs: u32,
) -> Result<Done, Refusal>
    ensures { InlineUnderIs table.now file.now res.old res.new words.old words.new runs (inlined result) }
{
    let ran = run(file, table, words, runs)?;
    let written = write(file, words, res);
    clear(words);
    Ok(Done {
        length: written?,
        runs: ran.runs,
        changed: ran.changed,
    })
}

// The same rows, of the pass over the file. What is written are the root bindings, oldest first, five words for each: text number, context's low
// and high half, prevented mark, how often an identifier was replaced by its value. Answers how many they are.
pub fn list_under(
    file: &[u8],
    table: &[u8],
    roots: &mut [u32],
    words: &mut [u32],
    runs: u32,
) -> Result<usize, Refusal>
    ensures { RootsUnderIs table.now file.now roots.old roots.new words.old words.new runs (counted result) }
{
    run(file, table, words, runs)?;
    let written = write_roots(file, words, roots);
    clear(words);
    written
}

// The same but row 10. The answer is the n-th root binding, from 0, oldest first, or that there is none.
pub fn find_under(
    file: &[u8],
    table: &[u8],
    words: &mut [u32],
    runs: u32,
    n: u32,
) -> Result<Option<Root>, Refusal>
    ensures { RootUnderIs table.now file.now words.old words.new runs n (bound result) }
{
    run(file, table, words, runs)?;
    let root = root_at(file, words, n as usize);
    clear(words);
    Ok(root)
}

// Rows 1 to 10, under the constant table.
pub fn inline(file: &[u8], res: &mut [u8], words: &mut [u32], runs: u32) -> Result<Done, Refusal>
    ensures { InlineIs file.now res.old res.new words.old words.new runs (inlined result) }
{
    inline_under(file, &KINDS, res, words, runs)
}

// Rows 1 to 10, likewise.
pub fn list(file: &[u8], roots: &mut [u32], words: &mut [u32], runs: u32) -> Result<usize, Refusal>
    ensures { RootsIs file.now roots.old roots.new words.old words.new runs (counted result) }
{
    list_under(file, &KINDS, roots, words, runs)
}

// Rows 1 to 9, likewise.
pub fn find(file: &[u8], words: &mut [u32], runs: u32, n: u32) -> Result<Option<Root>, Refusal>
    ensures { RootIs file.now words.old words.new runs n (bound result) }
{
    find_under(file, &KINDS, words, runs, n)
}

// `inline` for C.
#[unsafe(no_mangle)]
pub extern "C" fn negbosun_inline(
    file: &[u8],
    res: &mut [u8],
    words: &mut [u32],
    runs: u32,
) -> Inlined
    ensures { InlineIs file.now res.old res.new words.old words.new runs result }
{
    Inlined::from(inline(file, res, words, runs))
}

// `list` for C.
#[unsafe(no_mangle)]
pub extern "C" fn negbosun_roots(
    file: &[u8],
    roots: &mut [u32],
    words: &mut [u32],
    runs: u32,
) -> Roots
    ensures { RootsIs file.now roots.old roots.new words.old words.new runs result }
{
    Roots::from(list(file, roots, words, runs))
}

// `find` for C.
#[unsafe(no_mangle)]
pub extern "C" fn negbosun_root(file: &[u8], words: &mut [u32], runs: u32, n: u32) -> RootBinding
    ensures { RootIs file.now words.old words.new runs n result }
{
    RootBinding::from(find(file, words, runs, n))
}

// `inline_under` for C.
#[unsafe(no_mangle)]
pub extern "C" fn negbosun_inline_under(
    file: &[u8],
    table: &[u8],
    res: &mut [u8],
    words: &mut [u32],
    runs: u32,
) -> Inlined
    ensures { InlineUnderIs table.now file.now res.old res.new words.old words.new runs result }
{
    Inlined::from(inline_under(file, table, res, words, runs))
}

// `list_under` for C.
#[unsafe(no_mangle)]
pub extern "C" fn negbosun_roots_under(
    file: &[u8],
    table: &[u8],
    roots: &mut [u32],
    words: &mut [u32],
    runs: u32,
) -> Roots
    ensures { RootsUnderIs table.now file.now roots.old roots.new words.old words.new runs result }
{
    Roots::from(list_under(file, table, roots, words, runs))
}

// `find_under` for C.
#[unsafe(no_mangle)]
pub extern "C" fn negbosun_root_under(
    file: &[u8],
    table: &[u8],
    words: &mut [u32],
    runs: u32,
    n: u32,
) -> RootBinding
    ensures { RootUnderIs table.now file.now words.old words.new runs n result }
{
    RootBinding::from(find_under(file, table, words, runs, n))
}
