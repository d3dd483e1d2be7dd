// A tree file read and written back for C callers: the function of crates/file_copy, under its name and with its promise, in an archive. What it
// answers is a struct that C reads, so that a refusal is a number in it. A static library exports what stands in its own crate, so that the function
// stands here again.
#![tactic(auto)]

ghost use Rattle.file_copy.specs.Copy.{CopyIs};

use file_copy::Copied;

// Rows 1 to 7, then row 10. What is written is the file itself.
#[unsafe(no_mangle)]
pub extern "C" fn negbosun_copy(file: &[u8], res: &mut [u8], words: &mut [u32]) -> Copied
    ensures { CopyIs file.now res.old res.new words.old words.new result }
{
    file_copy::negbosun_copy(file, res, words)
}
