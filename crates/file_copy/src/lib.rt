// A tree file read and written back: the reader and the writer as one C function.
#![tactic(auto)]

ghost use Rattle.std.specs.Prelude.{◌≡◌};
ghost use Rattle.file_write.specs.Written.{says};
ghost use Rattle.file_copy.specs.Copy.{CopyIs, numbers};

use file_read::read::read;
use file_write::write;
use refusal::Refusal;
use words::clear;

// A refusal's number, or 0 and the length of what was written: numbers, since C reads it.
#[repr(C)]
#[derive(Clone, Copy, Debug, PartialEq, Eq)]
pub struct Copied {
    pub refused: u32,
    pub length: usize,
}

impl From<Result<usize, Refusal>> for Copied {
    ghost from_gives = { λ x c. c ≡ numbers (says x) };

    fn from(answer: Result<usize, Refusal>) -> Copied {
        match answer {
            Ok(length) => Copied { refused: 0, length },
            Err(refusal) => Copied {
                refused: u32::from(refusal),
                length: 0,
            },
        }
    }
}

// Rows 1 to 7, then row 10. What is written is the file itself.
pub fn copy(file: &[u8], res: &mut [u8], words: &mut [u32]) -> Result<usize, Refusal>
    ensures { CopyIs file.now res.old res.new words.old words.new (numbers (says result)) }
{
    read(file, words)?;
    let written = write(file, words, res);
    clear(words);
    written
}

// `copy` for C.
#[unsafe(no_mangle)]
pub extern "C" fn negbosun_copy(file: &[u8], res: &mut [u8], words: &mut [u32]) -> Copied
    ensures { CopyIs file.now res.old res.new words.old words.new result }
{
    Copied::from(copy(file, res, words))
}
