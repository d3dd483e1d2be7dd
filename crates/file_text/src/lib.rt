// A tree file as JavaScript text.
#![tactic(auto)]

ghost use Rattle.std.specs.Prelude.{◌≤◌, length};
ghost use Rattle.file_read.specs.Load.{Readable};
ghost use Rattle.file_write.specs.Written.{says};
ghost use Rattle.file_copy.specs.Copy.{numbers};
ghost use Rattle.text_tokens.specs.Tokens.{script_at};
ghost use Rattle.file_text.specs.Text.{Wrote, TextIs};

use file_copy::Copied;
use file_read::header::Header;
use file_read::read::read;
use refusal::Refusal;
use text_tokens::bytes::{measure, put_tokens};
use text_tokens::nodes::Nodes;
use text_walk::walk::Printer;
use words::clear;

// The text of a file that was read: 12 where there is none, then 11 where the buffer is shorter.
fn write(file: &[u8], text: &mut [u8], words: &mut [u32], header: Header) -> Result<usize, Refusal>
    requires { Readable file.now header.nodes header.texts × (length file.now ≤ 65536) × (16384 ≤ length words.old) }
    ensures { Wrote (script_at file.now header) text.old text.new words.old words.new result }
{
    let nodes = Nodes { file, header };
    if !(Printer { nodes }).script(words) {
        return Err(Refusal::NoText);
    }
    let count = words[0] as usize;
    let len = measure(nodes, words, count);
    if text.len() < len {
        return Err(Refusal::TextBuffer);
    }
    put_tokens(nodes, words, count, text);
    Ok(len)
}

// Refusals 1 to 7, then 12 and 11. What is written is the script's text.
pub fn text(file: &[u8], text: &mut [u8], words: &mut [u32]) -> Result<usize, Refusal>
    ensures { TextIs file.now text.old text.new words.old words.new (numbers (says result)) }
{
    let header = read(file, words)?;
    let written = write(file, text, words, header);
    clear(words);
    written
}

// `text` for C.
#[unsafe(no_mangle)]
pub extern "C" fn negbosun_text(file: &[u8], buffer: &mut [u8], words: &mut [u32]) -> Copied
    ensures { TextIs file.now buffer.old buffer.new words.old words.new result }
{
    Copied::from(text(file, buffer, words))
}
