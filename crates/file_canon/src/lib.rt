// The one file of a script (request 11): a tree file read, and the file of its canonical form written.
#![tactic(auto)]

mod form;
mod uses;

ghost use Rattle.std.specs.Prelude.{◌≡◌, ◌≤◌, length};
ghost use Rattle.file_write.specs.Written.{says};
ghost use Rattle.file_copy.specs.Copy.{numbers};
ghost use Rattle.file_read.specs.Child.{Room};
ghost use Rattle.file_canon.specs.Uses.{Numbered};
ghost use Rattle.file_canon.specs.Canon.{CanonIs};

use crate::form::Form;
use crate::uses::Uses;
use def_file::kind::Kind;
use file_copy::Copied;
use file_read::fields::node_at;
use file_read::read::read;
use refusal::Refusal;
use words::clear;

// The texts and the contexts of n nodes, each in the order of their first use.
fn number(file: &[u8], words: &mut [u32], n: usize)
    requires { Room file.now n × (16384 ≤ length words.old) }
    ensures { Numbered file.now words.old words.new n }
{
    words[Uses::TEXTS.base] = 0;
    words[Uses::CONTEXTS.base] = 0;
    for k in 0..n {
        let x = node_at(file, k);
        let kind = Kind::from(x.kind);
        Uses::TEXTS.note(words, kind.uses_text(), u64::from(x.text));
        Uses::CONTEXTS.note(words, kind.is_name(), x.bits);
    }
}

// Rows 1 to 7, then 16. What is written is the file of the canonical form.
pub fn canon(file: &[u8], res: &mut [u8], words: &mut [u32]) -> Result<usize, Refusal>
    ensures { CanonIs file.now res.old res.new words.old words.new (numbers (says result)) }
{
    let header = read(file, words)?;
    number(file, words, header.nodes);
    let form = Form {
        file,
        words,
        header,
    };
    let written = form.write(res);
    clear(words);
    written
}

// `canon` for C.
#[unsafe(no_mangle)]
pub extern "C" fn negbosun_canon(file: &[u8], res: &mut [u8], words: &mut [u32]) -> Copied
    ensures { CanonIs file.now res.old res.new words.old words.new result }
{
    Copied::from(canon(file, res, words))
}
