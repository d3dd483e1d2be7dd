// Calls of the writer of canonical files: each function makes two, and its contract is the law that holds of their bytes. What holds of the pass on a written
// file is a law of its own (specs/Calls.antt).
#![tactic(auto)]

ghost use Rattle.std.specs.Prelude.{◌≡◌, ◌↔◌, ◌≤◌, leb, length};
ghost use Rattle.def_file.specs.Script.{Script};
ghost use Rattle.def_file.specs.Read.{script, read};
ghost use Rattle.def_canon.specs.Differ.{Differ};
ghost use Rattle.file_copy.specs.Copy.{WordsAre};
ghost use Rattle.canon_answers.specs.Calls.{CallIs, written, Unchanged};

use file_canon::negbosun_canon;
use file_copy::Copied;

// What a call of the writer wrote.
pub fn written_file(buffer: &[u8], answer: Copied) -> &[u8]
    requires { answer.length ≤ length buffer.now }
    ensures { result.now ≡ written answer buffer.now }
{
    &buffer[..answer.length]
}

// The answers of two calls.
#[derive(Clone, Copy, Debug, PartialEq, Eq)]
pub struct Both {
    pub one: Copied,
    pub two: Copied,
}

// Writing a written file once more, into a buffer that is long enough, changes nothing.
pub fn write_again(file: &[u8], buffer: &mut [u8], second: &mut [u8], words: &mut [u32]) -> Both
    ensures calls { CallIs file.now buffer.old buffer.new (length words.old) result.one × CallIs (written result.one buffer.new) second.old second.new (length words.old) result.two }
    ensures words { WordsAre words.old words.new (leb 16384 (length words.old)) }
    ensures again { result.one.refused ≡ 0 → result.one.length ≤ length second.old → Unchanged (written result.one buffer.new) second.old second.new result.one result.two }
{
    let one = negbosun_canon(file, buffer, words);
    let two = negbosun_canon(written_file(buffer, one), second, words);
    Both { one, two }
}

// Of two files the same bytes are written exactly when they differ only in text numbering, in unused texts, and by a one-to-one change of contexts.
pub fn write_both(
    file: &[u8],
    other: &[u8],
    buffer: &mut [u8],
    second: &mut [u8],
    words: &mut [u32],
) -> Both
    ensures calls { CallIs file.now buffer.old buffer.new (length words.old) result.one × CallIs other.now second.old second.new (length words.old) result.two }
    ensures words { WordsAre words.old words.new (leb 16384 (length words.old)) }
    ensures one_file { (a b : Script) → read file.now ≡ script a → read other.now ≡ script b → result.one.refused ≡ 0 → result.two.refused ≡ 0
        → (written result.one buffer.new ≡ written result.two second.new) ↔ Differ a b }
{
    let one = negbosun_canon(file, buffer, words);
    let two = negbosun_canon(other, second, words);
    Both { one, two }
}
