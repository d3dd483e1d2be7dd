// The printer in calls, one or two: each function makes the calls, and its contract is the law that holds of their bytes.
#![tactic(auto)]

ghost use Rattle.std.specs.Prelude.{◌≡◌, leb, length};
ghost use Rattle.def_file.specs.Script.{Script};
ghost use Rattle.file_copy.specs.Copy.{WordsAre};
ghost use Rattle.file_text.specs.Text.{TextIs};
ghost use Rattle.text_answers.specs.Calls.{CallIs, written, IsText, NoneNeedless, HasReason, OneText, ButPairs, AlikeTexts};

use file_copy::Copied;

// Where the answer is a length, the bytes that were written are cut into tokens in one way, these read as the script's tree in one way, no pair of
// parentheses that was added is needless, and each stands round the smallest expression that helps. And each answer has its reason, and no other.
pub fn print(file: &[u8], buffer: &mut [u8], words: &mut [u32]) -> Copied
    ensures is { TextIs file.now buffer.old buffer.new words.old words.new result }
    ensures text { result.refused ≡ 0 → IsText file.now (written result buffer.new) }
    ensures pairs { result.refused ≡ 0 → NoneNeedless file.now (written result buffer.new) }
    ensures reason { HasReason file.now buffer.old words.old result }
{
    file_text::negbosun_text(file, buffer, words)
}

// The answers of two calls.
#[derive(Clone, Copy, Debug, PartialEq, Eq)]
pub struct Both {
    pub one: Copied,
    pub two: Copied,
}

// Two files. Where the same bytes are written for both, they have one list of tokens, which reads as the tree of each. Where the trees differ in nothing but
// kind 41, both have a text or neither has one, and the same bytes are of one tree, each pair of parentheses included.
pub fn print_both(
    file: &[u8],
    other: &[u8],
    buffer: &mut [u8],
    second: &mut [u8],
    words: &mut [u32],
) -> Both
    ensures calls { CallIs file.now buffer.old buffer.new (length words.old) result.one × CallIs other.now second.old second.new (length words.old) result.two }
    ensures words { WordsAre words.old words.new (leb 16384 (length words.old)) }
    ensures same { result.one.refused ≡ 0 → result.two.refused ≡ 0 → written result.one buffer.new ≡ written result.two second.new → OneText file.now other.now (written result.one buffer.new) }
    ensures pairs { (a b : Script) → ButPairs file.now other.now a b → AlikeTexts a b buffer.new second.new result.one result.two }
{
    let one = print(file, buffer, words);
    let two = print(other, second, words);
    Both { one, two }
}
