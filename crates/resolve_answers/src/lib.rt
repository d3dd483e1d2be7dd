// The resolver in calls on files that differ in a known way: each function makes the calls, and its contract is the law that holds of their bytes.
#![tactic(auto)]

ghost use Rattle.std.specs.Prelude.{◌≡◌, ◌≤◌, leb, length};
ghost use Rattle.file_copy.specs.Copy.{WordsAre};
ghost use Rattle.def_file.specs.Script.{Script};
ghost use Rattle.file_resolve.specs.Resolve.{ResolveIs};
ghost use Rattle.resolve_answers.specs.Calls.{CallIs, written, IsResolved, HasReason, Unchanged, DifferInContexts, SameCall, Renamed, AlikeAnswers};

use file_copy::Copied;

// What a call of the resolver wrote.
pub fn resolved_file(buffer: &[u8], answer: Copied) -> &[u8]
    requires { answer.length ≤ length buffer.now }
    ensures { result.now ≡ written answer buffer.now }
{
    &buffer[..answer.length]
}

// In the resolved file two occurrences have one identifier exactly when they mean the same variable or are one undeclared name; and each refusal stands on
// its own condition, and no other.
pub fn resolve(file: &[u8], buffer: &mut [u8], words: &mut [u32]) -> Copied
    ensures is { ResolveIs file.now buffer.old buffer.new words.old words.new result }
    ensures variables { result.refused ≡ 0 → IsResolved file.now (written result buffer.new) }
    ensures reason { HasReason file.now buffer.old words.old result }
{
    file_resolve::negbosun_resolve(file, buffer, words)
}

// The answers of two calls.
#[derive(Clone, Copy, Debug, PartialEq, Eq)]
pub struct Both {
    pub one: Copied,
    pub two: Copied,
}

// Resolving the resolved file once more, into a buffer that is long enough, changes nothing.
pub fn resolve_again(file: &[u8], buffer: &mut [u8], second: &mut [u8], words: &mut [u32]) -> Both
    ensures calls { CallIs file.now buffer.old buffer.new (length words.old) result.one × CallIs (written result.one buffer.new) second.old second.new (length words.old) result.two }
    ensures words { WordsAre words.old words.new (leb 16384 (length words.old)) }
    ensures again { result.one.refused ≡ 0 → result.one.length ≤ length second.old → Unchanged (written result.one buffer.new) second.old second.new result.one result.two }
{
    let one = resolve(file, buffer, words);
    let two = resolve(resolved_file(buffer, one), second, words);
    Both { one, two }
}

// Two files. Contexts are never looked at: where the files differ in nothing else, answers and bytes are the same. Where their names are paired one to one,
// `arguments` only with `arguments`, the refusal is the same, but that one result may not fit its buffer.
pub fn resolve_both(
    file: &[u8],
    other: &[u8],
    buffer: &mut [u8],
    second: &mut [u8],
    words: &mut [u32],
) -> Both
    ensures calls { CallIs file.now buffer.old buffer.new (length words.old) result.one × CallIs other.now second.old second.new (length words.old) result.two }
    ensures words { WordsAre words.old words.new (leb 16384 (length words.old)) }
    ensures ignored { DifferInContexts file.now other.now → length buffer.old ≡ length second.old → SameCall buffer.new second.new result.one result.two }
    ensures renamed { (a b : Script) → Renamed file.now other.now a b → AlikeAnswers result.one result.two }
{
    let one = resolve(file, buffer, words);
    let two = resolve(other, second, words);
    Both { one, two }
}
