// The pass behind the resolver, in calls on files that differ in a known way: each function makes the calls, and its contract is the law that holds of their
// bytes.
#![tactic(auto)]

ghost use Rattle.std.specs.Prelude.{◌≡◌, leb, length};
ghost use Rattle.def_file.specs.Script.{Script};
ghost use Rattle.def_resolve.specs.Resolve.{resolved};
ghost use Rattle.pass_answers.specs.Demand.{AlikeEnds, AlikeLists};
ghost use Rattle.file_copy.specs.Copy.{WordsAre};
ghost use Rattle.resolve_answers.specs.Calls.{CallIs, written, Renamed, Elsewhere, ByNameEnds};
ghost use Rattle.resolve_pass.specs.Calls.{PassIs, ListIs};

use file_copy::Copied;
use pass::{negbosun_inline, negbosun_roots};
use pass_answers::{Inlined, Roots};
use resolve_answers::{Both, resolve, resolved_file};

// The answers of the resolver on two files, and of the pass on the two resolved files.
#[derive(Clone, Copy, Debug, PartialEq, Eq)]
pub struct Inlines {
    pub resolved: Both,
    pub one: Inlined,
    pub two: Inlined,
}

// The pass on two files whose names were paired one to one before resolving ends alike, at every run limit.
pub fn inline_both(
    file: &[u8],
    other: &[u8],
    buffer: &mut [u8],
    second: &mut [u8],
    left: &mut [u8],
    right: &mut [u8],
    words: &mut [u32],
    runs: u32,
) -> Inlines
    ensures calls { CallIs file.now buffer.old buffer.new (length words.old) result.resolved.one × CallIs other.now second.old second.new (length words.old) result.resolved.two }
    ensures passes { PassIs (written result.resolved.one buffer.new) left.old left.new runs (length words.old) result.one × PassIs (written result.resolved.two second.new) right.old right.new runs (length words.old) result.two }
    ensures words { WordsAre words.old words.new (leb 16384 (length words.old)) }
    ensures renamed { (a b : Script) → Renamed file.now other.now a b → result.resolved.one.refused ≡ 0 → result.resolved.two.refused ≡ 0
        → AlikeEnds (written result.resolved.one buffer.new) (written result.resolved.two second.new) runs (resolved a) (resolved b) result.one result.two left.old left.new right.old right.new }
{
    let first = resolve(file, buffer, words);
    let next = resolve(other, second, words);
    let one = negbosun_inline(resolved_file(buffer, first), left, words, runs);
    let two = negbosun_inline(resolved_file(second, next), right, words, runs);
    Inlines {
        resolved: Both {
            one: first,
            two: next,
        },
        one,
        two,
    }
}

// The same of their root bindings.
#[derive(Clone, Copy, Debug, PartialEq, Eq)]
pub struct Listed {
    pub resolved: Both,
    pub one: Roots,
    pub two: Roots,
}

// They come in pairs, in their order, with equal marks and counts.
pub fn roots_both(
    file: &[u8],
    other: &[u8],
    buffer: &mut [u8],
    second: &mut [u8],
    left: &mut [u32],
    right: &mut [u32],
    words: &mut [u32],
    runs: u32,
) -> Listed
    ensures calls { CallIs file.now buffer.old buffer.new (length words.old) result.resolved.one × CallIs other.now second.old second.new (length words.old) result.resolved.two }
    ensures passes { ListIs (written result.resolved.one buffer.new) left.old left.new runs (length words.old) result.one × ListIs (written result.resolved.two second.new) right.old right.new runs (length words.old) result.two }
    ensures words { WordsAre words.old words.new (leb 16384 (length words.old)) }
    ensures renamed { (a b : Script) → Renamed file.now other.now a b → result.resolved.one.refused ≡ 0 → result.resolved.two.refused ≡ 0
        → AlikeLists (resolved a) (resolved b) result.one result.two left.old left.new right.old right.new }
{
    let first = resolve(file, buffer, words);
    let next = resolve(other, second, words);
    let one = negbosun_roots(resolved_file(buffer, first), left, words, runs);
    let two = negbosun_roots(resolved_file(second, next), right, words, runs);
    Listed {
        resolved: Both {
            one: first,
            two: next,
        },
        one,
        two,
    }
}

// The answers of the resolver on a file, and of the pass on its resolved file and on one that was resolved elsewhere.
#[derive(Clone, Copy, Debug, PartialEq, Eq)]
pub struct Beside {
    pub resolved: Copied,
    pub here: Inlined,
    pub there: Inlined,
}

// Resolved elsewhere to the same variables: the four numbers are the same, and the results differ only, for each name, by a one-to-one change of contexts.
pub fn inline_elsewhere(
    file: &[u8],
    elsewhere: &[u8],
    buffer: &mut [u8],
    left: &mut [u8],
    right: &mut [u8],
    words: &mut [u32],
    runs: u32,
) -> Beside
    ensures calls { CallIs file.now buffer.old buffer.new (length words.old) result.resolved }
    ensures passes { PassIs (written result.resolved buffer.new) left.old left.new runs (length words.old) result.here × PassIs elsewhere.now right.old right.new runs (length words.old) result.there }
    ensures words { WordsAre words.old words.new (leb 16384 (length words.old)) }
    ensures elsewhere { (s b : Script) → Elsewhere file.now elsewhere.now s b → result.resolved.refused ≡ 0 → length left.old ≡ length right.old
        → ByNameEnds (resolved s) b result.here result.there left.old left.new right.old right.new }
{
    let answer = resolve(file, buffer, words);
    let here = negbosun_inline(resolved_file(buffer, answer), left, words, runs);
    let there = negbosun_inline(elsewhere, right, words, runs);
    Beside {
        resolved: answer,
        here,
        there,
    }
}

// The same of their root bindings.
#[derive(Clone, Copy, Debug, PartialEq, Eq)]
pub struct ListedBeside {
    pub resolved: Copied,
    pub here: Roots,
    pub there: Roots,
}

// They come in pairs, in their order, with equal marks and counts.
pub fn roots_elsewhere(
    file: &[u8],
    elsewhere: &[u8],
    buffer: &mut [u8],
    left: &mut [u32],
    right: &mut [u32],
    words: &mut [u32],
    runs: u32,
) -> ListedBeside
    ensures calls { CallIs file.now buffer.old buffer.new (length words.old) result.resolved }
    ensures passes { ListIs (written result.resolved buffer.new) left.old left.new runs (length words.old) result.here × ListIs elsewhere.now right.old right.new runs (length words.old) result.there }
    ensures words { WordsAre words.old words.new (leb 16384 (length words.old)) }
    ensures elsewhere { (s b : Script) → Elsewhere file.now elsewhere.now s b → result.resolved.refused ≡ 0 → AlikeLists (resolved s) b result.here result.there left.old left.new right.old right.new }
{
    let answer = resolve(file, buffer, words);
    let here = negbosun_roots(resolved_file(buffer, answer), left, words, runs);
    let there = negbosun_roots(elsewhere, right, words, runs);
    ListedBeside {
        resolved: answer,
        here,
        there,
    }
}
