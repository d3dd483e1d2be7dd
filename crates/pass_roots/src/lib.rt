// The bindings of the root scope, oldest first: all of them, five words for each, and the one of a number.
#![tactic(auto)]

ghost use Rattle.std.specs.Prelude.{◌≡◌, ◌+◌, ◌*◌, ◌<◌, ◌≤◌, length, get_or};
ghost use Rattle.std.proofs.lemmas.List.Edits.{sets};
ghost use Rattle.words.specs.Tab.{tab};
ghost use Rattle.def_file.specs.Script.{zero_node};
ghost use Rattle.file_read.specs.Idents.{ids_of};
ghost use Rattle.def_pass.specs.Walk.{root_marks};
ghost use Rattle.words_scopes.specs.State.{Good, stack};
ghost use Rattle.pass_roots.specs.Listing.{Known, marks_to, root_at, given, words_of, root_list, roots_in, in_room, WroteRoots};
ghost use Rattle.pass_roots.specs.Nth.{nth, nth_is};

use def_file::Raw;
use file_read::fields::node_at;
use refusal::Refusal;
use words::{layout, put};

// A root binding: its text number, its context, its own prevented mark, and how often an identifier was replaced by its value.
#[derive(Clone, Copy, Debug, PartialEq, Eq)]
pub struct Root {
    pub text: u32,
    pub context: u64,
    pub prevented: bool,
    pub count: u32,
}

// One binding's words: text number, context's low and high half, mark, count. The halves are a remainder and a quotient, since a cast asks that
// the number fits.
impl From<Root> for [u32; 5] {
    ghost from_gives = { λ b a. a ≡ words_of b };

    fn from(root: Root) -> [u32; 5] {
        [
            root.text,
            (root.context % 4294967296) as u32,
            (root.context / 4294967296) as u32,
            u32::from(root.prevented),
            root.count,
        ]
    }
}

// How many bindings the root has: those before the second scope's.
fn root_count(w: &[u32]) -> usize
    requires { Good w.now }
    ensures { (root_marks (stack w.now) ≡ marks_to w.now result) × (result ≤ 256) }
{
    if w[layout::SCOPE_COUNT] <= 1 {
        return w[layout::BINDING_COUNT] as usize;
    }
    w[layout::INNER_FIRST] as usize
}

// A file that was read, and the words of the pass over it.
#[derive(Clone, Copy, Debug, PartialEq, Eq)]
struct Passed<'a> {
    file: &'a [u8],
    words: &'a [u32],
    ghost known: { Known file.now words.now },
}

impl Passed<'_> {
    // Identifier i, by the first node that has it; the number 0 where there is none. Every entry names a node, so that none is tested here, as
    // `ident_in` of `file_write` does, which asks for less.
    fn ident(self, i: usize) -> Raw
        ensures { result ≡ get_or (ids_of self.entry.file.now self.entry.words.now) i zero_node }
    {
        if self.words[layout::IDENT_COUNT] as usize <= i {
            return Raw::ZERO;
        }
        let m = self.words[layout::IDENTS + i] as usize;
        node_at(self.file, m - 1)
    }

    // Binding k.
    fn read_root(self, k: usize) -> Root
        requires { k < 256 }
        ensures { result ≡ given (root_at self.entry.file.now self.entry.words.now k) }
    {
        let x = self.ident(self.words[layout::BINDINGS + k * 10] as usize);
        Root {
            text: x.text,
            context: x.bits,
            prevented: self.words[layout::BINDINGS + k * 10 + layout::PREVENTED] != 0,
            count: self.words[layout::COUNTS + k],
        }
    }

    // The first n bindings.
    fn put_roots(self, roots: &mut [u32], n: usize)
        requires { (n ≤ 256) × (5 * n ≤ length roots.old) }
        ensures { roots.new ≡ sets roots.old 0 (root_list (tab n (λ k. root_at self.entry.file.now self.entry.words.now k))) }
    {
        for k in 0..n {
            let root = self.read_root(k);
            put(roots, 5 * k, <[u32; 5]>::from(root));
        }
    }
}

// All bindings of the root, or row 10; how many there are.
pub fn write_roots(file: &[u8], words: &[u32], roots: &mut [u32]) -> Result<usize, Refusal>
    requires { Good words.now × Known file.now words.now }
    ensures { WroteRoots roots.old roots.new (in_room (length roots.old) (roots_in file.now words.now)) result }
{
    let n = root_count(words);
    if roots.len() < 5 * n {
        return Err(Refusal::Buffer);
    }
    Passed { file, words }.put_roots(roots, n);
    Ok(n)
}

// The n-th binding of the root, from 0, as its list stands.
pub fn root_at(file: &[u8], words: &[u32], n: usize) -> Option<Root>
    requires { Good words.now × Known file.now words.now }
    ensures { result ≡ nth_is (nth n (roots_in file.now words.now)) }
{
    if root_count(words) <= n {
        return None;
    }
    Some(Passed { file, words }.read_root(n))
}
