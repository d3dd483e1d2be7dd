// Numbers in the order of their first use, in words that reading leaves free.
ghost use Rattle.std.specs.Prelude.{◌≡◌, ◌+◌, ◌<◌, length};
ghost use Rattle.def_canon.specs.Canon.{index_of};
ghost use Rattle.file_canon.specs.Uses.{used_at, uses_of, Holds, Noted};

use words::layout;

// Where such numbers stand: how many they are, and from the next word on two words for each, the low half first. There is room for 1,024, one for
// each node.
#[derive(Clone, Copy, Debug, PartialEq, Eq)]
pub struct Uses {
    pub base: usize,
}

impl Uses {
    // The numbers of the texts that nodes use, and the contexts of their names.
    pub const TEXTS: Uses = Uses {
        base: layout::USED_TEXTS,
    };

    pub const CONTEXTS: Uses = Uses {
        base: layout::USED_CONTEXTS,
    };

    // How many they are.
    pub fn count(self, words: &[u32]) -> usize
        requires { Holds words.now self.base }
        ensures { result ≡ length (uses_of words.now self.base) }
    {
        words[self.base] as usize
    }

    // The one at place i.
    pub fn at(self, words: &[u32], i: usize) -> u64
        requires { Holds words.now self.base × (i < 1024) }
        ensures { result ≡ used_at words.now self.base i }
    {
        let p = self.base + 1 + 2 * i;
        u64::from(words[p]) + 4294967296 * u64::from(words[p + 1])
    }

    // The place of x among them; how many they are, where it is none of them.
    pub fn place_of(self, words: &[u32], x: u64) -> usize
        requires { Holds words.now self.base }
        ensures { result ≡ index_of x (uses_of words.now self.base) }
    {
        let count = self.count(words);
        for i in 0..count {
            if self.at(words, i) == x {
                return i;
            }
        }
        count
    }

    // Puts x behind them, if a node uses it and it is none of them.
    pub fn note(self, words: &mut [u32], used: bool, x: u64)
        requires { Holds words.old self.base × (length (uses_of words.old self.base) < 1024) }
        ensures { Noted words.old words.new self.base used x }
    {
        let count = self.count(words);
        if !used || self.place_of(words, x) < count {
            return;
        }
        let p = self.base + 1 + 2 * count;
        words[p] = (x % 4294967296) as u32;
        words[p + 1] = (x / 4294967296) as u32;
        words[self.base] = (count + 1) as u32;
    }
}
