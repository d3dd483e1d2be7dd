// The words of the productions, each by its number, and the reserved words.
ghost use Rattle.std.specs.Prelude.{◌≡◌, ◌+◌, ◌≤◌, ◌<◌, length};
ghost use Rattle.number_text.specs.Put.{Puts};
ghost use Rattle.text_words.specs.Words.{word};

use crate::quoted::put_bytes;

// A word of at most ten bytes; those behind it are 0.
#[derive(Clone, Copy, Debug, PartialEq, Eq)]
pub struct Word {
    pub len: u8,
    pub bytes: [u8; 10],
}

// The words of the productions.
#[rattlefmt::skip]
pub static WORDS: [Word; 85] = [
    Word { len: 1, bytes: [123, 0, 0, 0, 0, 0, 0, 0, 0, 0] },
    Word { len: 1, bytes: [125, 0, 0, 0, 0, 0, 0, 0, 0, 0] },
    Word { len: 1, bytes: [59, 0, 0, 0, 0, 0, 0, 0, 0, 0] },
    Word { len: 3, bytes: [118, 97, 114, 0, 0, 0, 0, 0, 0, 0] },
    Word { len: 3, bytes: [108, 101, 116, 0, 0, 0, 0, 0, 0, 0] },
    Word { len: 5, bytes: [99, 111, 110, 115, 116, 0, 0, 0, 0, 0] },
    Word { len: 1, bytes: [61, 0, 0, 0, 0, 0, 0, 0, 0, 0] },
    Word { len: 8, bytes: [102, 117, 110, 99, 116, 105, 111, 110, 0, 0] },
    Word { len: 1, bytes: [40, 0, 0, 0, 0, 0, 0, 0, 0, 0] },
    Word { len: 1, bytes: [41, 0, 0, 0, 0, 0, 0, 0, 0, 0] },
    Word { len: 6, bytes: [114, 101, 116, 117, 114, 110, 0, 0, 0, 0] },
    Word { len: 2, bytes: [105, 102, 0, 0, 0, 0, 0, 0, 0, 0] },
    Word { len: 4, bytes: [101, 108, 115, 101, 0, 0, 0, 0, 0, 0] },
    Word { len: 5, bytes: [119, 104, 105, 108, 101, 0, 0, 0, 0, 0] },
    Word { len: 2, bytes: [100, 111, 0, 0, 0, 0, 0, 0, 0, 0] },
    Word { len: 3, bytes: [102, 111, 114, 0, 0, 0, 0, 0, 0, 0] },
    Word { len: 2, bytes: [105, 110, 0, 0, 0, 0, 0, 0, 0, 0] },
    Word { len: 2, bytes: [111, 102, 0, 0, 0, 0, 0, 0, 0, 0] },
    Word { len: 5, bytes: [116, 104, 114, 111, 119, 0, 0, 0, 0, 0] },
    Word { len: 3, bytes: [116, 114, 121, 0, 0, 0, 0, 0, 0, 0] },
    Word { len: 7, bytes: [102, 105, 110, 97, 108, 108, 121, 0, 0, 0] },
    Word { len: 5, bytes: [99, 97, 116, 99, 104, 0, 0, 0, 0, 0] },
    Word { len: 6, bytes: [115, 119, 105, 116, 99, 104, 0, 0, 0, 0] },
    Word { len: 7, bytes: [100, 101, 102, 97, 117, 108, 116, 0, 0, 0] },
    Word { len: 1, bytes: [58, 0, 0, 0, 0, 0, 0, 0, 0, 0] },
    Word { len: 4, bytes: [99, 97, 115, 101, 0, 0, 0, 0, 0, 0] },
    Word { len: 5, bytes: [98, 114, 101, 97, 107, 0, 0, 0, 0, 0] },
    Word { len: 8, bytes: [99, 111, 110, 116, 105, 110, 117, 101, 0, 0] },
    Word { len: 4, bytes: [110, 117, 108, 108, 0, 0, 0, 0, 0, 0] },
    Word { len: 5, bytes: [102, 97, 108, 115, 101, 0, 0, 0, 0, 0] },
    Word { len: 4, bytes: [116, 114, 117, 101, 0, 0, 0, 0, 0, 0] },
    Word { len: 4, bytes: [116, 104, 105, 115, 0, 0, 0, 0, 0, 0] },
    Word { len: 1, bytes: [91, 0, 0, 0, 0, 0, 0, 0, 0, 0] },
    Word { len: 1, bytes: [93, 0, 0, 0, 0, 0, 0, 0, 0, 0] },
    Word { len: 4, bytes: [118, 111, 105, 100, 0, 0, 0, 0, 0, 0] },
    Word { len: 6, bytes: [116, 121, 112, 101, 111, 102, 0, 0, 0, 0] },
    Word { len: 1, bytes: [33, 0, 0, 0, 0, 0, 0, 0, 0, 0] },
    Word { len: 1, bytes: [45, 0, 0, 0, 0, 0, 0, 0, 0, 0] },
    Word { len: 1, bytes: [43, 0, 0, 0, 0, 0, 0, 0, 0, 0] },
    Word { len: 1, bytes: [126, 0, 0, 0, 0, 0, 0, 0, 0, 0] },
    Word { len: 6, bytes: [100, 101, 108, 101, 116, 101, 0, 0, 0, 0] },
    Word { len: 2, bytes: [43, 43, 0, 0, 0, 0, 0, 0, 0, 0] },
    Word { len: 2, bytes: [45, 45, 0, 0, 0, 0, 0, 0, 0, 0] },
    Word { len: 2, bytes: [38, 38, 0, 0, 0, 0, 0, 0, 0, 0] },
    Word { len: 2, bytes: [124, 124, 0, 0, 0, 0, 0, 0, 0, 0] },
    Word { len: 2, bytes: [61, 61, 0, 0, 0, 0, 0, 0, 0, 0] },
    Word { len: 2, bytes: [33, 61, 0, 0, 0, 0, 0, 0, 0, 0] },
    Word { len: 3, bytes: [61, 61, 61, 0, 0, 0, 0, 0, 0, 0] },
    Word { len: 3, bytes: [33, 61, 61, 0, 0, 0, 0, 0, 0, 0] },
    Word { len: 1, bytes: [60, 0, 0, 0, 0, 0, 0, 0, 0, 0] },
    Word { len: 2, bytes: [60, 61, 0, 0, 0, 0, 0, 0, 0, 0] },
    Word { len: 1, bytes: [62, 0, 0, 0, 0, 0, 0, 0, 0, 0] },
    Word { len: 2, bytes: [62, 61, 0, 0, 0, 0, 0, 0, 0, 0] },
    Word { len: 2, bytes: [60, 60, 0, 0, 0, 0, 0, 0, 0, 0] },
    Word { len: 2, bytes: [62, 62, 0, 0, 0, 0, 0, 0, 0, 0] },
    Word { len: 3, bytes: [62, 62, 62, 0, 0, 0, 0, 0, 0, 0] },
    Word { len: 1, bytes: [42, 0, 0, 0, 0, 0, 0, 0, 0, 0] },
    Word { len: 1, bytes: [47, 0, 0, 0, 0, 0, 0, 0, 0, 0] },
    Word { len: 1, bytes: [37, 0, 0, 0, 0, 0, 0, 0, 0, 0] },
    Word { len: 1, bytes: [124, 0, 0, 0, 0, 0, 0, 0, 0, 0] },
    Word { len: 1, bytes: [94, 0, 0, 0, 0, 0, 0, 0, 0, 0] },
    Word { len: 1, bytes: [38, 0, 0, 0, 0, 0, 0, 0, 0, 0] },
    Word { len: 10, bytes: [105, 110, 115, 116, 97, 110, 99, 101, 111, 102] },
    Word { len: 2, bytes: [42, 42, 0, 0, 0, 0, 0, 0, 0, 0] },
    Word { len: 2, bytes: [63, 63, 0, 0, 0, 0, 0, 0, 0, 0] },
    Word { len: 2, bytes: [43, 61, 0, 0, 0, 0, 0, 0, 0, 0] },
    Word { len: 2, bytes: [45, 61, 0, 0, 0, 0, 0, 0, 0, 0] },
    Word { len: 2, bytes: [42, 61, 0, 0, 0, 0, 0, 0, 0, 0] },
    Word { len: 2, bytes: [47, 61, 0, 0, 0, 0, 0, 0, 0, 0] },
    Word { len: 2, bytes: [37, 61, 0, 0, 0, 0, 0, 0, 0, 0] },
    Word { len: 3, bytes: [60, 60, 61, 0, 0, 0, 0, 0, 0, 0] },
    Word { len: 3, bytes: [62, 62, 61, 0, 0, 0, 0, 0, 0, 0] },
    Word { len: 4, bytes: [62, 62, 62, 61, 0, 0, 0, 0, 0, 0] },
    Word { len: 2, bytes: [124, 61, 0, 0, 0, 0, 0, 0, 0, 0] },
    Word { len: 2, bytes: [94, 61, 0, 0, 0, 0, 0, 0, 0, 0] },
    Word { len: 2, bytes: [38, 61, 0, 0, 0, 0, 0, 0, 0, 0] },
    Word { len: 3, bytes: [42, 42, 61, 0, 0, 0, 0, 0, 0, 0] },
    Word { len: 3, bytes: [38, 38, 61, 0, 0, 0, 0, 0, 0, 0] },
    Word { len: 3, bytes: [124, 124, 61, 0, 0, 0, 0, 0, 0, 0] },
    Word { len: 3, bytes: [63, 63, 61, 0, 0, 0, 0, 0, 0, 0] },
    Word { len: 1, bytes: [63, 0, 0, 0, 0, 0, 0, 0, 0, 0] },
    Word { len: 3, bytes: [110, 101, 119, 0, 0, 0, 0, 0, 0, 0] },
    Word { len: 1, bytes: [46, 0, 0, 0, 0, 0, 0, 0, 0, 0] },
    Word { len: 2, bytes: [61, 62, 0, 0, 0, 0, 0, 0, 0, 0] },
    Word { len: 1, bytes: [44, 0, 0, 0, 0, 0, 0, 0, 0, 0] },
];

// The reserved words, but `await` and `yield`, which are variables in a script.
#[rattlefmt::skip]
pub static RESERVED: [Word; 36] = [
    Word { len: 5, bytes: [98, 114, 101, 97, 107, 0, 0, 0, 0, 0] },
    Word { len: 4, bytes: [99, 97, 115, 101, 0, 0, 0, 0, 0, 0] },
    Word { len: 5, bytes: [99, 97, 116, 99, 104, 0, 0, 0, 0, 0] },
    Word { len: 5, bytes: [99, 108, 97, 115, 115, 0, 0, 0, 0, 0] },
    Word { len: 5, bytes: [99, 111, 110, 115, 116, 0, 0, 0, 0, 0] },
    Word { len: 8, bytes: [99, 111, 110, 116, 105, 110, 117, 101, 0, 0] },
    Word { len: 8, bytes: [100, 101, 98, 117, 103, 103, 101, 114, 0, 0] },
    Word { len: 7, bytes: [100, 101, 102, 97, 117, 108, 116, 0, 0, 0] },
    Word { len: 6, bytes: [100, 101, 108, 101, 116, 101, 0, 0, 0, 0] },
    Word { len: 2, bytes: [100, 111, 0, 0, 0, 0, 0, 0, 0, 0] },
    Word { len: 4, bytes: [101, 108, 115, 101, 0, 0, 0, 0, 0, 0] },
    Word { len: 4, bytes: [101, 110, 117, 109, 0, 0, 0, 0, 0, 0] },
    Word { len: 6, bytes: [101, 120, 112, 111, 114, 116, 0, 0, 0, 0] },
    Word { len: 7, bytes: [101, 120, 116, 101, 110, 100, 115, 0, 0, 0] },
    Word { len: 5, bytes: [102, 97, 108, 115, 101, 0, 0, 0, 0, 0] },
    Word { len: 7, bytes: [102, 105, 110, 97, 108, 108, 121, 0, 0, 0] },
    Word { len: 3, bytes: [102, 111, 114, 0, 0, 0, 0, 0, 0, 0] },
    Word { len: 8, bytes: [102, 117, 110, 99, 116, 105, 111, 110, 0, 0] },
    Word { len: 2, bytes: [105, 102, 0, 0, 0, 0, 0, 0, 0, 0] },
    Word { len: 6, bytes: [105, 109, 112, 111, 114, 116, 0, 0, 0, 0] },
    Word { len: 2, bytes: [105, 110, 0, 0, 0, 0, 0, 0, 0, 0] },
    Word { len: 10, bytes: [105, 110, 115, 116, 97, 110, 99, 101, 111, 102] },
    Word { len: 3, bytes: [110, 101, 119, 0, 0, 0, 0, 0, 0, 0] },
    Word { len: 4, bytes: [110, 117, 108, 108, 0, 0, 0, 0, 0, 0] },
    Word { len: 6, bytes: [114, 101, 116, 117, 114, 110, 0, 0, 0, 0] },
    Word { len: 5, bytes: [115, 117, 112, 101, 114, 0, 0, 0, 0, 0] },
    Word { len: 6, bytes: [115, 119, 105, 116, 99, 104, 0, 0, 0, 0] },
    Word { len: 4, bytes: [116, 104, 105, 115, 0, 0, 0, 0, 0, 0] },
    Word { len: 5, bytes: [116, 104, 114, 111, 119, 0, 0, 0, 0, 0] },
    Word { len: 4, bytes: [116, 114, 117, 101, 0, 0, 0, 0, 0, 0] },
    Word { len: 3, bytes: [116, 114, 121, 0, 0, 0, 0, 0, 0, 0] },
    Word { len: 6, bytes: [116, 121, 112, 101, 111, 102, 0, 0, 0, 0] },
    Word { len: 3, bytes: [118, 97, 114, 0, 0, 0, 0, 0, 0, 0] },
    Word { len: 4, bytes: [118, 111, 105, 100, 0, 0, 0, 0, 0, 0] },
    Word { len: 5, bytes: [119, 104, 105, 108, 101, 0, 0, 0, 0, 0] },
    Word { len: 4, bytes: [119, 105, 116, 104, 0, 0, 0, 0, 0, 0] },
];

// Words that are asked for by their numbers.
pub const BRACE: u8 = 0;

pub const LET: u8 = 4;

pub const FUNCTION: u8 = 7;

pub const OPEN: u8 = 8;

pub const CLOSE: u8 = 9;

pub const OF: u8 = 17;

pub const BRACKET: u8 = 32;

pub const COMMA: u8 = 84;

// No word.
pub const NOTHING: u8 = 255;

// How many bytes word i of the productions has.
pub fn word_len(i: usize) -> usize
    requires { i < 85 }
    ensures is { result ≡ length (word i) }
    ensures few { result ≤ 10 }
{
    usize::from(WORDS[i].len)
}

// Writes it from `at` on; the place behind it.
pub fn put_word(i: usize, out: &mut [u8], at: usize) -> usize
    requires { (i < 85) × (at + length (word i) ≤ length out.old) }
    ensures { (result ≡ at + length (word i)) × Puts out.old out.new at (word i) }
{
    let entry = WORDS[i];
    put_bytes(out, at, &entry.bytes[..usize::from(entry.len)])
}
