// Which texts are names and variables (ECMA-262, IdentifierName and Identifier, in ASCII and without `\`).
ghost use Rattle.std.specs.Prelude.{◌≡◌, ◌≤◌};
ghost use Rattle.def_file.specs.Script.{same_text};
ghost use Rattle.def_text.specs.Words.{between, starts_name, is_name, is_variable, among, reserved};
ghost use Rattle.text_words.specs.Words.{continues_name, all_continue, plain, bytes_of};

use crate::word::{RESERVED, Word};

fn starts_name(c: u8) -> bool
    ensures { result ≡ starts_name c }
{
    (97..=122).contains(&c) || (65..=90).contains(&c) || c == 36 || c == 95
}

fn continues_name(c: u8) -> bool
    ensures { result ≡ continues_name c }
{
    starts_name(c) || (48..=57).contains(&c)
}

fn all_continue(text: &[u8]) -> bool
    ensures { result ≡ all_continue text.now }
{
    for c in text {
        if !continues_name(*c) {
            return false;
        }
    }
    true
}

pub fn is_name(text: &[u8]) -> bool
    ensures { result ≡ is_name text.now }
{
    match text {
        [] => false,
        [first, rest @ ..] => starts_name(*first) && all_continue(rest),
    }
}

// Is the text the word.
fn is_word(text: &[u8], word: &Word) -> bool
    requires { word.now.len ≤ 10 }
    ensures { result ≡ same_text text.now (bytes_of word.now) }
{
    text == &word.bytes[..usize::from(word.len)]
}

fn is_reserved(text: &[u8]) -> bool
    ensures { result ≡ among text.now reserved }
{
    for word in &RESERVED {
        if is_word(text, word) {
            return true;
        }
    }
    false
}

pub fn is_variable(text: &[u8]) -> bool
    ensures { result ≡ is_variable text.now }
{
    is_name(text) && !is_reserved(text)
}

fn is_printable(c: u8) -> bool
    ensures { result ≡ between 32 126 c }
{
    (32..=126).contains(&c)
}

// Only bytes 32 to 126: what a string in quotes may have.
pub fn is_plain(text: &[u8]) -> bool
    ensures { result ≡ plain text.now }
{
    for c in text {
        if !is_printable(*c) {
            return false;
        }
    }
    true
}
