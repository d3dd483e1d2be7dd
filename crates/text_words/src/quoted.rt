// Bytes written, and a string in double quotes, with `\` before `"` and `\` alone.
ghost use Rattle.std.specs.Prelude.{◌≡◌, ◌||◌, ◌+◌, ◌≤◌, ◌<◌, length, eqb, [], ◌∷◌};
ghost use Rattle.def_text.specs.Entry.{escaped, quoted};
ghost use Rattle.number_text.specs.Put.{Puts};

// Has the byte a `\` before it.
fn is_escaped(c: u8) -> bool
    ensures { result ≡ (eqb c 34 || eqb c 92) }
{
    c == 34 || c == 92
}

// How many bytes stand for it.
fn escaped_len(c: u8) -> usize
    ensures { result ≡ length (escaped (c ∷ [])) }
{
    if is_escaped(c) { 2 } else { 1 }
}

// How many bytes the string has in quotes.
pub fn quoted_len(text: &[u8]) -> usize
    requires { length text.now ≤ 65536 }
    ensures { result ≡ length (quoted text.now) }
{
    let mut len = 2;
    for c in text {
        len += escaped_len(*c);
    }
    len
}

// Writes bytes from `at` on; the place behind them.
pub fn put_bytes(out: &mut [u8], at: usize, text: &[u8]) -> usize
    requires { at + length text.now ≤ length out.old }
    ensures { (result ≡ at + length text.now) × Puts out.old out.new at text.now }
{
    let end = at + text.len();
    out[at..end].copy_from_slice(text);
    end
}

pub fn put_byte(out: &mut [u8], at: usize, byte: u8) -> usize
    requires { at < length out.old }
    ensures { (result ≡ at + 1) × Puts out.old out.new at (byte ∷ []) }
{
    out[at] = byte;
    at + 1
}

// Writes a byte of a string, with the `\` that it needs.
fn put_escaped(out: &mut [u8], at: usize, byte: u8) -> usize
    requires { at + length (escaped (byte ∷ [])) ≤ length out.old }
    ensures { (result ≡ at + length (escaped (byte ∷ []))) × Puts out.old out.new at (escaped (byte ∷ [])) }
{
    if is_escaped(byte) {
        put_bytes(out, at, &[92, byte])
    } else {
        put_byte(out, at, byte)
    }
}

// Writes a string in quotes.
pub fn put_quoted(out: &mut [u8], at: usize, text: &[u8]) -> usize
    requires { at + length (quoted text.now) ≤ length out.old }
    ensures { (result ≡ at + length (quoted text.now)) × Puts out.old out.new at (quoted text.now) }
{
    let mut end = put_byte(out, at, 34);
    for c in text {
        end = put_escaped(out, end, *c);
    }
    put_byte(out, end, 34)
}
