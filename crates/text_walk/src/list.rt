// The list of tokens: how many in word 0, and from word 1 on each by its number.
ghost use Rattle.std.specs.Prelude.{◌≡◌, ◌<◌, ◌≤◌, length};
ghost use Rattle.text_walk.specs.Lists.{used, Appended};

// Puts a token behind those of the list.
pub fn push(words: &mut [u32], code: u32)
    requires { (16384 ≤ length words.old) × (used words.old < 16383) }
    ensures { Appended words.old words.new code }
{
    let count = words[0] as usize;
    words[1 + count] = code;
    words[0] = (count + 1) as u32;
}
