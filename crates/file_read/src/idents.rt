// The identifiers (text and context) told apart: of each the first node that has it, in the order of these nodes.
ghost use Rattle.std.specs.Prelude.{◌≡◌, true, ◌+◌, ◌*◌, ◌<◌, ◌≤◌, length, drop};
ghost use Rattle.def_file.specs.Script.{has_id};
ghost use Rattle.def_file.specs.Read.{raw_of};
ghost use Rattle.file_read.specs.Child.{Room};
ghost use Rattle.file_read.specs.Idents.{ids_of, Listed, Texted, Found, FirstSet, Enters};

use crate::fields::node_at;
use def_file::Raw;
use words::layout;

// The place of the identifier of the node x among those listed.
fn place_of(file: &[u8], words: &[u32], n: usize, x: Raw) -> Option<usize>
    requires { Listed words.now n × Room file.now n × Texted file.now words.now × (x.text < 256) }
    ensures { Found x (ids_of file.now words.now) result }
{
    let count = words[layout::IDENT_COUNT] as usize;
    // No identifier before this one has the text.
    let first = words[layout::FIRST_OF_TEXT + x.text as usize].checked_sub(1)? as usize;
    for j in first..count {
        let m = words[layout::IDENTS + j] as usize;
        if x.ident() == node_at(file, m - 1).ident() {
            return Some(j);
        }
    }
    None
}

// Makes identifier v, counted from 1, the first one of text t, where that has none yet.
fn set_first(words: &mut [u32], t: usize, v: u32)
    requires { (16384 ≤ length words.old) × (t < 256) }
    ensures { FirstSet words.old words.new t v }
{
    if words[layout::FIRST_OF_TEXT + t] == 0 {
        words[layout::FIRST_OF_TEXT + t] = v;
    }
}

// The number of the identifier of node k, which is listed where it is new; none where 256 others are listed.
pub fn enter(file: &[u8], words: &mut [u32], n: usize, k: usize) -> Option<u32>
    requires { Listed words.old n × Room file.now n × (k < n) × (has_id (raw_of (drop (32 + 16 * k) file.now)) ≡ true) × Texted file.now words.old × ((raw_of (drop (32 + 16 * k) file.now)).text < 256) }
    ensures { Enters file.now words.old words.new n (raw_of (drop (32 + 16 * k) file.now)) result }
{
    let x = node_at(file, k);
    if let Some(j) = place_of(file, words, n, x) {
        return Some(j as u32);
    }
    let count = words[layout::IDENT_COUNT];
    if count == 256 {
        return None;
    }
    words[layout::IDENTS + count as usize] = (k + 1) as u32;
    words[layout::IDENT_COUNT] = count + 1;
    set_first(words, x.text as usize, count + 1);
    Some(count)
}
