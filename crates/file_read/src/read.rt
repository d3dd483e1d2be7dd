// Reading a tree file: rows 1 to 7 in checking order, and 14 and 15 behind row 1, then the script's core in the working words.
ghost use Rattle.std.specs.Prelude.{length, ◌≤◌};
ghost use Rattle.def_under.specs.Reading.{lent};
ghost use Rattle.file_read.specs.Reading.{CheckIs, LoadIs, ReadIs, ReadUnderIs};

use crate::header::{Header, read_header};
use crate::load::load;
use crate::preorder::nodes_ok_under;
use crate::table::check_table;
use file_kinds::KINDS;
use refusal::Refusal;

// Rows 2 to 6, under a table of kinds.
fn check(file: &[u8], table: &[u8]) -> Result<Header, Refusal>
    ensures { CheckIs table.now file.now result }
{
    let h = read_header(file)?;
    let at = h.places();
    if !at.rising(file, h.bytes) || !at.distinct(file) {
        return Err(Refusal::Texts);
    }
    if !nodes_ok_under(file, h.nodes, h.texts, table) {
        return Err(Refusal::Nodes);
    }
    Ok(h)
}

// Rows 14 and 15, then 2 to 7 under the table; a refusal leaves the first 16,384 words as they may be.
fn load_file(file: &[u8], table: &[u8], words: &mut [u32]) -> Result<Header, Refusal>
    requires { 16384 ≤ length words.old }
    ensures { LoadIs (lent table.now file.now) file.now words.old words.new result }
{
    check_table(table)?;
    let h = check(file, table)?;
    load(file, words, h)?;
    Ok(h)
}

// Rows 1, 14 and 15, then 2 to 7 under the table that is lent: a script, by its counts. After row 1 the words are unchanged; after the others the
// first 16,384 are 0; the words past them never change.
pub fn read_under(file: &[u8], table: &[u8], words: &mut [u32]) -> Result<Header, Refusal>
    ensures { ReadUnderIs table.now file.now words.old words.new result }
{
    if words.len() < 16384 {
        return Err(Refusal::Call);
    }
    let answer = load_file(file, table, words);
    if answer.is_err() {
        words::clear(words);
    }
    answer
}

// Rows 1 to 7, under the constant table.
pub fn read(file: &[u8], words: &mut [u32]) -> Result<Header, Refusal>
    ensures { ReadIs file.now words.old words.new result }
{
    read_under(file, &KINDS, words)
}
