// A file read into the working words, and the pass over it.
ghost use Rattle.std.specs.Prelude.{◌≤◌, length};
ghost use Rattle.def_under.specs.Reading.{lent};
ghost use Rattle.pass_run.specs.Inline.{FileIs};

use crate::start::start;
use crate::{Ran, runs};
use file_read::read::read_under;
use refusal::Refusal;
use words::clear;

// Rows 14 and 15, then 2 to 9, under the table that is lent. The words hold the result, or after a refusal the first 16,384 are 0; the words past them
// never change.
pub fn inline_file(file: &[u8], table: &[u8], words: &mut [u32], limit: u32) -> Result<Ran, Refusal>
    requires { 16384 ≤ length words.old }
    ensures { FileIs (lent table.now file.now) file.now words.old words.new limit result }
{
    read_under(file, table, words)?;
    start(words);
    let ran = runs(words, limit);
    if ran.is_err() {
        clear(words);
    }
    ran
}
