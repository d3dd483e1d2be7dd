// Tree files as the programs take and print them.
#![tactic(auto)]

ghost use Rattle.std.specs.Prelude.{◌+◌, ◌*◌, ◌≤◌, length};

use file_read::fields::node_at;
use std::io;

// Room for the largest readable file, 32 + 16 * 1,024 + 4 * 256 + 4,096 bytes, and one byte more. A longer input is refused as the
// whole of it would be (crates/pass_answers/specs/Long.antt, CutAlike): rows 2 and 3 look at the header alone, and a length above what row 3
// leaves is row 4's, cut or not.
pub const ROOM: usize = 21537;

// The working words.
pub const WORDS: usize = 16384;

// The first n nodes of a file, a line for each: kind, form, children, text, and 16 digits.
pub fn print_nodes(rt: &impl Print, file: &[u8], n: usize) -> io::Result<()>
    requires { (n ≤ 1024) × (32 + 16 * n ≤ length file.now) }
{
    for k in 0..n {
        let x = node_at(file, k);
        println!(rt;
            "{} {} {} {} {:016x}",
            x.kind, x.form, x.arity, x.text, x.bits
        )?;
    }
    Ok(())
}
