// Writing of a result (document 01, "The tree file"): the tree of the working words, with the texts of the file that was read.
#![tactic(auto)]

mod nodes;
pub mod put;

ghost use Rattle.std.specs.Prelude.{length};
ghost use Rattle.file_write.specs.Written.{Counted, Wrote, fitted, written, result_bytes};

use crate::nodes::Source;
use crate::put::{copy, put_head};
use file_read::header::{Header, read_header};
use refusal::Refusal;
use words::layout;

// The file's texts behind the nodes of the words; the result's length.
fn write_counted(
    file: &[u8],
    words: &[u32],
    res: &mut [u8],
    header: Header,
) -> Result<usize, Refusal>
    requires { Counted file.now words.now header }
    ensures { Wrote (result_bytes file.now words.now) res.old res.new (fitted file.now words.now (length res.old)) result }
{
    let nodes = words[layout::NODE_COUNT] as usize;
    if !(1..=1024).contains(&nodes) {
        return Err(Refusal::Room);
    }
    let head = Header { nodes, ..header };
    let total = head.total();
    if res.len() < total {
        return Err(Refusal::Buffer);
    }
    put_head(res, head);
    let source = Source {
        file,
        words,
        nodes: header.nodes,
    };
    source.put_nodes(&mut res[32..]);
    let ends = head.places().ends;
    copy(file, header.places().ends, res, ends, total - ends);
    Ok(total)
}

// Writes the result, and answers its length; refuses where the words, the file's header, the node count or the room will not do.
pub fn write(file: &[u8], words: &[u32], res: &mut [u8]) -> Result<usize, Refusal>
    ensures { Wrote (result_bytes file.now words.now) res.old res.new (written file.now words.now (length res.old)) result }
{
    if words.len() < 16384 {
        return Err(Refusal::Call);
    }
    let header = read_header(file)?;
    write_counted(file, words, res, header)
}
