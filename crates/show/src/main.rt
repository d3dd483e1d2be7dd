// Reads a tree file from standard input and shows it: `refused N`, or `nodes N texts T` and a line for each node.
#![tactic(auto)]

use file_read::read::read;
use input::read_full;
use std::io;
use tree_print::{ROOM, WORDS, print_nodes};

fn show(rt: &impl Print, file: &[u8], words: &mut [u32]) -> io::Result<()> {
    match read(file, words) {
        Ok(header) => {
            println!(rt; "nodes {} texts {}", header.nodes, header.texts)?;
            print_nodes(rt, file, header.nodes)
        }
        Err(refusal) => println!(rt; "refused {refusal}"),
    }
}

fn main(rt: HostRuntime) -> io::Result<()> {
    let mut buf = [0; ROOM];
    let n = read_full(&mut rt.stdin(), &mut buf)?;
    show(&rt, &buf[..n], &mut [0; WORDS])
}
