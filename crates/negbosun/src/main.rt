// Reads a tree file from standard input, runs the pass on it with at most 16 runs, and prints `refused N`, or the head line, a line for each
// node of the result, and a line for each root binding (document 01). Given an argument, it says what it takes, and reads nothing: to standard
// output for -h and --help, with status 0, and to standard error for any other, with status 2. What cannot be read ends it with status 1, and what
// cannot be written, as where standard output is closed, with status 6; both are told in words on standard error.
#![tactic(auto)]

ghost use Rattle.std.specs.Prelude.{◌≡◌, ◌||◌, ◌≤◌, IfOk, bytes_eq, codes, if◌then◌else◌, length};
ghost use Rattle.std.specs.Process.{exit_status};

use file_read::fields::u32_at;
use input::read_full;
use pass::{inline, list};
use std::env::{Env, FillError};
use std::io;
use std::io::{ErrorKind, Read};
use std::process::ExitCode;
use tree_print::{ROOM, WORDS, print_nodes};

const USAGE: &str = "usage: negbosun < FILE.tree
Takes no argument: reads a tree file from standard input, and prints the pass's result or `refused N`.
negbosun-inline takes a file's name and options; script/inline (installed: negbosun-script) takes a script's text.";

// The system's number for a descriptor that is not open.
const CLOSED: i32 = 9;

// Five words for each of at most 256 root bindings.
const ROOTS: usize = 1280;

// The root bindings, of five words each: text, context as 16 digits, mark, count.
fn print_roots(rt: &impl Print, roots: &[u32]) -> io::Result<()> {
    for root in roots.chunks_exact(5) {
        println!(rt;
            "root {} {:08x}{:08x} {} {}",
            root[0], root[2], root[1], root[3], root[4]
        )?;
    }
    Ok(())
}

// The root bindings of the same pass.
fn show_roots(rt: &impl Print, file: &[u8], words: &mut [u32]) -> io::Result<()> {
    let mut roots = [0; ROOTS];
    match list(file, &mut roots, words, 16) {
        Ok(count) => print_roots(rt, &roots[..5 * count.min(256)]),
        Err(_) => Ok(()),
    }
}

fn show(rt: &impl Print, file: &[u8], words: &mut [u32]) -> io::Result<()> {
    let mut result = [0; ROOM];
    match inline(file, &mut result, words, 16) {
        Ok(done) => {
            let n = (u32_at(&result, 8) as usize).min(1024);
            println!(rt;
                "ok runs {} changed {} nodes {n}",
                done.runs,
                u32::from(done.changed)
            )?;
            print_nodes(rt, &result, n)?;
            show_roots(rt, file, words)
        }
        Err(refusal) => println!(rt; "refused {refusal}"),
    }
}

// Fills the buffer from the input, and answers whether there may be more.
fn read_more<R: Read>(from: &mut R, buf: &mut [u8]) -> io::Result<bool> {
    Ok(read_full(from, buf)? == buf.len())
}

// Reads what is left of the input, so that who writes it is not cut off. A proved loop has to end, so it counts its turns, up to a number that
// no input uses up.
fn read_rest<R: Read>(from: &mut R) -> io::Result<()> {
    let mut space = [0u8; 65536];
    for _ in 0..u64::MAX {
        if !read_more(from, &mut space)? {
            break;
        }
    }
    Ok(())
}

// Whether an argument asks for the usage.
fn is_help(word: &[u8]) -> bool
    ensures { result ≡ (bytes_eq word.now (codes "-h") || bytes_eq word.now (codes "--help")) }
{
    word == b"-h".as_slice() || word == b"--help".as_slice()
}

// The status after the usage: 0 where an argument asks for it, 2 where the program takes no such argument.
fn usage_status(is_asked: bool) -> ExitCode
    ensures { exit_status result ≡ (if is_asked then 0 else 2) }
{
    ExitCode::from(if is_asked { 0 } else { 2 })
}

// The usage: to standard output where it is asked for, else to standard error.
fn say_usage(rt: &(impl Print + Eprint), is_asked: bool) -> io::Result<()> {
    if is_asked {
        println!(rt; "{USAGE}")
    } else {
        eprintln!(rt; "{USAGE}")
    }
}

// The status where an output cannot be written, else where the input cannot be read.
fn failed_status(is_output: bool) -> ExitCode
    ensures { exit_status result ≡ (if is_output then 6 else 1) }
{
    ExitCode::from(if is_output { 6 } else { 1 })
}

// Why something cannot be read or written, as far as the system's reason is one of these.
fn reason(error: &io::Error) -> &'static str {
    match error.kind() {
        ErrorKind::BrokenPipe => "what it was sent to has ended before it had read all",
        ErrorKind::StorageFull => "there is no room left on the disk",
        ErrorKind::FileTooLarge => "files may not be so large here",
        ErrorKind::IsADirectory => "this is a folder",
        ErrorKind::PermissionDenied => "this is not allowed",
        _ => if error.raw_os_error() == Some(CLOSED) {
            "it is closed"
        } else {
            "the system does not allow it"
        },
    }
}

// Says what failed; where even that cannot be written, the status alone tells it.
fn failed(rt: &impl Eprint, is_output: bool, error: &io::Error) -> ExitCode
    ensures { exit_status result ≡ (if is_output then 6 else 1) }
{
    let what = if is_output {
        "standard output"
    } else {
        "standard input"
    };
    match eprintln!(rt; "negbosun: {what}: {}", reason(error)) {
        Ok(()) | Err(_) => failed_status(is_output),
    }
}

// The whole input, or as much of it as shows that it is too long.
fn read_input(rt: &HostRuntime, buf: &mut [u8]) -> io::Result<usize>
    ensures { IfOk result (λ n. n ≤ length buf.new) }
{
    let mut input = rt.stdin();
    let count = read_full(&mut input, buf)?;
    if count == buf.len() {
        read_rest(&mut input)?;
    }
    Ok(count)
}

fn run(rt: &HostRuntime) -> ExitCode {
    let mut buf = [0; ROOM];
    let n = match read_input(rt, &mut buf) {
        Ok(n) => n,
        Err(error) => return failed(rt, false, &error),
    };
    match show(rt, &buf[..n], &mut [0; WORDS]) {
        Ok(()) => ExitCode::SUCCESS,
        Err(error) => failed(rt, true, &error),
    }
}

fn main(rt: HostRuntime) -> ExitCode {
    let mut word = [0u8; 64];
    let is_asked = match rt.arg(1, &mut word) {
        Err(FillError::NotPresent) => return run(&rt),
        // What does not fit into the buffer does not ask for the usage.
        Err(FillError::TooLong) => false,
        Ok(n) => is_help(&word[..n]),
    };
    match say_usage(&rt, is_asked) {
        Ok(()) => usage_status(is_asked),
        Err(error) => failed(&rt, true, &error),
    }
}
