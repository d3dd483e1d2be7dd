// Plays sequences of calls of scope.rs from standard input, and prints the scopes after each. A call has four bytes: its number, an identifier,
// a value and a mark; the byte 0 ends a sequence. tools/calls.py writes the input, and what the definition makes of it.
#![tactic(auto)]

ghost use Rattle.std.specs.Prelude.{◌≡◌, ◌<◌, ◌≤◌, length, IfOk};
ghost use Rattle.words_nodes.specs.Nodes.{Planted};

mod begin;
mod show;
mod steps;
mod values;

use begin::begin;
use input::read_full;
use refusal::Refusal;
use show::{alike, show};
use std::io;
use steps::call;

// Byte i, 0 past the end.
fn byte(s: &[u8], i: usize) -> u8
    ensures { length s.now ≤ i → result ≡ 0 }
{
    s.get(i).copied().unwrap_or(0)
}

// The call at a place, unless one was refused before.
fn next(w: &mut [u32], s: &[u8], i: usize, before: Result<(), Refusal>) -> Result<(), Refusal>
    requires { (Planted w.old) × (i < 65536) }
    ensures { Planted w.new }
{
    before?;
    call(
        w,
        byte(s, i),
        byte(s, i + 1),
        byte(s, i + 2),
        byte(s, i + 3),
    )
}

// Plays the sequence that begins at a place, up to its end or to a call that is refused; where the next one begins.
fn play(rt: &impl Print, w: &mut [u32], s: &[u8], from: usize) -> io::Result<usize>
    requires { (16384 ≤ length w.old) × (from < length s.now) × (length s.now ≤ 65536) }
    ensures { (IfOk result (λ i. from < i)) × (16384 ≤ length w.new) }
{
    begin(w);
    let mut done = Ok(());
    let mut same = true;
    let mut i = from;
    // A while: the index behind the last call is the answer, and the byte 0 there ends the sequence.
    while byte(s, i) != 0 {
        done = next(w, s, i, done);
        same = alike(w, same);
        i += 4;
    }
    show(rt, w, done, same)?;
    Ok(i + 1)
}

// Plays all sequences. Where the next one begins is known once one was played, so that the index moves by its length.
fn play_all(rt: &impl Print, w: &mut [u32], s: &[u8]) -> io::Result<()>
    requires { 16384 ≤ length w.old }
{
    if 65536 < s.len() {
        return Ok(());
    }
    let mut i: usize = 0;
    while i < s.len() {
        i = play(rt, w, s, i)?;
    }
    Ok(())
}

fn main(rt: HostRuntime) -> io::Result<()> {
    let mut input = [0u8; 65536];
    let n = read_full(&mut rt.stdin(), &mut input)?;
    let mut w = [0u32; 16384];
    play_all(&rt, &mut w, &input[..n])
}
