// Prints the kind rules as a table: a line for each parent kind from 1 to 48, in it a digit for each child kind from 1 to 48, 1 if that child may stand
// anywhere under that parent and 0 otherwise. It goes by the kind list alone, by what each kind asks of a node of each form.
#![tactic(auto)]

ghost use Rattle.std.specs.Prelude.{◌≡◌, ℕ};
ghost use Rattle.def_file.specs.Named.{Coded};
ghost use Rattle.def_kinds.specs.Stands.{at_some_place, with_some_count, stands};

use def_file::kind::Kind;
use def_file::kinds::{Row, row_of};
use std::io;

// Whether one of the places of n children takes a node of a kind, which has one child: of a declaration the head of a for-in or for-of asks for one
// declarator, and no other place asks how many children a node has.
fn at_some_place(row: Row, child: Kind, n: u16) -> bool
    ensures { (c : ℕ) → Coded child c → result ≡ at_some_place row c n }
{
    (0..n).any(|i| row.child(n, i).allows(child, 1))
}

// With some number of children: among 4 are a first, a last and those between, and no kind asks for more.
fn with_some_count(row: Row, child: Kind) -> bool
    ensures { (c : ℕ) → Coded child c → result ≡ with_some_count row c }
{
    (1..5).any(|n| row.count_ok(usize::from(n)) && at_some_place(row, child, n))
}

// An entry of the table: of some form. No kind has a form above 24.
fn stands(parent: u8, child: u8) -> bool
    ensures { result ≡ stands parent child }
{
    let (parent, child) = (Kind::from(parent), Kind::from(child));
    (0..25).any(|form| {
        let row = row_of(parent, form);
        row.form_ok(usize::from(form)) && with_some_count(row, child)
    })
}

// The line of a parent.
fn print_line(rt: &impl Print, parent: u8) -> io::Result<()> {
    for child in 1..49 {
        print!(rt; "{}", u8::from(stands(parent, child)))?;
    }
    println!(rt;)
}

fn main(rt: HostRuntime) -> io::Result<()> {
    for parent in 1..49 {
        print_line(&rt, parent)?;
    }
    Ok(())
}
