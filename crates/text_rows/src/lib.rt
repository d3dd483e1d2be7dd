// The rows of the printing table looked up.
#![tactic(auto)]

ghost use Rattle.std.specs.Prelude.{◌≡◌, ◌<◌};
ghost use Rattle.text_rows.specs.Rows.{below, guard_ok, counts, RangeIs, StandIs, AnyIs};

use text_table::{Guard, Kids, Mode, ROWS, Row, STARTS};

// A place with its parameters.
#[derive(Clone, Copy, Debug, PartialEq, Eq)]
pub struct Place {
    pub place: u8,
    pub has_in: bool,
    pub has_return: bool,
    pub has_else: bool,
}

// A parameter below a node that has it or not.
fn below(mode: Mode, has: bool) -> bool
    ensures { result ≡ below mode has }
{
    match mode {
        Mode::Plus => true,
        Mode::Minus => false,
        Mode::Same => has,
    }
}

impl Place {
    // Where children of a node at this place stand.
    pub fn below(self, kids: Kids) -> Place
        ensures { result ≡ record { place = kids.place; has_in = below kids.has_in self.has_in; has_return = below kids.has_return self.has_return; has_else = below kids.has_else self.has_else } }
    {
        Place {
            place: kids.place,
            has_in: below(kids.has_in, self.has_in),
            has_return: below(kids.has_return, self.has_return),
            has_else: below(kids.has_else, self.has_else),
        }
    }

    // The parameter that a row asks for.
    fn asked(self, guard: Guard) -> bool
        ensures { result ≡ guard_ok guard self.has_in self.has_return self.has_else }
    {
        match guard {
            Guard::Always => true,
            Guard::Return => self.has_return,
            Guard::In => self.has_in,
            Guard::NotElse => !self.has_else,
        }
    }
}

// May the row be one for a node of that kind and form with n children.
fn is_for(row: &Row, kind: u8, form: u8, n: usize) -> bool
    ensures { result ≡ counts row.now kind form n }
{
    let singles = usize::from(row.singles);
    row.kind == kind && row.form == form && (singles == n || (row.has_list && singles <= n))
}

// Where the rows for a kind and form begin and end.
fn range(kind: u8, form: u8) -> (usize, usize)
    ensures { RangeIs kind form result.0 result.1 }
{
    if 49 <= kind || 32 <= form {
        return (0, 0);
    }
    let key = usize::from(kind) * 32 + usize::from(form);
    (usize::from(STARTS[key]), usize::from(STARTS[key + 1]))
}

// The row for a node at a place.
pub fn stand(kind: u8, form: u8, n: usize, at: Place) -> Option<usize>
    requires { at.place < 64 }
    ensures { StandIs kind form n at result }
{
    let (from, to) = range(kind, form);
    for i in from..to {
        let row = &ROWS[i];
        if is_for(row, kind, form, n)
            && (row.at >> u32::from(at.place)) % 2 == 1
            && at.asked(row.guard)
        {
            return Some(i);
        }
    }
    None
}

// A row for a node wherever it stands: all have the same tokens.
pub fn any(kind: u8, form: u8, n: usize) -> Option<usize>
    ensures { AnyIs kind form n result }
{
    let (from, to) = range(kind, form);
    for i in from..to {
        if is_for(&ROWS[i], kind, form, n) {
            return Some(i);
        }
    }
    None
}
