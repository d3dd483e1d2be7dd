// Where a node is printed: its place, what its tokens may not begin with, and the word behind them.
#![tactic(auto)]

ghost use Rattle.std.specs.Prelude.{◌≡◌, ◌<◌};
ghost use Rattle.text_table.specs.Put.{free, if_barred};
ghost use Rattle.text_rows.specs.Rows.{below};
ghost use Rattle.text_spots.specs.Spots.{bars_of, next_of, spot_of, InsideIs};

use text_rows::{Place, stand};
use text_table::{ALL_PARTS, Bars, Kids, PARTS, Part};
use text_words::word::NOTHING;

// A place with what the tokens there may not begin with, and the word behind them, if it is known.
#[derive(Clone, Copy, Debug, PartialEq, Eq)]
pub struct Spot {
    pub place: Place,
    pub bars: Bars,
    pub next: u8,
}

// Of each place what it has that nothing is barred at, as a place.
#[rattlefmt::skip]
static FREED: [u8; 53] = [
    52, 52, 52, 52, 52, 52, 52, 52, 52, 52, 10, 11, 52, 52, 52, 52, 52, 52, 52, 19, 52, 52, 52, 52, 52, 52, 52,
    52, 52, 52, 52, 52, 52, 52, 52, 52, 52, 52, 52, 52, 52, 52, 52, 52, 52, 52, 52, 10, 51, 19, 52, 51, 52,
];

// The word behind, which matters only where something is barred.
fn next_at(bars: Bars, next: u8) -> u8
    ensures { next_of result ≡ if_barred (bars_of bars) (next_of next) }
{
    match bars {
        Bars::Nothing => NOTHING,
        _ => next,
    }
}

impl Spot {
    // What it has that nothing is barred at.
    pub fn free(self) -> Spot
        requires { self.place.place < 53 }
        ensures { spot_of result ≡ free (spot_of self) }
    {
        Spot {
            place: Place {
                place: FREED[usize::from(self.place.place)],
                ..self.place
            },
            bars: Bars::Nothing,
            next: NOTHING,
        }
    }

    // Where children of a node here stand.
    pub fn child(self, kids: Kids, bars: Bars, next: u8) -> Spot
        ensures { spot_of result ≡ record { place = kids.place; has_in = below kids.has_in self.place.has_in; has_return = below kids.has_return self.place.has_return; has_else = below kids.has_else self.place.has_else; bars = bars_of bars; next = if_barred (bars_of bars) (next_of next) } }
    {
        Spot {
            place: self.place.below(kids),
            bars,
            next: next_at(bars, next),
        }
    }

    // Where a node in a pair here stands.
    pub fn inside(self) -> Option<Spot>
        requires { self.place.place < 53 }
        ensures { InsideIs self result }
    {
        let row = stand(41, 0, 1, self.place)?;
        match ALL_PARTS[row * PARTS + 1] {
            Part::Kids(kids) => Some(self.child(kids, Bars::Nothing, NOTHING)),
            _ => None,
        }
    }
}
