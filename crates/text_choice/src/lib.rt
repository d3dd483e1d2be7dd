// How a node is printed: the row of the table that stands at its place, or a pair around it.
#![tactic(auto)]

ghost use Rattle.std.specs.Prelude.{◌≡◌, ℕ, ◌<◌};
ghost use Rattle.def_file.specs.Named.{Coded};
ghost use Rattle.def_text.specs.Print.{in_pair};
ghost use Rattle.text_table.specs.Put as put;
ghost use Rattle.text_spots.specs.Spots.{spot_of};
ghost use Rattle.text_choice.specs.Trees.{shown, spelled};
ghost use Rattle.text_choice.specs.Choice.{ChosenIs};

mod opening;
pub mod parts;
pub mod trees;

use crate::opening::{barred, opening};
use def_file::kind::Kind;
use text_rows::stand;
use text_spots::Spot;
use text_table::Bars;
use text_tokens::nodes::Nodes;

// The row by which a node is printed, where it stands then, and is a pair put around it.
#[derive(Clone, Copy, Debug, PartialEq, Eq)]
pub struct Choice {
    pub row: usize,
    pub spot: Spot,
    pub paired: bool,
}

// Where node k with that form stands as it is.
fn as_is(nodes: Nodes, k: usize, form: u8, spot: Spot) -> Spot
    requires { (k < nodes.header.nodes) × (spot.place.place < 53) }
    ensures { spot_of result ≡ put.as_is (spelled nodes.entry.file.now nodes.entry.header) (shown nodes.entry.file.now nodes.entry.header k form) (spot_of spot) }
{
    match spot.bars {
        Bars::Nothing => spot,
        _ => {
            if barred(spot.bars, opening(nodes, k, form, spot.next)) {
                spot.free()
            } else {
                spot
            }
        }
    }
}

// A kind that a pair may stand around.
fn in_pair(kind: Kind) -> bool
    ensures { (k : ℕ) → Coded kind k → result ≡ in_pair k }
{
    kind == Kind::BindingIdent || kind.is_expr()
}

// How node k with that form is printed at a spot.
pub fn choose(nodes: Nodes, k: usize, form: u8, spot: Spot) -> Option<Choice>
    requires { (k < nodes.header.nodes) × (spot.place.place < 53) }
    ensures { ChosenIs (spelled nodes.entry.file.now nodes.entry.header) (shown nodes.entry.file.now nodes.entry.header k form) (spot_of spot) result }
{
    let node = nodes.node(k);
    let count = usize::from(node.arity);
    let here = as_is(nodes, k, form, spot);
    if let Some(row) = stand(node.kind, form, count, here.place) {
        return Some(Choice {
            row,
            spot: here,
            paired: false,
        });
    }
    if !in_pair(Kind::from(node.kind)) {
        return None;
    }
    let inside = spot.inside()?;
    let row = stand(node.kind, form, count, inside.place)?;
    Some(Choice {
        row,
        spot: inside,
        paired: true,
    })
}
