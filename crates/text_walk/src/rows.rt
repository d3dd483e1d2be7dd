// A row's parts, in whole and in part.
ghost use Rattle.std.specs.Prelude.{◌≡◌, T, ℕ, ◌≤◌, ◌<◌, drop, get_or, length, take};
ghost use Rattle.def_text.specs.Grammar.{is_for};
ghost use Rattle.text_table.specs.Rows.{rows, no_row};
ghost use Rattle.text_table.specs.Put.{if_barred};
ghost use Rattle.text_spots.specs.Spots.{bars_of, next_of};
ghost use Rattle.text_parts.specs.Parts.{follow_parts, list_length, row_parts, PartsFit};

use text_choice::parts::follow;
use text_table::{ALL_PARTS, Bars, PARTS, Part, ROWS};
use text_words::word::NOTHING;

// The parts of a row.
pub fn row_parts(row: usize) -> &'static [Part]
    requires { row < 136 }
    ensures { result.now ≡ row_parts row }
{
    &ALL_PARTS[row * PARTS..row * PARTS + PARTS]
}

// The first n parts, and those behind them.
pub fn front(parts: &[Part], n: usize) -> &[Part]
    requires { n ≤ length parts.now }
    ensures { result.now ≡ take n parts.entry.now }
{
    &parts[..n]
}

pub fn back(parts: &[Part], n: usize) -> &[Part]
    requires { n ≤ length parts.now }
    ensures { result.now ≡ drop n parts.entry.now }
{
    &parts[n..]
}

// How many children the list of a row has, for a node of n children.
pub fn list_length(row: usize, kind: u8, n: usize) -> usize
    requires { (row < 136) × ((f : ℕ) × T (is_for kind f n (get_or rows row no_row).rule)) }
    ensures { result ≡ list_length row n }
{
    n - usize::from(ROWS[row].singles)
}

// The word behind children, where it matters: where something is barred. From part j on is what stands behind them.
pub fn last_word(parts: &[Part], j: usize, m: usize, bars: Bars, next: u8) -> u8
    requires { ((k : ℕ) × PartsFit k parts.now) × (j ≤ length parts.now) }
    ensures { next_of result ≡ if_barred (bars_of bars) (follow_parts m (drop j parts.entry.now) (next_of next)) }
{
    if bars == Bars::Nothing {
        NOTHING
    } else {
        follow(&parts[j..], m, next)
    }
}
