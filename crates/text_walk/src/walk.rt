// A tree's tokens, with the parentheses that it needs: at each node the row of the table that stands at its place, or a pair around it.
ghost use Rattle.std.specs.Prelude.{◌≡◌, ℕ, ◌+◌, ◌-◌, ◌*◌, ◌≤◌, ◌<◌, length};
ghost use Rattle.def_tree.specs.Tree.{count, counts};
ghost use Rattle.text_spots.specs.Spots.{bars_of, next_of, spot_of};
ghost use Rattle.text_parts.specs.Parts.{kid_count, PartsFit};
ghost use Rattle.text_tokens.specs.Tokens.{node_of};
ghost use Rattle.words_twice.specs.Twice.{Stand};
ghost use Rattle.text_choice.specs.Trees.{cores, tree_of, trees_of};
ghost use Rattle.text_walk.specs.Lists.{used};
ghost use Rattle.text_walk.specs.Walk.{DefaultsFit, RowFor, TreeIs, RowIs, RightIs, ListIs, ScriptIs};

use crate::list::push;
use crate::rows::{back, front, last_word, list_length, row_parts};
use crate::steps::{behind_child, extra_at, form_of, how_many, is_do_while, put_comma};
use text_choice::choose;
use text_choice::trees::{one_default, skip};
use text_rows::Place;
use text_spots::Spot;
use text_table::{Bars, Kids, Part};
use text_tokens::bytes::{LINE, OWN};
use text_tokens::nodes::Nodes;
use text_tokens::own::own_ok;
use text_words::word::{CLOSE, NOTHING, OPEN};

// Where a statement of a script stands.
const STATEMENT: Spot = Spot {
    place: Place {
        place: 1,
        has_in: true,
        has_return: false,
        has_else: false,
    },
    bars: Bars::Nothing,
    next: NOTHING,
};

// Children at one part: where they stand, what is barred before the first, and the word behind the last.
#[derive(Clone, Copy, Debug, PartialEq, Eq)]
struct List {
    kids: Kids,
    bars: Bars,
    last: u8,
}

// A readable file's nodes, printed.
#[derive(Clone, Copy, Debug, PartialEq, Eq)]
pub struct Printer<'a> {
    pub nodes: Nodes<'a>,
}

impl Printer<'_> {
    // The tree of node k at a spot, d being added to the form of a declaration; the index behind it.
    #[cycle(print)]
    fn print(self, words: &mut [u32], k: usize, d: u8, spot: Spot) -> Option<usize>
        requires { (k < self.nodes.header.nodes) × (d ≤ 6) × (spot.place.place < 53) × (16384 ≤ length words.old) × (used words.old + 14 * count (tree_of self.nodes.file.now self.nodes.header k) ≤ 16384) }
        ensures { TreeIs self.entry.nodes.file.now self.entry.nodes.header words.old words.new k d (spot_of spot) result }
    {
        let node = self.nodes.node(k);
        let choice = choose(self.nodes, k, form_of(node.kind, node.form, d), spot)?;
        if !choice.paired {
            return self.by_row(words, k, choice.row, choice.spot);
        }
        push(words, u32::from(OPEN));
        let end = self.by_row(words, k, choice.row, choice.spot)?;
        push(words, u32::from(CLOSE));
        Some(end)
    }

    // Node k by a row for it.
    #[cycle(print)]
    fn by_row(self, words: &mut [u32], k: usize, row: usize, spot: Spot) -> Option<usize>
        requires { (k < self.nodes.header.nodes) × (row < 136) × RowFor self.nodes.file.now self.nodes.header k row × (16384 ≤ length words.old) × (used words.old + 14 * count (tree_of self.nodes.file.now self.nodes.header k) ≤ 16386) }
        ensures { RowIs self.entry.nodes.file.now self.entry.nodes.header words.old words.new k row (spot_of spot) result }
    {
        let node = self.nodes.node(k);
        let m = list_length(row, node.kind, usize::from(node.arity));
        let parts = row_parts(row);
        if !is_do_while(node.kind) {
            return self.right(words, k, parts, m, k + 1, spot);
        }
        // Its statement, the second child, stands first.
        let end = self.right(words, k, front(parts, 2), m, skip(self.nodes, k + 1), spot)?;
        self.right(words, k, back(parts, 2), m, k + 1, spot)?;
        Some(end)
    }

    // Parts of a row for node k, whose children there begin at `at`, and whose lists have m children.
    #[cycle(print)]
    fn right(
        self,
        words: &mut [u32],
        k: usize,
        parts: &[Part],
        m: usize,
        at: usize,
        spot: Spot,
    ) -> Option<usize>
        requires { (k < self.nodes.header.nodes) × (k < at) × PartsFit (node_of self.nodes.file.now self.nodes.header k).kind parts.now × DefaultsFit m parts.now × Stand (cores self.nodes.file.now self.nodes.header) at (kid_count m parts.now) × (16384 ≤ length words.old) × (used words.old + length parts.now + 14 * counts (trees_of self.nodes.file.now self.nodes.header (kid_count m parts.now) at) ≤ 16383) }
        ensures { RightIs self.entry.nodes.file.now self.entry.nodes.header words.old words.new k m (spot_of spot) parts.now at result }
    {
        let mut next = at;
        let mut bars = spot.bars;
        let mut behind = spot.next;
        for j in 0..parts.len() {
            match parts[j] {
                Part::End => return Some(next),
                Part::Word(w) => {
                    push(words, u32::from(w));
                    bars = Bars::Nothing;
                }
                Part::Own(sort) => {
                    if !own_ok(self.nodes, k, sort) {
                        return None;
                    }
                    push(words, OWN + k as u32);
                    bars = Bars::Nothing;
                }
                Part::Kids(kids) => {
                    let list = List {
                        kids,
                        bars,
                        last: last_word(parts, j + 1, m, bars, behind),
                    };
                    next = self.kids(words, k, list, how_many(kids.style, m), next, spot)?;
                    bars = Bars::Nothing;
                    behind = spot.next;
                }
                Part::Look(look) => {
                    bars = look;
                    behind = NOTHING;
                }
                Part::OneDefault => {
                    if !one_default(self.nodes, next, m) {
                        return None;
                    }
                }
                _ => {}
            }
        }
        Some(next)
    }

    // So many children of node k from `at` on, at a part of a row for it.
    #[cycle(print)]
    fn kids(
        self,
        words: &mut [u32],
        k: usize,
        list: List,
        count: usize,
        at: usize,
        spot: Spot,
    ) -> Option<usize>
        requires { (k < self.nodes.header.nodes) × (k < at) × (list.kids.place < 53) × Stand (cores self.nodes.file.now self.nodes.header) at count × (16384 ≤ length words.old) × (used words.old + 14 * counts (trees_of self.nodes.file.now self.nodes.header count at) ≤ 16383) }
        ensures { ListIs self.entry.nodes.file.now self.entry.nodes.header words.old words.new k list.kids (spot_of spot) (bars_of list.bars) (next_of list.last) count at result }
    {
        let mut next = at;
        let mut bars = list.bars;
        for i in 0..count {
            bars = put_comma(words, self.nodes, list.kids.style, i == 0, bars);
            let behind = behind_child(list.kids.style, count - 1 - i, list.last);
            let d = extra_at(self.nodes, k, next);
            next = self.print(words, next, d, spot.child(list.kids, bars, behind))?;
            bars = Bars::Nothing;
        }
        Some(next)
    }

    // The statements of the script, each with the end of its line; is there a text.
    pub fn script(self, words: &mut [u32]) -> bool
        requires { 16384 ≤ length words.old }
        ensures { ScriptIs self.entry.nodes.file.now self.entry.nodes.header words.old words.new result }
    {
        words[0] = 0;
        let count = usize::from(self.nodes.node(0).arity);
        let mut next = 1;
        for _i in 0..count {
            let Some(end) = self.print(words, next, 0, STATEMENT) else {
                return false;
            };
            next = end;
            push(words, LINE);
        }
        true
    }
}
