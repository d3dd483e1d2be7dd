// Why a call is refused, and the number of each refusal.
#![tactic(auto)]

ghost use Rattle.std.specs.Prelude.{◌≡◌};
ghost use Rattle.refusal.specs.Number.{number};

use std::fmt;

// Why a call is refused.
#[derive(Clone, Copy, Debug, PartialEq, Eq)]
pub enum Refusal {
    // Runs outside 1 to 16, or under 16,384 working words.
    Call,
    // Under 32 bytes, or a version that is not 1.
    Version,
    // A count outside its bounds.
    Counts,
    // An offset or a length that is not the sum of its parts.
    Layout,
    // Texts that do not stand one behind the other, or stand twice.
    Texts,
    // A node against the kinds.
    Nodes,
    // Over 256 identifiers.
    Idents,
    // Over 200 deep, over 32 scopes, or over 12 right sides.
    Depth,
    // Over 1,024 nodes, 512 recorded nodes, or 256 records.
    Room,
    // A result buffer that is too short.
    Buffer,
    // A text buffer that is too short.
    TextBuffer,
    // A script of which no text is the tree, or a name, a string or a number that no text has.
    NoText,
    // A lexical name that is declared twice in a scope, or by `var` or as a parameter too.
    Clash,
    // A lent kind table that is not 2,304 bytes, none above 1.
    Table,
    // A lent kind table that allows a pair that the constant one forbids.
    Pairs,
    // A buffer for a canonical file that is too short.
    CanonBuffer,
}

// The number of its row.
impl fmt::Display for Refusal {
    fn fmt<W: fmt::Write>(&self, f: &mut fmt::Formatter<W>) -> fmt::Result {
        write!(f, "{}", u32::from(*self))
    }
}

impl From<Refusal> for u32 {
    ghost from_gives = { λ r n. n ≡ number r };

    fn from(refusal: Refusal) -> u32 {
        match refusal {
            Refusal::Call => 1,
            Refusal::Version => 2,
            Refusal::Counts => 3,
            Refusal::Layout => 4,
            Refusal::Texts => 5,
            Refusal::Nodes => 6,
            Refusal::Idents => 7,
            Refusal::Depth => 8,
            Refusal::Room => 9,
            Refusal::Buffer => 10,
            Refusal::TextBuffer => 11,
            Refusal::NoText => 12,
            Refusal::Clash => 13,
            Refusal::Table => 14,
            Refusal::Pairs => 15,
            Refusal::CanonBuffer => 16,
        }
    }
}
