// The parts of a row, and what stands first in them.
ghost use Rattle.std.specs.Prelude.{◌≡◌, ℕ, ◌<◌};
ghost use Rattle.text_spots.specs.Spots.{next_of};
ghost use Rattle.text_parts.specs.Parts.{follow_parts, PartsFit};

use text_table::{Part, Style};
use text_words::word::{COMMA, NOTHING};

// The word that stands first in parts, each list in which has m children, and `next` where nothing stands there.
pub fn follow(parts: &[Part], m: usize, next: u8) -> u8
    requires { (k : ℕ) × PartsFit k parts.now }
    ensures { next_of result ≡ follow_parts m parts.now (next_of next) }
{
    for part in parts {
        match *part {
            Part::End => return next,
            Part::Word(w) => return w,
            Part::Own(_) => return NOTHING,
            Part::Kids(kids) => match kids.style {
                Style::One => return NOTHING,
                Style::Run | Style::Commas => {
                    if 0 < m {
                        return NOTHING;
                    }
                }
                Style::More => {
                    if 0 < m {
                        return COMMA;
                    }
                }
            },
            _ => {}
        }
    }
    next
}
