// The tree file of document 01: its nodes and their kinds. The crate `file_read` reads it, `file_write` writes it.
#![tactic(auto)]

ghost use Rattle.std.specs.Prelude.{◌≡◌};

pub mod form;
pub mod kind;
pub mod kinds;

// What tells identifiers apart.
#[derive(Clone, Copy, Debug, PartialEq, Eq)]
pub struct Ident {
    pub text: u32,
    pub context: u64,
}

// A node as the file holds it: the file's bytes, read before it is known that they are kinds and forms. `bits`: context or number.
#[derive(Clone, Copy, Debug, PartialEq, Eq)]
pub struct Raw {
    pub kind: u8,
    pub form: u8,
    pub arity: u16,
    pub text: u32,
    pub bits: u64,
}

impl Raw {
    // The number 0: what stands at node number 0.
    pub const ZERO: Raw = Raw {
        kind: 24,
        form: 0,
        arity: 0,
        text: 0,
        bits: 0,
    };

    // The identifier of a binding or an identifier.
    pub fn ident(self) -> Ident
        ensures { (result.text ≡ self.text) × (result.context ≡ self.bits) }
    {
        Ident {
            text: self.text,
            context: self.bits,
        }
    }
}
