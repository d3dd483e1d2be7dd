// What the functions of the pass answer, in Rattle and in C.
#![tactic(auto)]

ghost use Rattle.std.specs.Prelude.{◌≡◌};
ghost use Rattle.pass_answers.specs.Entry.{inlined};
ghost use Rattle.pass_answers.specs.Roots.{counted, bound};

use pass_roots::Root;
use refusal::Refusal;

// The result's length, the runs done, and whether the last one left the mark.
#[derive(Clone, Copy, Debug, PartialEq, Eq)]
pub struct Done {
    pub length: usize,
    pub runs: u32,
    pub changed: bool,
}

// A refusal's number; or 0, the result's length, the runs done, and 1 if the last one left the mark. This and the two structs below have numbers for
// refusals and flags, and one form for all cases, since C reads them.
#[repr(C)]
#[derive(Clone, Copy, Debug, Default, PartialEq, Eq)]
pub struct Inlined {
    pub refused: u32,
    pub length: usize,
    pub runs: u32,
    pub changed: u32,
}

impl From<Result<Done, Refusal>> for Inlined {
    ghost from_gives = { λ x a. a ≡ inlined x };

    fn from(answer: Result<Done, Refusal>) -> Inlined {
        match answer {
            Ok(done) => Inlined {
                refused: 0,
                length: done.length,
                runs: done.runs,
                changed: u32::from(done.changed),
            },
            Err(refusal) => Inlined {
                refused: u32::from(refusal),
                ..Inlined::default()
            },
        }
    }
}

// A refusal's number; or 0, and how many root bindings there are.
#[repr(C)]
#[derive(Clone, Copy, Debug, Default, PartialEq, Eq)]
pub struct Roots {
    pub refused: u32,
    pub count: usize,
}

impl From<Result<usize, Refusal>> for Roots {
    ghost from_gives = { λ x a. a ≡ counted x };

    fn from(answer: Result<usize, Refusal>) -> Roots {
        match answer {
            Ok(count) => Roots { refused: 0, count },
            Err(refusal) => Roots {
                refused: u32::from(refusal),
                ..Roots::default()
            },
        }
    }
}

// A refusal's number; or 0, and 1 if there is a root binding of the number asked for: then its context, text number and prevented mark, and how
// often an identifier was replaced by its value.
#[repr(C)]
#[derive(Clone, Copy, Debug, Default, PartialEq, Eq)]
pub struct RootBinding {
    pub refused: u32,
    pub found: u32,
    pub context: u64,
    pub text: u32,
    pub prevented: u32,
    pub count: u32,
}

impl From<Result<Option<Root>, Refusal>> for RootBinding {
    ghost from_gives = { λ x a. a ≡ bound x };

    fn from(answer: Result<Option<Root>, Refusal>) -> RootBinding {
        match answer {
            Ok(Some(root)) => RootBinding {
                refused: 0,
                found: 1,
                context: root.context,
                text: root.text,
                prevented: u32::from(root.prevented),
                count: root.count,
            },
            Ok(None) => RootBinding::default(),
            Err(refusal) => RootBinding {
                refused: u32::from(refusal),
                ..RootBinding::default()
            },
        }
    }
}
