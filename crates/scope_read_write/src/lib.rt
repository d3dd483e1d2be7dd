// scope.rs over the working words: reads and writes of identifiers, with row 9; marks.
#![tactic(auto)]

pub mod mark;

ghost use Rattle.std.specs.Prelude.{◌≡◌, true};
ghost use Rattle.def_pass.specs.Scope.{prevent_inline, add_read, add_write};
ghost use Rattle.words_scopes.specs.State.{Good, Becomes, stack};
ghost use Rattle.scope_values.specs.Steps.{Grown, GrownLate};
ghost use Rattle.scope_find.specs.Answers.{write_bound, write_free, write_to};
ghost use Rattle.scope_read_write.specs.Writes.{forced};

use mark::{count_read, prevent_inline_of_params};
use refusal::Refusal;
use scope_find::{has_constant, read_prevents_inlining, scope_for, write_prevents_inline};
use scope_values::room_for;
use words::layout;
use words_scopes::kinds::{VarDeclKind, VarType};
use words_scopes::{define, prevent_inline, push};

// How a name is written: it is prevented where the scopes say so, or in any case. Two cases with names, where a bool would say `force`.
#[derive(Clone, Copy, Debug, PartialEq, Eq)]
pub enum Write {
    Plain,
    Forced,
}

impl Write {
    // Is it prevented in any case.
    pub fn is_forced(self) -> bool
        ensures { result ≡ forced self }
    {
        matches!(self, Write::Forced)
    }
}

// x is read; `args`: its name is `arguments`.
pub fn add_read(w: &mut [u32], x: u8, args: bool)
    requires { Good w.old }
    ensures { Becomes w.old w.new (add_read x args (stack w.old)) }
{
    if read_prevents_inlining(w, x) {
        prevent_inline(w, x);
    }
    if args {
        prevent_inline_of_params(w);
    }
    count_read(w, x);
}

// x is bound: it becomes defined, and marked where the test says so. The test is an argument, as the definition's `write_bound` has it.
fn write_bound(w: &mut [u32], x: u8, far: bool)
    requires { Good w.old }
    ensures { Becomes w.old w.new (write_bound x far (stack w.old)) }
{
    define(w, x);
    if far {
        prevent_inline(w, x);
    }
}

// x is not bound: a new binding, unless it is a constant. Past the limit it is refused before it is stored.
fn write_free(w: &mut [u32], x: u8, how: Write) -> Result<(), Refusal>
    requires { Good w.old }
    ensures { Grown w.old w.new (write_free x (forced how) (stack w.old)) result }
{
    if has_constant(w, x) || w[layout::SCOPE_COUNT] == 0 {
        return Ok(());
    }
    room_for(w, 0, 0, 1)?;
    push(
        w,
        x,
        VarType::Declared(VarDeclKind::Var),
        None,
        how.is_forced(),
        false,
    );
    Ok(())
}

// What a write does behind its marks; `marked`: x and its aliases have just been marked, and are not marked again.
fn write_to(w: &mut [u32], x: u8, how: Write, marked: bool) -> Result<(), Refusal>
    requires { (Good w.old) × (marked ≡ true → prevent_inline x (stack w.old) ≡ stack w.old) }
    ensures { Grown w.old w.new (write_to x (forced how) (stack w.old)) result }
{
    let s = scope_for(w, x);
    if s.bound {
        let force = how.is_forced();
        let far = !s.current || force;
        write_bound(w, x, far && !marked);
        return Ok(());
    }
    write_free(w, x, how)
}

// x is written; `args`: its name is `arguments`. The marks come before the test of row 9: a refused write leaves them.
pub fn add_write(w: &mut [u32], x: u8, args: bool, how: Write) -> Result<(), Refusal>
    requires { Good w.old }
    ensures { GrownLate w.old w.new (add_write x args (forced how) (stack w.old)) result }
{
    let far = write_prevents_inline(w, x);
    if far {
        prevent_inline(w, x);
    }
    if args {
        prevent_inline_of_params(w);
    }
    write_to(w, x, how, far && !args)
}
