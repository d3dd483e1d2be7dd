// The calls, by their numbers.
ghost use Rattle.words_nodes.specs.Nodes.{Planted};

use super::values::{node_of, value_of};
use refusal::Refusal;
use scope::{
    Init, Scope, ScopeKind, VarType, Write, add_const, add_read, add_write, close, declare,
    first_value, mark_this_sensitive, open_scope, prevent_inline, prevent_inline_of_params,
    record_value, store_inline_barrier,
};
use words_scopes::define;

// Opens a scope of kind m.
fn opens(w: &mut [u32], m: u8) -> Result<(), Refusal>
    requires { Planted w.old }
    ensures { Planted w.new }
{
    open_scope(w, Scope::new(ScopeKind::from_word(u32::from(m))))
}

// The init by value v and mark m: none for value 0, else recorded, or only seen.
fn init_of(v: u8, m: u8) -> Init {
    if v == 0 {
        return Init::NoInit;
    }
    let i = node_of(v);
    if m / 8 % 2 == 1 {
        return Init::Seen(i);
    }
    Init::Recorded(i)
}

// m: the type, and from bit 2 on whether it is undefined, whether its value is only seen, and whether it is flagged.
fn declares(w: &mut [u32], x: u8, v: u8, m: u8) -> Result<(), Refusal>
    requires { Planted w.old }
    ensures { Planted w.new }
{
    let kind = VarType::from_word(u32::from(m % 4));
    let undefined = m / 4 % 2 == 1;
    let again = m / 16 % 2 == 1;
    declare(w, again, x, init_of(v, m), undefined, kind)
}

// m: the name is `arguments`; the write is forced.
fn write(w: &mut [u32], x: u8, m: u8) -> Result<(), Refusal>
    requires { Planted w.old }
    ensures { Planted w.new }
{
    let how = if m / 2 % 2 == 1 {
        Write::Forced
    } else {
        Write::Plain
    };
    add_write(w, x, m % 2 == 1, how)
}

// The calls that are never refused, by their number, which is what a sequence gives.
fn mark(w: &mut [u32], c: u8, x: u8, m: u8)
    requires { Planted w.old }
    ensures { Planted w.new }
{
    match c {
        7 => {
            close(w);
        }
        8 => add_read(w, x, m % 2 == 1),
        9 => prevent_inline(w, x),
        10 => mark_this_sensitive(w, x),
        11 => store_inline_barrier(w),
        12 => prevent_inline_of_params(w),
        _ => define(w, x),
    }
}

// Call c, with identifier x, value v and mark m: by its number, which is what a sequence gives.
pub fn call(w: &mut [u32], c: u8, x: u8, v: u8, m: u8) -> Result<(), Refusal>
    requires { Planted w.old }
    ensures { Planted w.new }
{
    match c {
        1 => opens(w, m),
        2 => declares(w, x, v, m),
        3 => write(w, x, m),
        4 => record_value(w, x, value_of(v)),
        5 => first_value(w, x, value_of(v)),
        6 => add_const(w, x, value_of(v)),
        _ => {
            mark(w, c, x, m);
            Ok(())
        }
    }
}
