// The scopes in the words printed, root first, and then what the look-ups answer.
ghost use Rattle.std.specs.Prelude.{◌≤◌};
ghost use Rattle.words_nodes.specs.Nodes.{Planted};

use refusal::Refusal;
use scope::{
    find_binding, find_binding_from_current, find_constant, has_constant, has_same_this,
    ident_prevented, idx_val, is_inline_prevented, read_cnt, read_prevents_inlining, scope_for,
    should_prevent_inline_because_of_scope, var_inline_prevented, write_prevents_inline,
};
use scope_find::{bound_here, in_loop};
use scope_values::{live, recorded_nodes, stops_at};
use std::{fmt, io};
use words::layout::{self, Table};
use words_scopes::find_by_walk;

// A word of the line, with a space before it.
fn put<D: fmt::Display + Drop>(rt: &impl Print, d: D) -> io::Result<()> {
    print!(rt; " {d}")
}

// 1 for yes, 0 for no.
fn put_bool(rt: &impl Print, b: bool) -> io::Result<()> {
    put(rt, u32::from(b))
}

// A number from 0 on: 1 more, 0 for none.
fn put_place(rt: &impl Print, k: Option<usize>) -> io::Result<()> {
    put(rt, k.map_or(0, |k| k.wrapping_add(1)))
}

// A number: 1 and the number, 0 for none.
fn put_some<D: fmt::Display + Drop>(rt: &impl Print, n: Option<D>) -> io::Result<()> {
    match n {
        None => put(rt, 0),
        Some(n) => {
            put(rt, 1)?;
            put(rt, n)
        }
    }
}

// Word i, to be printed; 0 past the end, which no table of a state in order reaches, so that it is no sign of absence.
fn word(w: &[u32], i: usize) -> u32 {
    w.get(i).copied().unwrap_or(0)
}

const SCOPE_TABLE: Table = Table {
    base: layout::SCOPES,
    stride: 4,
};

const VALUE_TABLE: Table = Table {
    base: layout::VALUES,
    stride: 2,
};

const CONSTANT_VALUE_TABLE: Table = Table {
    base: layout::CONSTANT_VALUES,
    stride: 2,
};

// Word f of record k of a table; past the end too, where the sum is past all numbers.
fn field(w: &[u32], t: Table, k: u32, f: usize) -> u32 {
    let at = t.stride.saturating_mul(k as usize).saturating_add(t.base);
    word(w, at.saturating_add(f))
}

// The n nodes of a value from node `at` on: kinds and numbers, as the words have them. That they stand there, as `node_at` of words asks, is not
// known here.
fn show_value(rt: &impl Print, w: &[u32], store: Table, at: u32, n: u32) -> io::Result<()> {
    put(rt, n)?;
    for j in 0..n {
        let k = at.wrapping_add(j);
        put(rt, field(w, store, k, 0) % 64)?;
        put(rt, field(w, store, k, 1))?;
    }
    Ok(())
}

// Binding k, whose value begins at node `at`; where the next one's begins.
fn show_binding(rt: &impl Print, w: &[u32], k: u32, at: u32) -> io::Result<u32> {
    put(rt, 'b')?;
    for f in [0, layout::KIND, layout::ALIAS, layout::READS] {
        put(rt, field(w, layout::BINDING_TABLE, k, f))?;
    }
    for f in [
        layout::PREVENTED,
        layout::UNDEFINED,
        layout::SENSITIVE,
        layout::HOISTED,
        layout::BARRIER,
    ] {
        put_bool(rt, field(w, layout::BINDING_TABLE, k, f) != 0)?;
    }
    let n = field(w, layout::BINDING_TABLE, k, layout::LENGTH);
    show_value(rt, w, VALUE_TABLE, at, n)?;
    Ok(at.wrapping_add(n))
}

fn show_bindings(rt: &impl Print, w: &[u32], a: u32, e: u32, at: u32) -> io::Result<u32> {
    let mut p = at;
    for k in a..e {
        p = show_binding(rt, w, k, p)?;
    }
    Ok(p)
}

fn show_consts(rt: &impl Print, w: &[u32], a: u32, e: u32, at: u32) -> io::Result<u32> {
    let mut p = at;
    for k in a..e {
        put(rt, 'c')?;
        put(rt, field(w, layout::CONSTANT_TABLE, k, 0))?;
        let n = field(w, layout::CONSTANT_TABLE, k, layout::CONSTANT_LENGTH);
        show_value(rt, w, CONSTANT_VALUE_TABLE, p, n)?;
        p = p.wrapping_add(n);
    }
    Ok(p)
}

// Which of the first four identifiers are unresolved in scope k.
fn show_unresolved(rt: &impl Print, w: &[u32], k: u32) -> io::Result<()> {
    put(rt, 'u')?;
    for x in 0..4u32 {
        put_bool(
            rt,
            word(w, layout::UNRESOLVED + k as usize * 8) >> x & 1 != 0,
        )?;
    }
    Ok(())
}

// Where the records of scope k end; f is the field with their beginning, and `count` the word with the number of all.
fn end_of(w: &[u32], k: u32, f: usize, count: usize) -> u32 {
    let next = k.wrapping_add(1);
    if next < word(w, layout::SCOPE_COUNT) {
        return field(w, SCOPE_TABLE, next, f);
    }
    word(w, count)
}

fn show_scopes(rt: &impl Print, w: &[u32]) -> io::Result<()> {
    let mut at: u32 = 0;
    let mut cat: u32 = 0;
    for k in 0..word(w, layout::SCOPE_COUNT) {
        put(rt, 's')?;
        put(rt, field(w, SCOPE_TABLE, k, 0))?;
        put_bool(rt, field(w, SCOPE_TABLE, k, layout::FIRST_BARRIER) != 0)?;
        let a = field(w, SCOPE_TABLE, k, layout::FIRST_BINDING);
        let e = end_of(w, k, layout::FIRST_BINDING, layout::BINDING_COUNT);
        at = show_bindings(rt, w, a, e, at)?;
        let c = field(w, SCOPE_TABLE, k, layout::FIRST_CONSTANT);
        let d = end_of(w, k, layout::FIRST_CONSTANT, layout::CONSTANT_COUNT);
        cat = show_consts(rt, w, c, d, cat)?;
        show_unresolved(rt, w, k)?;
    }
    Ok(())
}

// What is asked of the innermost binding of x.
fn show_found(rt: &impl Print, w: &[u32], x: u8) -> io::Result<()>
    requires { Planted w.now }
{
    put_some(rt, read_cnt(w, x))?;
    if let Some(b) = find_binding(w, x) {
        put_bool(rt, var_inline_prevented(w, b))?;
    }
    put_bool(rt, find_binding_from_current(w, x).is_some())?;
    put_place(rt, idx_val(w, x))?;
    put_bool(rt, ident_prevented(w, x))
}

// What is asked of the constants of x, and of its scope.
fn show_scope_of(rt: &impl Print, w: &[u32], x: u8) -> io::Result<()>
    requires { Planted w.now }
{
    // Twice: the tables of what is printed have two columns for it.
    let constant = has_constant(w, x);
    put_bool(rt, constant)?;
    put_bool(rt, constant)?;
    put(rt, find_constant(w, x).unwrap_or(0))?;
    let s = scope_for(w, x);
    put_bool(rt, s.bound)?;
    put_bool(rt, s.current)
}

fn show_look(rt: &impl Print, w: &[u32], x: u8) -> io::Result<()>
    requires { Planted w.now }
{
    put(rt, 'x')?;
    show_found(rt, w, x)?;
    show_scope_of(rt, w, x)?;
    put_bool(rt, write_prevents_inline(w, x))?;
    put_bool(rt, read_prevents_inlining(w, x))?;
    put_bool(rt, should_prevent_inline_because_of_scope(w, x))?;
    put_bool(rt, has_same_this(w, x, 1))?;
    put_bool(rt, has_same_this(w, x, 4))
}

// After how many scopes n nodes and those recorded are more than row 9 allows, if ever.
fn show_stop(rt: &impl Print, w: &[u32], n: usize) -> io::Result<()>
    requires { (Planted w.now) × (n ≤ 1024) }
{
    put_some(rt, stops_at(w, n))
}

fn show_stops(rt: &impl Print, w: &[u32]) -> io::Result<()>
    requires { Planted w.now }
{
    put(rt, 'o')?;
    for n in [100, 500, 512, 513] {
        show_stop(rt, w, n)?;
    }
    Ok(())
}

fn show_counts(rt: &impl Print, w: &[u32]) -> io::Result<()>
    requires { Planted w.now }
{
    put(rt, 'n')?;
    put_bool(rt, in_loop(w))?;
    put(rt, bound_here(w))?;
    put(rt, recorded_nodes(w))?;
    put(rt, live(w))?;
    for i in [1, 3, 4, 6, 9] {
        put_bool(rt, is_inline_prevented(w, i))?;
    }
    Ok(())
}

// Where the innermost binding of x is, by the index and by a walk.
fn put_places(rt: &impl Print, w: &[u32], x: u8) -> io::Result<()>
    requires { Planted w.now }
{
    put_place(rt, words_scopes::find_binding(w, x))?;
    put_place(rt, find_by_walk(w, x))
}

// The same of the first four identifiers, and of each binding's.
fn show_places(rt: &impl Print, w: &[u32]) -> io::Result<()>
    requires { Planted w.now }
{
    put(rt, 'p')?;
    for x in 0..4 {
        put_places(rt, w, x)?;
    }
    for k in 0..word(w, layout::BINDING_COUNT) {
        put_places(rt, w, (field(w, layout::BINDING_TABLE, k, 0) % 256) as u8)?;
    }
    Ok(())
}

// Do index and walk place every identifier alike; no, if they did not before.
pub fn alike(w: &[u32], before: bool) -> bool
    requires { Planted w.now }
{
    before && (0..=255).all(|x| words_scopes::find_binding(w, x) == find_by_walk(w, x))
}

fn show_all(rt: &impl Print, w: &[u32]) -> io::Result<()>
    requires { Planted w.now }
{
    show_scopes(rt, w)?;
    for x in 0..4 {
        show_look(rt, w, x)?;
    }
    show_counts(rt, w)?;
    show_stops(rt, w)?;
    show_places(rt, w)
}

// A line: the number of a refusal, or the scopes; and whether index and walk were alike after each call.
pub fn show(rt: &impl Print, w: &[u32], done: Result<(), Refusal>, same: bool) -> io::Result<()>
    requires { Planted w.now }
{
    match done {
        Ok(()) => {
            rt.print("scopes")?;
            show_all(rt, w)?;
        }
        Err(refusal) => print!(rt; "refused {refusal}")?,
    }
    put(rt, 'i')?;
    put_bool(rt, same)?;
    rt.println("")
}
