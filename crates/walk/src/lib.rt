// mod.rs: its walks over the tree's nodes in the working words. They call each other in a cycle.
// depth, below: the depth of a node, and the levels left below it; levels: these and its own; n, node: n trees from the node on. Parameters and no
// struct: each of them changes alone from call to call (depth + 1, below - 1, node by a subtree's length, n - 1), so that a struct would be made anew at
// each call. The definition (crates/laws_flat/specs/WalkF.antt) has p for the depth, l and d for the levels, and i for the node.
// The levels fall in three functions, each of which refuses by 8 where none is left: `full` hands levels - 1 to `ident`, `own` and `after`, `arm` hands
// below - 1 to `own`, and `params` hands below - 1 to `body`. `program` begins with LEVELS and takes one for the root. All others hand on the levels that
// they have, and the line over each says as what.
#![tactic(auto)]

ghost use Rattle.std.specs.Prelude.{◌+◌, ◌≡◌, true};
ghost use Rattle.std.proofs.Math.Option.{some};
ghost use Rattle.def_tree.specs.Combine.{many, split_f, each_but_f, skip, tree_at};
ghost use Rattle.def_tree.specs.Tree.{count};
ghost use Rattle.def_file.specs.declared.kind.Kind.TheVariants.{Ident};
ghost use Rattle.def_file.specs.Named.{number_of};
ghost use Rattle.words.specs.Layout.{node_of, tree};
ghost use Rattle.words_nodes.specs.Nodes.{Planted, tree_from};
ghost use Rattle.words_scopes.specs.Kinds.{kind_of};
ghost use Rattle.def_pass.specs.Scope.{loop};
ghost use Rattle.laws_flat.specs.WalkF.{walks_f, visit_mut_stmts_f, plain_f, visit_mut_block_stmt_f, script_f, visit_with_child_f, visit_mut_var_decl_f, visit_mut_function_f, visit_mut_fn_decl_f, visit_mut_fn_expr_f, visit_mut_arrow_expr_f, visit_mut_if_stmt_f, visit_mut_while_stmt_f, visit_mut_for_stmt_f, visit_mut_for_in_stmt_f, visit_mut_try_stmt_f, catch_param_f, visit_mut_catch_clause_f, visit_mut_switch_case_f, visit_mut_pat_f, visit_mut_unary_expr_f, visit_mut_update_expr_f, visit_mut_call_expr_f, visit_mut_assign_expr_f, own_f, logical_f, after_f, in_cond_f, name_last_f, visit_mut_var_declarator_f, after_ident_f};
ghost use Rattle.words_state.specs.State.{abs, rest};
ghost use Rattle.walk_laws.specs.Did.{Did, Here, clauses_f, items_f, declr_end_f, Bound};

use def_file::form;
use def_file::kind::Kind;
use refusal::Refusal;
use scope::{ScopeKind, Write, name_at};
use walk_answer::steps::{bare, decl_kind, leaf, nameless, settled, to_pattern};
use walk_declarator::{Declr, Spot, declr_after, over, stays};
use walk_ident::assign::after_assign;
use walk_ident::{
    Found, constant, deeper, enter, fate, ident_analysis, inline_constant, inline_undefined,
    inline_value, leave,
};
use walk_write::assign::{assign_first, assign_last};
use walk_write::declared::{declare_name, pat_step};
use walk_write::{
    mark_callee, mark_caught, store_barrier, write_args, write_but_last, write_kids,
    write_kids_but_last, write_name, write_tree,
};
use words::{arity_at, form_at, kind_at, layout};
use words_nodes::skip;
use words_state::{
    PatFoldingMode, in_test, inlining, save_fields, set_conds, set_in_test, set_inlining,
    set_pat_mode, set_var_decl_kind, var_decl_kind,
};

// A node as its parent's default walk calls it: its own handler, then the steps of visit_mut_expr; what has neither is passed at once.
#[cycle(walks)]
fn full(w: &mut [u32], depth: usize, levels: usize, node: usize) -> Result<usize, Refusal>
    requires { Here w.old 1 node depth levels }
    ensures { Did w.old w.new result ((walks_f levels).full depth node (abs w.old)) }
{
    if levels == 0 {
        return Err(Refusal::Depth);
    }
    if bare(w, node) {
        return match kind_at(w, node) {
            Kind::Ident => ident(w, depth, levels - 1, node),
            _ => Ok(node + 1),
        };
    }
    if leaf(w, node) {
        return Ok(node + 1);
    }
    let j = own(w, depth, levels - 1, node)?;
    if settled(w, node) {
        return Ok(j);
    }
    after(w, depth, levels - 1, node, j)
}

// visit_mut_children_with of a list: n trees from the node on. It and arms, parts, binds and conds are loops that differ in their step, and block, arm,
// func, arrow, catch and case differ in the walk between `enter` and `leave`. Tried with a closure for the step: in a cycle of calls it is a member
// with a measure, nothing of it is inferred, so that it repeats the clauses of the walk that it calls, and what takes it can promise a chain of its
// calls alone. Five lines would be six, with a second contract.
// Hands on the levels: a loop over the nodes of a list, for each of which `full` takes one.
#[cycle(walks)]
fn many(w: &mut [u32], depth: usize, below: usize, n: usize, node: usize) -> Result<usize, Refusal>
    requires { Here w.old n node depth below }
    ensures { Did w.old w.new result (many ((walks_f below).full depth) n node (abs w.old)) }
{
    let mut at = node;
    for _k in 0..n {
        at = full(w, depth, below, at)?;
    }
    Ok(at)
}

// visit_mut_stmts: plainly in Analysis; in Inlining both ways.
// Hands on the levels: a part of its list's walk, one way or both.
#[cycle(walks)]
fn stmts(w: &mut [u32], depth: usize, below: usize, n: usize, node: usize) -> Result<usize, Refusal>
    requires { Here w.old n node depth below }
    ensures { Did w.old w.new result (visit_mut_stmts_f (walks_f below) depth n node (abs w.old)) }
{
    if !inlining(w) {
        return many(w, depth, below, n, node);
    }
    set_inlining(w, false);
    many(w, depth, below, n, node)?;
    set_inlining(w, true);
    many(w, depth, below, n, node)
}

// The statements of a script, or of a function's body. `body` and `kids`, `params` and `loops` differ in the member of the cycle that they call: one
// over both would take it as a closure, which would be a member itself, with a measure.
// Hands on the levels: a part of its node's walk.
#[cycle(walks)]
fn body(w: &mut [u32], depth: usize, below: usize, node: usize) -> Result<usize, Refusal>
    requires { Here w.old 1 node depth (below + 1) }
    ensures { Did w.old w.new result (script_f (walks_f below) depth node (abs w.old)) }
{
    let n = arity_at(w, node) as usize;
    stmts(w, depth + 1, below, n, node + 1)
}

// visit_mut_children_with.
// Hands on the levels: a part of its node's walk.
#[cycle(walks)]
fn kids(w: &mut [u32], depth: usize, below: usize, node: usize) -> Result<usize, Refusal>
    requires { Here w.old 1 node depth (below + 1) }
    ensures { Did w.old w.new result (plain_f (walks_f below) depth node (abs w.old)) }
{
    let n = arity_at(w, node) as usize;
    many(w, depth + 1, below, n, node + 1)
}

// visit_mut_block_stmt.
// Hands on the levels: its node's walk, for which `full` or `arm` took one.
#[cycle(walks)]
fn block(w: &mut [u32], depth: usize, below: usize, node: usize) -> Result<usize, Refusal>
    requires { Here w.old 1 node depth (below + 1) }
    ensures { Did w.old w.new result (visit_mut_block_stmt_f (walks_f below) depth node (abs w.old)) }
{
    let before = save_fields(w);
    enter(w, ScopeKind::Block)?;
    let j = body(w, depth, below, node)?;
    leave(w, before);
    Ok(j)
}

// visit_with_child.
#[cycle(walks)]
fn arm(
    w: &mut [u32],
    depth: usize,
    below: usize,
    kind: ScopeKind,
    node: usize,
) -> Result<usize, Refusal>
    requires { Here w.old 1 node depth below }
    ensures { Did w.old w.new result (visit_with_child_f (walks_f below) depth (kind_of kind) node (abs w.old)) }
{
    let before = save_fields(w);
    enter(w, kind)?;
    if below == 0 {
        return Err(Refusal::Depth);
    }
    let j = own(w, depth, below - 1, node)?;
    leave(w, before);
    Ok(j)
}

// visit_with_child of each of a list.
// Hands on the levels: a loop over the nodes of a list, for each of which `arm` takes one.
#[cycle(walks)]
fn arms(
    w: &mut [u32],
    depth: usize,
    below: usize,
    kind: ScopeKind,
    n: usize,
    node: usize,
) -> Result<usize, Refusal>
    requires { Here w.old n node depth below }
    ensures { Did w.old w.new result (many (visit_with_child_f (walks_f below) depth (kind_of kind)) n node (abs w.old)) }
{
    let mut at = node;
    for _k in 0..n {
        at = arm(w, depth, below, kind, at)?;
    }
    Ok(at)
}

// visit_mut_var_decl.
// Hands on the levels: its node's walk, for which `full` or `arm` took one.
#[cycle(walks)]
fn decl(w: &mut [u32], depth: usize, below: usize, node: usize) -> Result<usize, Refusal>
    requires { Here w.old 1 node depth (below + 1) }
    ensures { Did w.old w.new result (visit_mut_var_decl_f (walks_f below) depth node (abs w.old)) }
{
    let f = form_at(w, node);
    set_var_decl_kind(w, decl_kind(f));
    kids(w, depth, below, node)
}

// A declarator's name is walked last; what stands behind it is left.
// Hands on the levels: a part of the declarator's walk.
#[cycle(walks)]
fn name(w: &mut [u32], depth: usize, below: usize, n: usize, node: usize) -> Result<usize, Refusal>
    requires { (Here w.old 1 node depth (below + 1)) × (n ≡ (node_of w.old node).arity) }
    ensures { Did w.old w.new result (name_last_f (walks_f below) depth n (node + 1) (abs w.old)) }
{
    if n == 0 {
        return Ok(node + 1);
    }
    full(w, depth + 1, below, node + 1)?;
    Ok(skip(w, node))
}

// A declarator in Inlining: its initialiser is walked again, and recorded or not.
// Hands on the levels: a part of the declarator's walk.
#[cycle(walks)]
fn init(w: &mut [u32], depth: usize, below: usize, n: usize, node: usize) -> Result<usize, Refusal>
    requires { (Here w.old 1 node depth (below + 1)) × (n ≡ (node_of w.old node).arity) × (Bound w.old n (node + 1)) }
    ensures { Did w.old w.new result (declr_end_f (walks_f below) depth node (some (tree_at (abs w.old) (node + 1))) true (rest w.old).var_decl_kind n (node + 1) (abs w.old)) }
{
    let kind = var_decl_kind(w);
    if kind.is_const() {
        return name(w, depth, below, n, node);
    }
    let bound = name_at(w, node + 1);
    let declared = Declr { name: bound, kind };
    let j = skip(w, node + 1);
    if stays(w, bound.ident, n - 1, j) {
        return Ok(skip(w, node));
    }
    if n == 1 {
        return declr_after(
            w,
            declared,
            Spot {
                q: node,
                n: 0,
                i: j,
                j,
            },
        );
    }
    full(w, depth + 1, below, j)?;
    let end = skip(w, node);
    declr_after(
        w,
        declared,
        Spot {
            q: node,
            n: n - 1,
            i: j,
            j: end,
        },
    )
}

// visit_mut_var_declarator.
// Hands on the levels: its node's walk, for which `full` or `arm` took one.
#[cycle(walks)]
fn declr(w: &mut [u32], depth: usize, below: usize, node: usize) -> Result<usize, Refusal>
    requires { Here w.old 1 node depth (below + 1) }
    ensures { Did w.old w.new result (visit_mut_var_declarator_f (walks_f below) depth node (abs w.old)) }
{
    let n = arity_at(w, node) as usize;
    tail(w, depth + 1, below, n, node + 1)?;
    set_pat_mode(w, PatFoldingMode::VarDecl);
    if nameless(w, n, node + 1) {
        return name(w, depth, below, n, node);
    }
    if inlining(w) {
        return init(w, depth, below, n, node);
    }
    let bound = name_at(w, node + 1);
    let gone = over(w, bound, n, node + 1)?;
    if gone {
        return Ok(skip(w, node));
    }
    name(w, depth, below, n, node)
}

// visit_mut_function: its parameters and its body.
#[cycle(walks)]
fn params(
    w: &mut [u32],
    depth: usize,
    below: usize,
    n: usize,
    node: usize,
) -> Result<usize, Refusal>
    requires { Here w.old n node depth below }
    ensures { Did w.old w.new result (each_but_f ((walks_f below).full depth) ((walks_f below).inner depth) n node (abs w.old)) }
{
    if n == 0 {
        return Ok(node);
    }
    let j = many(w, depth, below, n - 1, node)?;
    if below == 0 {
        return Err(Refusal::Depth);
    }
    body(w, depth, below - 1, j)
}

// visit_mut_function.
// Hands on the levels: a part of a function's walk.
#[cycle(walks)]
fn func(
    w: &mut [u32],
    depth: usize,
    below: usize,
    named: bool,
    n: usize,
    node: usize,
) -> Result<usize, Refusal>
    requires { Here w.old n node (depth + 1) below }
    ensures { Did w.old w.new result (visit_mut_function_f (walks_f below) depth named n node (abs w.old)) }
{
    let before = save_fields(w);
    enter(w, ScopeKind::Fn { named })?;
    set_pat_mode(w, PatFoldingMode::Param);
    let j = params(w, depth + 1, below, n, node)?;
    leave(w, before);
    Ok(j)
}

// visit_mut_fn_decl.
// Hands on the levels: its node's walk, for which `full` or `arm` took one.
#[cycle(walks)]
fn fdecl(w: &mut [u32], depth: usize, below: usize, node: usize) -> Result<usize, Refusal>
    requires { Here w.old 1 node depth (below + 1) }
    ensures { Did w.old w.new result (visit_mut_fn_decl_f (walks_f below) depth node (abs w.old)) }
{
    declare_name(w, node)?;
    let n = arity_at(w, node) as usize;
    if n == 0 {
        return Ok(node + 1);
    }
    let j = skip(w, node + 1);
    func(w, depth, below, true, n - 1, j)
}

// visit_mut_fn_expr.
// Hands on the levels: its node's walk, for which `full` or `arm` took one.
#[cycle(walks)]
fn fexpr(w: &mut [u32], depth: usize, below: usize, node: usize) -> Result<usize, Refusal>
    requires { Here w.old 1 node depth (below + 1) }
    ensures { Did w.old w.new result (visit_mut_fn_expr_f (walks_f below) depth node (abs w.old)) }
{
    let n = arity_at(w, node) as usize;
    let f = form_at(w, node);
    if f != form::NAMED {
        return func(w, depth, below, false, n, node + 1);
    }
    write_name(w, node)?;
    if n == 0 {
        return Ok(node + 1);
    }
    let j = skip(w, node + 1);
    func(w, depth, below, false, n - 1, j)
}

// visit_mut_arrow_expr.
// Hands on the levels: its node's walk, for which `full` or `arm` took one.
#[cycle(walks)]
fn arrow(w: &mut [u32], depth: usize, below: usize, node: usize) -> Result<usize, Refusal>
    requires { Here w.old 1 node depth (below + 1) }
    ensures { Did w.old w.new result (visit_mut_arrow_expr_f (walks_f below) depth node (abs w.old)) }
{
    let before = save_fields(w);
    enter(w, ScopeKind::Fn { named: false })?;
    let j = kids(w, depth, below, node)?;
    leave(w, before);
    Ok(j)
}

// visit_mut_if_stmt.
// Hands on the levels: its node's walk, for which `full` or `arm` took one.
#[cycle(walks)]
fn ifs(w: &mut [u32], depth: usize, below: usize, node: usize) -> Result<usize, Refusal>
    requires { Here w.old 1 node depth (below + 1) }
    ensures { Did w.old w.new result (visit_mut_if_stmt_f (walks_f below) depth node (abs w.old)) }
{
    let n = arity_at(w, node) as usize;
    if n == 0 {
        return Ok(node + 1);
    }
    let old = in_test(w);
    set_in_test(w, true);
    let j = full(w, depth + 1, below, node + 1)?;
    set_in_test(w, old);
    arms(w, depth + 1, below, ScopeKind::Cond, n - 1, j)
}

// What stands before a loop's body, and the body as a child.
// Hands on the levels: a part of a loop's walk; for the body `arm` takes one.
#[cycle(walks)]
fn loops(w: &mut [u32], depth: usize, below: usize, n: usize, node: usize) -> Result<usize, Refusal>
    requires { Here w.old n node depth below }
    ensures { Did w.old w.new result (each_but_f ((walks_f below).full depth) (visit_with_child_f (walks_f below) depth loop) n node (abs w.old)) }
{
    if n == 0 {
        return Ok(node);
    }
    let j = many(w, depth, below, n - 1, node)?;
    arm(w, depth, below, ScopeKind::Loop, j)
}

// visit_mut_while_stmt and visit_mut_do_while_stmt.
// Hands on the levels: its node's walk, for which `full` or `arm` took one.
#[cycle(walks)]
fn whiles(w: &mut [u32], depth: usize, below: usize, node: usize) -> Result<usize, Refusal>
    requires { Here w.old 1 node depth (below + 1) }
    ensures { Did w.old w.new result (visit_mut_while_stmt_f (walks_f below) depth node (abs w.old)) }
{
    write_kids_but_last(w, node)?;
    let n = arity_at(w, node) as usize;
    loops(w, depth + 1, below, n, node + 1)
}

// visit_mut_for_stmt.
// Hands on the levels: its node's walk, for which `full` or `arm` took one.
#[cycle(walks)]
fn fors(w: &mut [u32], depth: usize, below: usize, node: usize) -> Result<usize, Refusal>
    requires { Here w.old 1 node depth (below + 1) }
    ensures { Did w.old w.new result (visit_mut_for_stmt_f (walks_f below) depth node (abs w.old)) }
{
    write_kids_but_last(w, node)?;
    let f = form_at(w, node);
    let n = arity_at(w, node) as usize;
    let j = loops(w, depth + 1, below, n, node + 1)?;
    if f == form::EMPTY_HEAD {
        store_barrier(w);
    }
    Ok(j)
}

// visit_mut_for_in_stmt and visit_mut_for_of_stmt.
// Hands on the levels: its node's walk, for which `full` or `arm` took one.
#[cycle(walks)]
fn forin(w: &mut [u32], depth: usize, below: usize, node: usize) -> Result<usize, Refusal>
    requires { Here w.old 1 node depth (below + 1) }
    ensures { Did w.old w.new result (visit_mut_for_in_stmt_f (walks_f below) depth node (abs w.old)) }
{
    set_pat_mode(w, PatFoldingMode::Param);
    let n = arity_at(w, node) as usize;
    if n == 0 {
        return Ok(node + 1);
    }
    let j = full(w, depth + 1, below, node + 1)?;
    write_tree(w, node + 1, Write::Forced)?;
    write_but_last(w, n - 1, j, Write::Forced)?;
    loops(w, depth + 1, below, n - 1, j)
}

// The parts of a try statement behind its block.
// Hands on the levels: a loop over the nodes of a list, for each of which `full` takes one.
#[cycle(walks)]
fn parts(w: &mut [u32], depth: usize, below: usize, n: usize, node: usize) -> Result<usize, Refusal>
    requires { Here w.old n node depth below }
    ensures { Did w.old w.new result (clauses_f (walks_f below) depth n node (abs w.old)) }
{
    let mut at = node;
    for _k in 0..n {
        at = match kind_at(w, at) {
            Kind::CatchClause => full(w, depth, below, at)?,
            _ => skip(w, at),
        };
    }
    Ok(at)
}

// visit_mut_try_stmt.
// Hands on the levels: its node's walk, for which `full` or `arm` took one.
#[cycle(walks)]
fn tries(w: &mut [u32], depth: usize, below: usize, node: usize) -> Result<usize, Refusal>
    requires { Here w.old 1 node depth (below + 1) }
    ensures { Did w.old w.new result (visit_mut_try_stmt_f (walks_f below) depth node (abs w.old)) }
{
    let n = arity_at(w, node) as usize;
    if n == 0 {
        return Ok(node + 1);
    }
    write_tree(w, node + 1, Write::Forced)?;
    let j = skip(w, node + 1);
    parts(w, depth + 1, below, n - 1, j)
}

// The parameters of a catch clause.
// Hands on the levels: a loop over the nodes of a list, for each of which `full` takes one.
#[cycle(walks)]
fn binds(w: &mut [u32], depth: usize, below: usize, n: usize, node: usize) -> Result<usize, Refusal>
    requires { Here w.old n node depth below }
    ensures { Did w.old w.new result (many (catch_param_f (walks_f below) depth) n node (abs w.old)) }
{
    let mut at = node;
    for _k in 0..n {
        let j = full(w, depth, below, at)?;
        mark_caught(w, at);
        at = j;
    }
    Ok(at)
}

// visit_mut_catch_clause.
// Hands on the levels: its node's walk, for which `full` or `arm` took one.
#[cycle(walks)]
fn catch(w: &mut [u32], depth: usize, below: usize, node: usize) -> Result<usize, Refusal>
    requires { Here w.old 1 node depth (below + 1) }
    ensures { Did w.old w.new result (visit_mut_catch_clause_f (walks_f below) depth node (abs w.old)) }
{
    let before = save_fields(w);
    enter(w, ScopeKind::Block)?;
    set_pat_mode(w, PatFoldingMode::CatchParam);
    let n = arity_at(w, node) as usize;
    if n == 0 {
        leave(w, before);
        return Ok(node + 1);
    }
    let j = binds(w, depth + 1, below, n - 1, node + 1)?;
    let end = full(w, depth + 1, below, j)?;
    leave(w, before);
    Ok(end)
}

// A switch case's test and statements.
// Hands on the levels: a part of the case's walk.
#[cycle(walks)]
fn items(w: &mut [u32], depth: usize, below: usize, node: usize) -> Result<usize, Refusal>
    requires { Here w.old 1 node depth (below + 1) }
    ensures { Did w.old w.new result (items_f (walks_f below) depth node (abs w.old)) }
{
    let f = form_at(w, node);
    if f != form::TEST {
        return body(w, depth, below, node);
    }
    let n = arity_at(w, node) as usize;
    if n == 0 {
        return Ok(node + 1);
    }
    let j = full(w, depth + 1, below, node + 1)?;
    stmts(w, depth + 1, below, n - 1, j)
}

// visit_mut_switch_case.
// Hands on the levels: its node's walk, for which `full` or `arm` took one.
#[cycle(walks)]
fn case(w: &mut [u32], depth: usize, below: usize, node: usize) -> Result<usize, Refusal>
    requires { Here w.old 1 node depth (below + 1) }
    ensures { Did w.old w.new result (visit_mut_switch_case_f (walks_f below) depth node (abs w.old)) }
{
    let before = save_fields(w);
    enter(w, ScopeKind::Block)?;
    let j = items(w, depth, below, node)?;
    leave(w, before);
    Ok(j)
}

// visit_mut_pat.
// Hands on no levels: it walks no node.
fn pats(w: &mut [u32], depth: usize, below: usize, node: usize) -> Result<usize, Refusal>
    requires { Here w.old 1 node depth (below + 1) }
    ensures { Did w.old w.new result (visit_mut_pat_f (walks_f below) depth node (abs w.old)) }
{
    pat_step(w, node)?;
    Ok(skip(w, node))
}

// visit_mut_update_expr.
// Hands on no levels: it walks no node.
fn update(w: &mut [u32], depth: usize, below: usize, node: usize) -> Result<usize, Refusal>
    requires { Here w.old 1 node depth (below + 1) }
    ensures { Did w.old w.new result (visit_mut_update_expr_f (walks_f below) depth node (abs w.old)) }
{
    write_kids(w, node)?;
    Ok(skip(w, node))
}

// visit_mut_unary_expr: delete writes.
// Hands on the levels: its node's walk, for which `full` or `arm` took one.
#[cycle(walks)]
fn unary(w: &mut [u32], depth: usize, below: usize, node: usize) -> Result<usize, Refusal>
    requires { Here w.old 1 node depth (below + 1) }
    ensures { Did w.old w.new result (visit_mut_unary_expr_f (walks_f below) depth node (abs w.old)) }
{
    let f = form_at(w, node);
    if f != form::DELETE {
        return kids(w, depth, below, node);
    }
    update(w, depth, below, node)
}

// visit_mut_call_expr and visit_mut_new_expr.
// Hands on the levels: its node's walk, for which `full` or `arm` took one.
#[cycle(walks)]
fn call(
    w: &mut [u32],
    depth: usize,
    below: usize,
    called: bool,
    node: usize,
) -> Result<usize, Refusal>
    requires { Here w.old 1 node depth (below + 1) }
    ensures { Did w.old w.new result (visit_mut_call_expr_f called (walks_f below) depth node (abs w.old)) }
{
    let n = arity_at(w, node) as usize;
    if n == 0 {
        store_barrier(w);
        return Ok(node + 1);
    }
    let j = full(w, depth + 1, below, node + 1)?;
    mark_callee(w, node + 1);
    write_args(w, called, n - 1, j)?;
    let end = many(w, depth + 1, below, n - 1, j)?;
    store_barrier(w);
    Ok(end)
}

// All of a list but its first tree.
// Hands on the levels: a part of a list's walk.
#[cycle(walks)]
fn tail(w: &mut [u32], depth: usize, below: usize, n: usize, node: usize) -> Result<usize, Refusal>
    requires { Here w.old n node depth below }
    ensures { Did w.old w.new result (split_f skip (many ((walks_f below).full depth)) n node (abs w.old)) }
{
    if n == 0 {
        return Ok(node);
    }
    let j = skip(w, node);
    many(w, depth, below, n - 1, j)
}

// visit_mut_assign_expr.
// Hands on the levels: its node's walk, for which `full` or `arm` took one.
#[cycle(walks)]
fn assign(w: &mut [u32], depth: usize, below: usize, node: usize) -> Result<usize, Refusal>
    requires { Here w.old 1 node depth (below + 1) }
    ensures { Did w.old w.new result (visit_mut_assign_expr_f (walks_f below) depth node (abs w.old)) }
{
    set_pat_mode(w, PatFoldingMode::Assign);
    let f = form_at(w, node);
    let pat = to_pattern(w, node);
    let n = arity_at(w, node) as usize;
    assign_first(w, f, n, node + 1)?;
    let j = if pat {
        many(w, depth + 1, below, n, node + 1)?
    } else {
        tail(w, depth + 1, below, n, node + 1)?
    };
    assign_last(w, n, node + 1)?;
    Ok(j)
}

// The right sides of && or ||.
// Hands on the levels: a loop over the nodes of a list, for each of which `arm` takes one.
#[cycle(walks)]
fn conds(w: &mut [u32], depth: usize, below: usize, n: usize, node: usize) -> Result<usize, Refusal>
    requires { Here w.old n node depth below }
    ensures { Did w.old w.new result (many (λ r. in_cond_f ((walks_f below).bare depth r)) n node (abs w.old)) }
{
    let mut at = node;
    for _k in 0..n {
        let old = w[layout::CONDS];
        deeper(w)?;
        at = arm(w, depth, below, ScopeKind::Cond, at)?;
        set_conds(w, old);
    }
    Ok(at)
}

// A && or || again: its right side.
// Hands on the levels: a part of its node's walk.
#[cycle(walks)]
fn logic(w: &mut [u32], depth: usize, below: usize, node: usize) -> Result<usize, Refusal>
    requires { Here w.old 1 node depth (below + 1) }
    ensures { Did w.old w.new result (logical_f (walks_f below) depth node (abs w.old)) }
{
    let Kind::Bin = kind_at(w, node) else {
        return Ok(skip(w, node));
    };
    let f = form_at(w, node);
    if f >= form::PAST_LOGICAL {
        return Ok(skip(w, node));
    }
    let n = arity_at(w, node) as usize;
    if n == 0 {
        return Ok(node + 1);
    }
    let j = skip(w, node + 1);
    conds(w, depth + 1, below, n - 1, j)
}

// Which handler a kind has: the Rust's own dispatch by the node's type, as a match.
// Hands on the levels: the choice of its node's walk.
#[cycle(walks)]
fn own(w: &mut [u32], depth: usize, below: usize, node: usize) -> Result<usize, Refusal>
    requires { Here w.old 1 node depth (below + 1) }
    ensures { Did w.old w.new result (own_f (walks_f below) depth node (abs w.old)) }
{
    match kind_at(w, node) {
        Kind::Script => body(w, depth, below, node),
        Kind::Block => block(w, depth, below, node),
        Kind::VarDecl => decl(w, depth, below, node),
        Kind::VarDeclarator => declr(w, depth, below, node),
        Kind::FnDecl => fdecl(w, depth, below, node),
        Kind::If => ifs(w, depth, below, node),
        Kind::While | Kind::DoWhile => whiles(w, depth, below, node),
        Kind::For => fors(w, depth, below, node),
        Kind::ForIn | Kind::ForOf => forin(w, depth, below, node),
        Kind::Try => tries(w, depth, below, node),
        Kind::CatchClause => catch(w, depth, below, node),
        Kind::SwitchCase => case(w, depth, below, node),
        Kind::BindingIdent => pats(w, depth, below, node),
        Kind::Unary => unary(w, depth, below, node),
        Kind::Update => update(w, depth, below, node),
        Kind::Assign => assign(w, depth, below, node),
        Kind::Call => call(w, depth, below, true, node),
        Kind::New => call(w, depth, below, false, node),
        Kind::FnExpr => fexpr(w, depth, below, node),
        Kind::Arrow => arrow(w, depth, below, node),
        _ => kids(w, depth, below, node),
    }
}

// The steps of visit_mut_expr at an identifier: a constant is followed; in Analysis it is read; in Inlining its value takes its place.
// Hands on the levels: a part of its node's walk, and for the node that a constant leaves in its place `full` takes one more.
#[cycle(walks)]
fn ident(w: &mut [u32], depth: usize, below: usize, node: usize) -> Result<usize, Refusal>
    requires { (Here w.old 1 node depth (below + 1)) × ((node_of w.old node).kind ≡ number_of Ident) }
    ensures { Did w.old w.new result (after_ident_f (walks_f below) depth node (abs w.old)) }
{
    if let Some(m) = constant(w, node) {
        inline_constant(w, node, depth as u32, m)?;
        return full(w, depth, below, node);
    }
    if !inlining(w) {
        ident_analysis(w, node);
        return Ok(skip(w, node));
    }
    match fate(w, node) {
        Found::Nothing => Ok(skip(w, node)),
        Found::Void => inline_undefined(w, node, depth as u32),
        Found::Value(b) => {
            inline_value(w, node, depth as u32, b)?;
            logic(w, depth, below, node)
        }
    }
}

// The steps of visit_mut_expr after the node's own handler, which ended at j.
// Hands on the levels: a part of its node's walk.
#[cycle(walks)]
fn after(w: &mut [u32], depth: usize, below: usize, node: usize, j: usize) -> Result<usize, Refusal>
    requires { (Here w.old 1 node depth (below + 1)) × (j ≡ node + count (tree_from (tree w.old) node)) }
    ensures { Did w.old w.new result (after_f (walks_f below) depth node (abs w.old)) }
{
    match kind_at(w, node) {
        Kind::Ident => ident(w, depth, below, node),
        Kind::Bin => logic(w, depth, below, node),
        Kind::Assign => {
            if form_at(w, node) == form::ASSIGN && inlining(w) {
                after_assign(w, node, depth as u32)
            } else {
                Ok(j)
            }
        }
        _ => Ok(j),
    }
}

// The levels of a tree: row 8 is told of a node below the last one.
const LEVELS: usize = 200;

// visit_mut_program's walk of the script, in the mode that is set. Of all levels the root takes the first, as `full` would; by its contract the root may
// be of any kind, so that it is walked without visit_mut_expr's steps.
pub fn program(w: &mut [u32]) -> Result<usize, Refusal>
    requires { Planted w.old }
    ensures { Did w.old w.new result (own_f (walks_f 199) 1 0 (abs w.old)) }
{
    own(w, 1, LEVELS - 1, 0)
}
