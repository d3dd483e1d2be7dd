// What is declared by its name: a function, and the binding of a pattern.
ghost use Rattle.std.specs.Prelude.{◌≡◌, ◌⊎◌, false, get_or, set, ◌<◌, OnErr};
ghost use Rattle.def_tree.specs.Tree.{kids, no_core};
ghost use Rattle.def_tree.specs.Combine.{act};
ghost use Rattle.def_pass.specs.Tree.{head_t};
ghost use Rattle.def_pass.specs.Scope.{recorded};
ghost use Rattle.def_pass.specs.Walk.{when, is_bind, as_ident, declare_m, declare_name, pat_by};
ghost use Rattle.refusal.specs.Number.{refused};
ghost use Rattle.def_file.specs.declared.kind.Kind.TheVariants.{BindingIdent, Ident};
ghost use Rattle.def_file.specs.Named.{number_of};
ghost use Rattle.words.specs.Layout.{tree, node_of};
ghost use Rattle.words_scopes.specs.Kinds.{type_of};
ghost use Rattle.words_nodes.specs.Nodes.{Planted, Replants, size};
ghost use Rattle.words_state.specs.State.{abs, Act};
ghost use Rattle.walk_write.specs.Answers.{re_kind};

use super::write_unbound;
use def_file::kind::Kind;
use refusal::Refusal;
use scope::{Init, VarDeclKind, VarType, declare, name_at};
use words::{Node, arity_at, kind_at, layout, node_at, put_node};
use words_state::{PatFoldingMode, inlining, pat_mode};

// The name of the function at i, in Analysis.
pub fn declare_name(w: &mut [u32], i: usize) -> Result<(), Refusal>
    requires { (Planted w.old) × (i < size w.old) }
    ensures did { Act w.old w.new (refused result) (act (λ t. declare_name (head_t (kids t))) i (abs w.old)) }
    ensures kept { OnErr result (w.new ≡ w.old) }
{
    if arity_at(w, i) == 0 || inlining(w) {
        return Ok(());
    }
    let Kind::BindingIdent = kind_at(w, i + 1) else {
        return Ok(());
    };
    let name = name_at(w, i + 1);
    declare(
        w,
        name.twice(),
        name.ident,
        Init::NoInit,
        false,
        VarType::Declared(VarDeclKind::Var),
    )
}

// The name at i becomes a binding or an identifier, with another form.
fn turn(w: &mut [u32], i: usize, k: Kind, f: u32)
    requires { (Planted w.old) × (i < size w.old) × (((node_of w.old i).kind ≡ number_of BindingIdent) ⊎ ((node_of w.old i).kind ≡ number_of Ident)) × (number_of k < 64) × (f < 32) }
    ensures { Replants w.old w.new (set (tree w.old) i (re_kind (number_of k) f (get_or (tree w.old) i no_core))) }
{
    let x = node_at(w, layout::NODES, i);
    let turned = Node {
        kind: k,
        form: f,
        ..x
    };
    put_node(w, i, turned);
}

// The binding at i is declared with its own identifier as its value: while it is recorded, the node is one, without the flag.
fn declare_bound(w: &mut [u32], i: usize, kind: VarType) -> Result<(), Refusal>
    requires { (Planted w.old) × (i < size w.old) × ((node_of w.old i).kind ≡ number_of BindingIdent) }
    ensures { Act w.old w.new (refused result) (act (λ t. declare_m t (recorded (as_ident t)) false (type_of kind)) i (abs w.old)) }
{
    let name = name_at(w, i);
    let plain = name.unflagged();
    turn(w, i, Kind::Ident, plain);
    let declared = declare(w, name.twice(), name.ident, Init::Recorded(i), false, kind);
    turn(w, i, Kind::BindingIdent, name.form);
    declared
}

// visit_mut_pat, by the mode.
pub fn pat_step(w: &mut [u32], i: usize) -> Result<(), Refusal>
    requires { (Planted w.old) × (i < size w.old) }
    ensures { Act w.old w.new (refused result) (act (λ t s. when (is_bind t) (pat_by s.pat_mode t) s) i (abs w.old)) }
{
    let Kind::BindingIdent = kind_at(w, i) else {
        return Ok(());
    };
    match pat_mode(w) {
        PatFoldingMode::Assign => write_unbound(w, i),
        PatFoldingMode::Param => declare_bound(w, i, VarType::Param),
        PatFoldingMode::CatchParam => declare_bound(w, i, VarType::Declared(VarDeclKind::Var)),
        PatFoldingMode::VarDecl => Ok(()),
    }
}
