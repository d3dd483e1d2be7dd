// inlining: the visitor before its first run, over a script that was read. What the script targets (request 8)
// and what it declares twice (request 3) is worked out here, once.
ghost use Rattle.std.specs.Prelude.{◌≤◌, length};
ghost use Rattle.words_balance.specs.Balance.{WordsBalance};
ghost use Rattle.pass_run.specs.Start.{Loaded, Fields, Started};

use scope_child::open_scope;
use words::{layout, put, wipe};
use words_scopes::kinds::{Scope, ScopeKind, VarDeclKind, VarType};
use words_state::PatFoldingMode;
use words_targets::mark_targets;
use words_twice::flag_twice;

// No scope, an empty index, and the visitor's fields: not changed, Analysis, the first run, var, declaring, no test, no right side, no count
// that has ended, no replacement.
fn set_fields(w: &mut [u32])
    requires { 16384 ≤ length w.old }
    ensures is { Fields w.old w.new }
    ensures balance { WordsBalance w.new }
{
    wipe(w, layout::BINDING_COUNT, 3);
    let kind = u32::from(VarType::Declared(VarDeclKind::Var));
    let mode = u32::from(PatFoldingMode::VarDecl);
    put(w, layout::CHANGED, [0, 0, 1, kind, mode]);
    wipe(w, layout::IN_TEST, 4);
    wipe(w, layout::INDEX, 256);
}

// The targets, the fields, an empty root scope, and the flags.
pub fn start(w: &mut [u32])
    requires { Loaded w.old }
    ensures is { Started w.old w.new }
    ensures balance { WordsBalance w.new }
{
    mark_targets(w);
    set_fields(w);
    let root = Scope::new(ScopeKind::DEFAULT);
    open_scope(w, root).unwrap();
    flag_twice(w);
}
