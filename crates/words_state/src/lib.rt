// The visitor's fields in the working words.
#![tactic(auto)]

ghost use Rattle.std.specs.Prelude.{◌≡◌, ℕ, ◌≤◌, length};
ghost use Rattle.def_pass.specs.Walk.{set_changed, set_inlining, set_is_first_run, set_var_decl_kind, set_pat_mode, set_in_test, set_conds, set_replaced};
ghost use Rattle.words_scopes.specs.Kinds.{type_of};
ghost use Rattle.words_nodes.specs.Nodes.{Planted};
ghost use Rattle.words_state.specs.State.{mode_of, pat_mode_of, IsModeWord, rest, set_ended, Fielded, given_back, Turns};

use words::layout;
use words_scopes::kinds::VarType;

// What a pattern is in.
#[derive(Clone, Copy, Debug, PartialEq, Eq)]
pub enum PatFoldingMode {
    Assign,
    Param,
    CatchParam,
    VarDecl,
}

impl PatFoldingMode {
    // The mode that a word stands for. No `From`: a word past the last case is taken for that, which a conversion does not say.
    pub fn from_word(n: u32) -> PatFoldingMode
        ensures { pat_mode_of result ≡ mode_of n }
    {
        match n {
            0 => PatFoldingMode::Assign,
            1 => PatFoldingMode::Param,
            2 => PatFoldingMode::CatchParam,
            _ => PatFoldingMode::VarDecl,
        }
    }
}

impl From<PatFoldingMode> for u32 {
    ghost from_gives = { IsModeWord };

    fn from(mode: PatFoldingMode) -> u32 {
        match mode {
            PatFoldingMode::Assign => 0,
            PatFoldingMode::Param => 1,
            PatFoldingMode::CatchParam => 2,
            PatFoldingMode::VarDecl => 3,
        }
    }
}

// The fields that a scope or a child gives back as it found them.
#[derive(Clone, Copy, Debug, PartialEq, Eq)]
pub struct SavedFields {
    pub inlining: bool,
    pub var_decl_kind: VarType,
    pub pat_mode: PatFoldingMode,
    pub in_test: bool,
}

pub fn save_fields(w: &[u32]) -> SavedFields
    requires { 16384 ≤ length w.now }
    ensures { Fielded result (rest w.now) }
{
    SavedFields {
        inlining: inlining(w),
        var_decl_kind: var_decl_kind(w),
        pat_mode: pat_mode(w),
        in_test: in_test(w),
    }
}

pub fn restore_fields(w: &mut [u32], f: SavedFields)
    requires { Planted w.old }
    ensures { Turns w.old w.new (given_back f (rest w.old)) }
{
    set_inlining(w, f.inlining);
    set_var_decl_kind(w, f.var_decl_kind);
    set_pat_mode(w, f.pat_mode);
    set_in_test(w, f.in_test);
}

// A field of the visitor that is a flag, as its word has it. A getter for each, as a setter for each below.
#[tactic(auto, unfolding(crate::specs::State::rest))]
pub fn changed(w: &[u32]) -> bool
    requires { 16384 ≤ length w.now }
    ensures { result ≡ (rest w.now).changed }
{
    w[layout::CHANGED] != 0
}

#[tactic(auto, unfolding(crate::specs::State::rest))]
pub fn inlining(w: &[u32]) -> bool
    requires { 16384 ≤ length w.now }
    ensures { result ≡ (rest w.now).inlining }
{
    w[layout::INLINING] != 0
}

#[tactic(auto, unfolding(crate::specs::State::rest))]
pub fn is_first_run(w: &[u32]) -> bool
    requires { 16384 ≤ length w.now }
    ensures { result ≡ (rest w.now).is_first_run }
{
    w[layout::IS_FIRST_RUN] != 0
}

#[tactic(auto, unfolding(crate::specs::State::rest))]
pub fn in_test(w: &[u32]) -> bool
    requires { 16384 ≤ length w.now }
    ensures { result ≡ (rest w.now).in_test }
{
    w[layout::IN_TEST] != 0
}

#[tactic(auto, unfolding(crate::specs::State::rest))]
pub fn var_decl_kind(w: &[u32]) -> VarType
    requires { 16384 ≤ length w.now }
    ensures { type_of result ≡ (rest w.now).var_decl_kind }
{
    VarType::from_word(w[layout::VAR_DECL_KIND])
}

#[tactic(auto, unfolding(crate::specs::State::rest))]
pub fn pat_mode(w: &[u32]) -> PatFoldingMode
    requires { 16384 ≤ length w.now }
    ensures { pat_mode_of result ≡ (rest w.now).pat_mode }
{
    PatFoldingMode::from_word(w[layout::PAT_MODE])
}

// A setter for each field, each with an equation of its own: a trait with a place and a law for each field would be as many items, and the trait.
pub fn set_changed(w: &mut [u32], v: bool)
    requires { Planted w.old }
    ensures { Turns w.old w.new (set_changed v (rest w.old)) }
{
    w[layout::CHANGED] = u32::from(v);
}

pub fn set_inlining(w: &mut [u32], v: bool)
    requires { Planted w.old }
    ensures { Turns w.old w.new (set_inlining v (rest w.old)) }
{
    w[layout::INLINING] = u32::from(v);
}

pub fn set_is_first_run(w: &mut [u32], v: bool)
    requires { Planted w.old }
    ensures { Turns w.old w.new (set_is_first_run v (rest w.old)) }
{
    w[layout::IS_FIRST_RUN] = u32::from(v);
}

pub fn set_var_decl_kind(w: &mut [u32], v: VarType)
    requires { Planted w.old }
    ensures { Turns w.old w.new (set_var_decl_kind (type_of v) (rest w.old)) }
{
    w[layout::VAR_DECL_KIND] = u32::from(v);
}

pub fn set_pat_mode(w: &mut [u32], v: PatFoldingMode)
    requires { Planted w.old }
    ensures { Turns w.old w.new (set_pat_mode (pat_mode_of v) (rest w.old)) }
{
    w[layout::PAT_MODE] = u32::from(v);
}

pub fn set_in_test(w: &mut [u32], v: bool)
    requires { Planted w.old }
    ensures { Turns w.old w.new (set_in_test v (rest w.old)) }
{
    w[layout::IN_TEST] = u32::from(v);
}

pub fn set_conds(w: &mut [u32], v: u32)
    requires { Planted w.old }
    ensures { Turns w.old w.new (set_conds v (rest w.old)) }
{
    w[layout::CONDS] = v;
}

pub fn set_ended(w: &mut [u32], v: u32)
    requires { Planted w.old }
    ensures { Turns w.old w.new (set_ended v (rest w.old)) }
{
    w[layout::ENDED] = v;
}

pub fn set_replaced(w: &mut [u32], v: u32)
    requires { Planted w.old }
    ensures { Turns w.old w.new (set_replaced v (rest w.old)) }
{
    w[layout::REPLACED] = v;
}
