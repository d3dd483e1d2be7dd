// The kinds of bindings and of scopes, and the words that stand for them. Back from a word by `from_word` and not by `From`: a number past the last
// case is taken for that, which a conversion does not say; `Kind` of def_file holds such a number.

ghost use Rattle.std.specs.Prelude.{◌≡◌};
ghost use Rattle.def_pass.specs.Scope.{is_param, is_var, is_const};
ghost use Rattle.words_scopes.specs.Kinds.{type_of, alias_of, kind_of, var_type_of, alias_at, scope_kind_of, IsTypeWord, IsKindWord};

#[derive(Clone, Copy, Debug, PartialEq, Eq)]
pub enum VarDeclKind {
    Var,
    Let,
    Const,
}

// A parameter's, or a declaration's: neither is the lack of the other, so no Option.
#[derive(Clone, Copy, Debug, PartialEq, Eq)]
pub enum VarType {
    Param,
    Declared(VarDeclKind),
}

#[derive(Clone, Copy, Debug, PartialEq, Eq)]
pub enum ScopeKind {
    // If / Switch
    Cond,
    Loop,
    Block,
    Fn { named: bool },
}

impl ScopeKind {
    // An associated constant, and `Scope::new` below, where `Default` might stand: the scope document names them.
    pub const DEFAULT: ScopeKind = ScopeKind::Fn { named: false };

    // The kind that a word stands for.
    pub fn from_word(n: u32) -> ScopeKind
        ensures { kind_of result ≡ scope_kind_of n }
    {
        match n {
            0 => ScopeKind::Cond,
            1 => ScopeKind::Loop,
            2 => ScopeKind::Block,
            3 => ScopeKind::Fn { named: false },
            _ => ScopeKind::Fn { named: true },
        }
    }
}

// A scope that has no records yet.
#[derive(Clone, Copy, Debug, PartialEq, Eq)]
pub struct Scope {
    pub kind: ScopeKind,
}

impl Scope {
    pub fn new(kind: ScopeKind) -> Scope
        ensures { result.kind ≡ kind }
    {
        Scope { kind }
    }
}

impl VarType {
    // The type that a word stands for.
    pub fn from_word(n: u32) -> VarType
        ensures { type_of result ≡ var_type_of n }
    {
        match n {
            0 => VarType::Param,
            1 => VarType::Declared(VarDeclKind::Var),
            2 => VarType::Declared(VarDeclKind::Let),
            _ => VarType::Declared(VarDeclKind::Const),
        }
    }

    // Is it a parameter's.
    pub fn is_param(self) -> bool
        ensures { result ≡ is_param (type_of self) }
    {
        matches!(self, VarType::Param)
    }

    // Is it a `var`'s.
    pub fn is_var(self) -> bool
        ensures { result ≡ is_var (type_of self) }
    {
        matches!(self, VarType::Declared(VarDeclKind::Var))
    }

    // Is it the type of a constant.
    pub fn is_const(self) -> bool
        ensures { result ≡ is_const (type_of self) }
    {
        matches!(self, VarType::Declared(VarDeclKind::Const))
    }
}

impl From<VarType> for u32 {
    ghost from_gives = { IsTypeWord };

    fn from(t: VarType) -> u32 {
        match t {
            VarType::Param => 0,
            VarType::Declared(VarDeclKind::Var) => 1,
            VarType::Declared(VarDeclKind::Let) => 2,
            VarType::Declared(VarDeclKind::Const) => 3,
        }
    }
}

impl From<ScopeKind> for u32 {
    ghost from_gives = { IsKindWord };

    fn from(kind: ScopeKind) -> u32 {
        match kind {
            ScopeKind::Cond => 0,
            ScopeKind::Loop => 1,
            ScopeKind::Block => 2,
            ScopeKind::Fn { named: false } => 3,
            ScopeKind::Fn { named: true } => 4,
        }
    }
}

// The word that stands for the type of the binding that a value names, if it names one. No `From`: Option and u32 are both of the library.
pub fn alias_word(alias: Option<VarType>) -> u32
    ensures { alias_at result ≡ alias_of alias }
{
    match alias {
        None => 0,
        Some(t) => u32::from(t) + 1,
    }
}

// What such a word stands for.
pub fn alias_from_word(n: u32) -> Option<VarType>
    ensures { alias_of result ≡ alias_at n }
{
    if n == 0 {
        return None;
    }
    Some(VarType::from_word(n - 1))
}
