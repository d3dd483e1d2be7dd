// The kinds of nodes by name.

ghost use Rattle.std.specs.Prelude.{◌≡◌, ◌||◌, ℕ};
ghost use Rattle.def_file.specs.declared.kind.Kind.TheVariants.{FnDecl, ForIn, ForOf, BindingIdent, Ident, Null, Str, Update, Assign, Member, Computed, FnExpr, Arrow, ObjectPat, ArrayPat, AssignPat};
ghost use Rattle.def_file.specs.Named.{IsKindOf, IsNumberOf, Coded, is_kind, is_between};
ghost use Rattle.def_file.specs.Kinds.{is_stmt, is_expr, is_binding_name, is_target, uses_text, uses_bits};

// What a node is: the kinds 1 to 48 of the tree file, and what any other number stands for.
#[derive(Clone, Copy, Debug, PartialEq, Eq)]
pub enum Kind {
    Script,
    Block,
    Empty,
    ExprStmt,
    VarDecl,
    VarDeclarator,
    FnDecl,
    Return,
    If,
    While,
    DoWhile,
    For,
    ForIn,
    ForOf,
    Throw,
    Try,
    CatchClause,
    Switch,
    SwitchCase,
    BindingIdent,
    Ident,
    Null,
    Bool,
    Number,
    Str,
    This,
    Array,
    Object,
    Prop,
    Unary,
    Update,
    Bin,
    Assign,
    Cond,
    Call,
    New,
    Member,
    Computed,
    FnExpr,
    Arrow,
    Paren,
    Seq,
    Break,
    Continue,
    ObjectPat,
    ArrayPat,
    PatProp,
    AssignPat,
    Invalid(u32),
}

impl Kind {
    // What every literal is in the working words, where its node's number tells which it is.
    pub const LITERAL: Kind = Kind::Null;

    // A literal: what it says is told by its own node alone.
    pub fn is_literal(self) -> bool
        ensures { (k : ℕ) → Coded self k → result ≡ is_between Null Str k }
    {
        matches!(self, Kind::Null | Kind::Bool | Kind::Number | Kind::Str)
    }

    // A name: a binding or an identifier.
    pub fn is_name(self) -> bool
        ensures { (k : ℕ) → Coded self k → result ≡ (is_kind BindingIdent k || is_kind Ident k) }
    {
        matches!(self, Kind::BindingIdent | Kind::Ident)
    }

    // In the working words: a literal or an identifier.
    pub fn is_cheap(self) -> bool
        ensures { (k : ℕ) → Coded self k → result ≡ (is_kind Null k || is_kind Ident k) }
    {
        matches!(self, Kind::Ident | Kind::LITERAL)
    }

    // A statement: s of document 01.
    pub fn is_stmt(self) -> bool
        ensures { (k : ℕ) → Coded self k → result ≡ is_stmt k }
    {
        matches!(
            self,
            Kind::Block
                | Kind::Empty
                | Kind::ExprStmt
                | Kind::VarDecl
                | Kind::FnDecl
                | Kind::Return
                | Kind::If
                | Kind::While
                | Kind::DoWhile
                | Kind::For
                | Kind::ForIn
                | Kind::ForOf
                | Kind::Throw
                | Kind::Try
                | Kind::Switch
                | Kind::Break
                | Kind::Continue
        )
    }

    // An expression: e of document 01.
    pub fn is_expr(self) -> bool
        ensures { (k : ℕ) → Coded self k → result ≡ is_expr k }
    {
        matches!(
            self,
            Kind::Ident
                | Kind::Null
                | Kind::Bool
                | Kind::Number
                | Kind::Str
                | Kind::This
                | Kind::Array
                | Kind::Object
                | Kind::Unary
                | Kind::Update
                | Kind::Bin
                | Kind::Assign
                | Kind::Cond
                | Kind::Call
                | Kind::New
                | Kind::Member
                | Kind::Computed
                | Kind::FnExpr
                | Kind::Arrow
                | Kind::Paren
                | Kind::Seq
        )
    }

    // A function.
    pub fn is_function(self) -> bool
        ensures { (k : ℕ) → Coded self k → result ≡ (is_kind FnDecl k || is_kind FnExpr k || is_kind Arrow k) }
    {
        matches!(self, Kind::FnDecl | Kind::FnExpr | Kind::Arrow)
    }

    // A member: by name, by expression.
    pub fn is_member(self) -> bool
        ensures { (k : ℕ) → Coded self k → result ≡ (is_kind Member k || is_kind Computed k) }
    {
        matches!(self, Kind::Member | Kind::Computed)
    }

    // A pattern: of an object, of an array.
    pub fn is_pattern(self) -> bool
        ensures { (k : ℕ) → Coded self k → result ≡ (is_kind ObjectPat k || is_kind ArrayPat k) }
    {
        matches!(self, Kind::ObjectPat | Kind::ArrayPat)
    }

    // A binding or a pattern: what a declarator or a catch names, and what a default stands beside.
    pub fn is_binding_name(self) -> bool
        ensures { (k : ℕ) → Coded self k → result ≡ is_binding_name k }
    {
        matches!(self, Kind::BindingIdent | Kind::ObjectPat | Kind::ArrayPat)
    }

    // A target of request 4: a parameter, or what stands inside a pattern.
    pub fn is_target(self) -> bool
        ensures { (k : ℕ) → Coded self k → result ≡ is_target k }
    {
        matches!(
            self,
            Kind::BindingIdent | Kind::ObjectPat | Kind::ArrayPat | Kind::AssignPat
        )
    }

    // A pattern, or a part of one that is no binding.
    pub fn in_pattern(self) -> bool
        ensures { (k : ℕ) → Coded self k → result ≡ is_between ObjectPat AssignPat k }
    {
        matches!(
            self,
            Kind::ObjectPat | Kind::ArrayPat | Kind::PatProp | Kind::AssignPat
        )
    }

    // A node that has a target: assignment, update, for-in, for-of.
    pub fn aims(self) -> bool
        ensures { (k : ℕ) → Coded self k → result ≡ (is_kind Assign k || is_kind Update k || is_kind ForIn k || is_kind ForOf k) }
    {
        matches!(
            self,
            Kind::ForIn | Kind::ForOf | Kind::Update | Kind::Assign
        )
    }

    // Is the text number of its node used; its 8 bytes.
    pub fn uses_text(self) -> bool
        ensures { (k : ℕ) → Coded self k → result ≡ uses_text k }
    {
        matches!(
            self,
            Kind::BindingIdent | Kind::Ident | Kind::Str | Kind::Prop | Kind::Member | Kind::PatProp
        )
    }

    pub fn uses_bits(self) -> bool
        ensures { (k : ℕ) → Coded self k → result ≡ uses_bits k }
    {
        matches!(self, Kind::BindingIdent | Kind::Ident | Kind::Number)
    }
}

// The kind of a number.
impl From<u32> for Kind {
    ghost from_gives = { IsKindOf };

    fn from(n: u32) -> Kind {
        match n {
            1 => Kind::Script,
            2 => Kind::Block,
            3 => Kind::Empty,
            4 => Kind::ExprStmt,
            5 => Kind::VarDecl,
            6 => Kind::VarDeclarator,
            7 => Kind::FnDecl,
            8 => Kind::Return,
            9 => Kind::If,
            10 => Kind::While,
            11 => Kind::DoWhile,
            12 => Kind::For,
            13 => Kind::ForIn,
            14 => Kind::ForOf,
            15 => Kind::Throw,
            16 => Kind::Try,
            17 => Kind::CatchClause,
            18 => Kind::Switch,
            19 => Kind::SwitchCase,
            20 => Kind::BindingIdent,
            21 => Kind::Ident,
            22 => Kind::Null,
            23 => Kind::Bool,
            24 => Kind::Number,
            25 => Kind::Str,
            26 => Kind::This,
            27 => Kind::Array,
            28 => Kind::Object,
            29 => Kind::Prop,
            30 => Kind::Unary,
            31 => Kind::Update,
            32 => Kind::Bin,
            33 => Kind::Assign,
            34 => Kind::Cond,
            35 => Kind::Call,
            36 => Kind::New,
            37 => Kind::Member,
            38 => Kind::Computed,
            39 => Kind::FnExpr,
            40 => Kind::Arrow,
            41 => Kind::Paren,
            42 => Kind::Seq,
            43 => Kind::Break,
            44 => Kind::Continue,
            45 => Kind::ObjectPat,
            46 => Kind::ArrayPat,
            47 => Kind::PatProp,
            48 => Kind::AssignPat,
            _ => Kind::Invalid(n),
        }
    }
}

impl From<u8> for Kind {
    ghost from_gives = { IsKindOf };

    fn from(n: u8) -> Kind {
        Kind::from(u32::from(n))
    }
}

// The number of a kind: the other way round.
impl From<Kind> for u32 {
    ghost from_gives = { IsNumberOf };

    fn from(kind: Kind) -> u32 {
        match kind {
            Kind::Script => 1,
            Kind::Block => 2,
            Kind::Empty => 3,
            Kind::ExprStmt => 4,
            Kind::VarDecl => 5,
            Kind::VarDeclarator => 6,
            Kind::FnDecl => 7,
            Kind::Return => 8,
            Kind::If => 9,
            Kind::While => 10,
            Kind::DoWhile => 11,
            Kind::For => 12,
            Kind::ForIn => 13,
            Kind::ForOf => 14,
            Kind::Throw => 15,
            Kind::Try => 16,
            Kind::CatchClause => 17,
            Kind::Switch => 18,
            Kind::SwitchCase => 19,
            Kind::BindingIdent => 20,
            Kind::Ident => 21,
            Kind::Null => 22,
            Kind::Bool => 23,
            Kind::Number => 24,
            Kind::Str => 25,
            Kind::This => 26,
            Kind::Array => 27,
            Kind::Object => 28,
            Kind::Prop => 29,
            Kind::Unary => 30,
            Kind::Update => 31,
            Kind::Bin => 32,
            Kind::Assign => 33,
            Kind::Cond => 34,
            Kind::Call => 35,
            Kind::New => 36,
            Kind::Member => 37,
            Kind::Computed => 38,
            Kind::FnExpr => 39,
            Kind::Arrow => 40,
            Kind::Paren => 41,
            Kind::Seq => 42,
            Kind::Break => 43,
            Kind::Continue => 44,
            Kind::ObjectPat => 45,
            Kind::ArrayPat => 46,
            Kind::PatProp => 47,
            Kind::AssignPat => 48,
            Kind::Invalid(n) => n,
        }
    }
}
