// The kinds 1 to 44 of document 01, "The tree file", and 45 to 48 of request 4, with their forms, and what may stand below each.
// Forms by number: this table is what defines them.
ghost use Rattle.def_file.specs.Named.{Coded};
ghost use Rattle.std.specs.Prelude.{ℕ, ◌≡◌, ◌<◌};
ghost use Rattle.def_file.specs.Kinds.{allows, every, led, ended, framed, for_row, try_row, case_row, assign_row, new_row, function_row, head_row, arrow_row, row_of, form_ok, count_ok, child_of};

use crate::kind::Kind;

// What may stand at a place.
#[derive(Clone, Copy, Debug, PartialEq, Eq)]
pub enum Class {
    // 1
    Root,
    // s: 2 to 5, 7 to 16, 18, 43, 44
    Statement,
    // e: 21 to 28, 30 to 42
    Expression,
    // b: 20
    Binding,
    // what a declarator or a catch names, and what a default stands beside: 20, or a pattern, 45 or 46
    Name,
    // a target: 20, 45, 46 or 48
    Target,
    // 2
    Block,
    // 6
    Declarator,
    // 17
    Catch,
    // 19
    Case,
    // 29
    Property,
    // 47
    PatternProperty,
    // what an update changes: 21, 37 or 38
    Updated,
    // what is assigned to: 20, 37 or 38
    Assigned,
    // the same of `=`: also a pattern, 45 or 46
    Destructured,
    // the start of a for: 5 or e
    Start,
    // the head of a for-in or for-of: 5 of one declarator, or 20, 45 or 46
    Head,
}

impl Class {
    // May a node of a kind with n children stand at the place.
    pub fn allows(self, kind: Kind, n: usize) -> bool
        ensures { (k : ℕ) → Coded kind k → result ≡ allows self k n }
    {
        match self {
            Class::Root => kind == Kind::Script,
            Class::Statement => kind.is_stmt(),
            Class::Expression => kind.is_expr(),
            Class::Binding => kind == Kind::BindingIdent,
            Class::Name => kind.is_binding_name(),
            Class::Target => kind.is_target(),
            Class::Block => kind == Kind::Block,
            Class::Declarator => kind == Kind::VarDeclarator,
            Class::Catch => kind == Kind::CatchClause,
            Class::Case => kind == Kind::SwitchCase,
            Class::Property => kind == Kind::Prop,
            Class::PatternProperty => kind == Kind::PatProp,
            Class::Updated => matches!(kind, Kind::Ident | Kind::Member | Kind::Computed),
            Class::Assigned => matches!(kind, Kind::BindingIdent | Kind::Member | Kind::Computed),
            Class::Destructured => kind.is_binding_name() || kind.is_member(),
            Class::Start => kind == Kind::VarDecl || kind.is_expr(),
            Class::Head => kind.is_binding_name() || kind == Kind::VarDecl && n == 1,
        }
    }
}

// What a kind asks of a node: its least and greatest form, its least and greatest number of children, and what these may be: an only
// child, else the first, the last and those between.
#[derive(Clone, Copy, Debug, PartialEq, Eq)]
pub struct Row {
    pub from: usize,
    pub to: usize,
    pub least: usize,
    pub most: usize,
    pub only: Class,
    pub first: Class,
    pub rest: Class,
    pub last: Class,
}

impl Row {
    // No such kind: no form will do.
    const NONE: Row = Row {
        from: 1,
        to: 0,
        least: 0,
        most: 0,
        only: Class::Expression,
        first: Class::Expression,
        rest: Class::Expression,
        last: Class::Expression,
    };

    // A form, and a number of children, against the row.
    pub fn form_ok(self, f: usize) -> bool
        ensures { result ≡ form_ok self f }
    {
        (self.from..=self.to).contains(&f)
    }

    pub fn count_ok(self, n: usize) -> bool
        ensures { result ≡ count_ok self n }
    {
        (self.least..=self.most).contains(&n)
    }

    // What child i of n may be.
    pub fn child(self, n: u16, i: u16) -> Class
        ensures { result ≡ child_of self n i }
    {
        if n == 1 {
            return self.only;
        }
        if i == 0 {
            return self.first;
        }
        if usize::from(i) + 1 == usize::from(n) {
            return self.last;
        }
        self.rest
    }
}

// Any count: the field for it has two bytes.
const ANY: usize = 65535;

// Forms 0 to `to`, `least` to `most` children, all of one class.
fn every(to: usize, least: usize, most: usize, c: Class) -> Row
    ensures { result ≡ every to least most c }
{
    Row {
        from: 0,
        to,
        least,
        most,
        only: c,
        first: c,
        rest: c,
        last: c,
    }
}

// The same, the first child of a class of its own.
fn led(to: usize, least: usize, most: usize, a: Class, c: Class) -> Row
    ensures { result ≡ led to least most a c }
{
    Row {
        from: 0,
        to,
        least,
        most,
        only: a,
        first: a,
        rest: c,
        last: c,
    }
}

// The same, the last child of a class of its own.
fn ended(to: usize, least: usize, most: usize, c: Class, z: Class) -> Row
    ensures { result ≡ ended to least most c z }
{
    Row {
        from: 0,
        to,
        least,
        most,
        only: z,
        first: c,
        rest: c,
        last: z,
    }
}

// The same, the first and the last child of classes of their own.
fn framed(to: usize, least: usize, most: usize, a: Class, c: Class, z: Class) -> Row
    ensures { result ≡ framed to least most a c z }
{
    Row {
        from: 0,
        to,
        least,
        most,
        only: z,
        first: a,
        rest: c,
        last: z,
    }
}

// 12: form bits 1, 2, 4: start (5 or e), test, update present; then s.
fn for_row(f: usize) -> Row
    ensures { result ≡ for_row f }
{
    let n = 1 + f % 2 + f / 2 % 2 + f / 4 % 2;
    let first = if f % 2 == 1 {
        Class::Start
    } else {
        Class::Expression
    };
    Row {
        from: 0,
        to: 7,
        least: n,
        most: n,
        only: Class::Statement,
        first,
        rest: Class::Expression,
        last: Class::Statement,
    }
}

// 13 and 14: (5 of one declarator, or 20, 45 or 46) e s.
fn head_row() -> Row
    ensures { result ≡ head_row }
{
    Row {
        from: 0,
        to: 0,
        least: 3,
        most: 3,
        only: Class::Head,
        first: Class::Head,
        rest: Class::Expression,
        last: Class::Statement,
    }
}

// 16: 2, then by form bits 1: 17, 2: 2; not 0.
fn try_row(f: usize) -> Row
    ensures { result ≡ try_row f }
{
    let n = 1 + f % 2 + f / 2 % 2;
    let last = if f == 1 { Class::Catch } else { Class::Block };
    Row {
        from: 1,
        to: 3,
        least: n,
        most: n,
        only: Class::Block,
        first: Class::Block,
        rest: Class::Catch,
        last,
    }
}

// 19: form 1 has a test.
fn case_row(f: usize) -> Row
    ensures { result ≡ case_row f }
{
    let first = if f == 1 {
        Class::Expression
    } else {
        Class::Statement
    };
    led(1, f, ANY, first, Class::Statement)
}

// 33: a pattern stands left of `=` alone, which is form 0.
fn assign_row(f: usize) -> Row
    ensures { result ≡ assign_row f }
{
    let first = if f == 0 {
        Class::Destructured
    } else {
        Class::Assigned
    };
    led(15, 2, 2, first, Class::Expression)
}

// 36: form 1 has a list of arguments.
fn new_row(f: usize) -> Row
    ensures { result ≡ new_row f }
{
    let most = if f == 1 { ANY } else { 1 };
    every(1, 1, most, Class::Expression)
}

// 39: form 1 has a name, which is no pattern.
fn function_row(f: usize) -> Row
    requires { f < 256 }
    ensures { result ≡ function_row f }
{
    let first = if f == 1 {
        Class::Binding
    } else {
        Class::Target
    };
    framed(1, 1 + f, ANY, first, Class::Target, Class::Block)
}

// 40: form 0 ends in a block, form 1 in an expression.
fn arrow_row(f: usize) -> Row
    ensures { result ≡ arrow_row f }
{
    let last = if f == 1 {
        Class::Expression
    } else {
        Class::Block
    };
    ended(1, 1, ANY, Class::Target, last)
}

// What a kind asks of a node of a form.
#[tactic(auto, unfolding(crate::specs::Kinds::row_of))]
pub fn row_of(kind: Kind, form: u8) -> Row
    ensures { (k : ℕ) → Coded kind k → result ≡ row_of k form }
{
    let f = usize::from(form);
    match kind {
        // script s*
        Kind::Script => every(0, 0, ANY, Class::Statement),
        // block s*
        Kind::Block => every(0, 0, ANY, Class::Statement),
        // empty
        Kind::Empty => every(0, 0, 0, Class::Expression),
        // e
        Kind::ExprStmt => every(0, 1, 1, Class::Expression),
        // declaration 6 (one or more; form 0 var, 1 let, 2 const)
        Kind::VarDecl => every(2, 1, ANY, Class::Declarator),
        // declarator: 20, 45 or 46, then [e]
        Kind::VarDeclarator => led(0, 1, 2, Class::Name, Class::Expression),
        // function b, targets, 2
        Kind::FnDecl => framed(0, 2, ANY, Class::Binding, Class::Target, Class::Block),
        // return [e]
        Kind::Return => every(0, 0, 1, Class::Expression),
        // if e s [s]
        Kind::If => led(0, 2, 3, Class::Expression, Class::Statement),
        // while e s
        Kind::While => led(0, 2, 2, Class::Expression, Class::Statement),
        // do e s
        Kind::DoWhile => led(0, 2, 2, Class::Expression, Class::Statement),
        // for
        Kind::For => for_row(f),
        // for-in
        Kind::ForIn => head_row(),
        // for-of
        Kind::ForOf => head_row(),
        // throw e
        Kind::Throw => every(0, 1, 1, Class::Expression),
        // try
        Kind::Try => try_row(f),
        // catch [20, 45 or 46] 2
        Kind::CatchClause => ended(0, 1, 2, Class::Name, Class::Block),
        // switch e 19*
        Kind::Switch => led(0, 1, ANY, Class::Expression, Class::Case),
        // case
        Kind::SwitchCase => case_row(f),
        // binding
        Kind::BindingIdent => every(0, 0, 0, Class::Expression),
        // identifier
        Kind::Ident => every(0, 0, 0, Class::Expression),
        // null
        Kind::Null => every(0, 0, 0, Class::Expression),
        // boolean (form 0, 1)
        Kind::Bool => every(1, 0, 0, Class::Expression),
        // number
        Kind::Number => every(0, 0, 0, Class::Expression),
        // string
        Kind::Str => every(0, 0, 0, Class::Expression),
        // this
        Kind::This => every(0, 0, 0, Class::Expression),
        // array e*
        Kind::Array => every(0, 0, ANY, Class::Expression),
        // object 29*
        Kind::Object => every(0, 0, ANY, Class::Property),
        // property, e
        Kind::Prop => every(0, 1, 1, Class::Expression),
        // unary e (0 void, 1 typeof, 2 !, 3 -, 4 +, 5 ~, 6 delete)
        Kind::Unary => every(6, 1, 1, Class::Expression),
        // update (0 `++x`, 1 `--x`, 2 `x++`, 3 `x--`) of 21, 37 or 38
        Kind::Update => every(3, 1, 1, Class::Updated),
        // binary e e (0 `&&`, 1 `||`, then 2 to 24)
        Kind::Bin => every(24, 2, 2, Class::Expression),
        // assign (0 `=`, then 1 to 15)
        Kind::Assign => assign_row(f),
        // conditional e e e
        Kind::Cond => every(0, 3, 3, Class::Expression),
        // call e e*
        Kind::Call => every(0, 1, ANY, Class::Expression),
        // new
        Kind::New => new_row(f),
        // member e, text
        Kind::Member => every(0, 1, 1, Class::Expression),
        // member e e
        Kind::Computed => every(0, 2, 2, Class::Expression),
        // function expression
        Kind::FnExpr => function_row(f),
        // arrow
        Kind::Arrow => arrow_row(f),
        // parenthesis e
        Kind::Paren => every(0, 1, 1, Class::Expression),
        // sequence e e*
        Kind::Seq => every(0, 1, ANY, Class::Expression),
        // break
        Kind::Break => every(0, 0, 0, Class::Expression),
        // continue
        Kind::Continue => every(0, 0, 0, Class::Expression),
        // object pattern 47*
        Kind::ObjectPat => every(0, 0, ANY, Class::PatternProperty),
        // array pattern: targets, any count
        Kind::ArrayPat => every(0, 0, ANY, Class::Target),
        // pattern property, text, a target
        Kind::PatProp => every(0, 1, 1, Class::Target),
        // default: 20, 45 or 46, then e
        Kind::AssignPat => led(0, 2, 2, Class::Name, Class::Expression),
        Kind::Invalid(_) => Row::NONE,
    }
}
