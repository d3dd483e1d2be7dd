// A binding as a record: one is marked behind a reference, and a lent slice of them is scanned.
ghost use Rattle.std.specs.Prelude.{◌≡◌, map};
ghost use Rattle.words_scopes.specs.Mark.{prevent, marked};

// A binding: its identifier, the identifier that its value is, if it is one, and its prevented mark.
#[derive(Clone, Copy, Debug, PartialEq, Eq)]
pub struct Binding {
    pub id: u32,
    pub value: Option<u32>,
    pub prevented: bool,
}

// Sets the binding's prevented mark, and leaves every other field.
pub fn prevent(b: &mut Binding)
    ensures { b.new ≡ prevent b.old }
{
    b.prevented = true;
}

// Prevents the binding if x is its identifier or its value, and else leaves it. The scope document names a binding behind a reference and a lent
// slice of bindings, each with its fact, so that this and `mark_all` are two functions.
pub fn mark(b: &mut Binding, x: u32)
    ensures { b.new ≡ marked x b.old }
{
    if b.id == x || b.value == Some(x) {
        prevent(b);
    }
}

// Marks x and its aliases in a list of bindings, each where the list holds it.
pub fn mark_all(bs: &mut [Binding], x: u32)
    ensures { bs.new ≡ map (marked x) bs.old }
{
    for b in bs.iter_mut() {
        mark(b, x);
    }
}
