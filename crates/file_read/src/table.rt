// Rows 14 and 15: a table of kinds that a caller lends.
ghost use Rattle.std.specs.Prelude.{◌≡◌, true};
ghost use Rattle.def_kinds.specs.Lent.{is_table, within};
ghost use Rattle.def_under.specs.Reading.{constant};
ghost use Rattle.file_read.specs.Table.{table_row};

use file_kinds::KINDS;
use refusal::Refusal;

// As many bytes as there are pairs, none above 1. Each byte is looked at, here and in `within`, so that several can be at once.
fn is_table(table: &[u8]) -> bool
    ensures { result ≡ is_table table.now }
{
    if table.len() != KINDS.len() {
        return false;
    }
    let mut known = true;
    for entry in table {
        known &= *entry <= 1;
    }
    known
}

// Each pair that it allows is one that the constant table allows.
fn within(table: &[u8]) -> bool
    requires { is_table table.now ≡ true }
    ensures { result ≡ within table.now constant }
{
    let mut allowed = true;
    for k in 0..KINDS.len() {
        allowed &= table[k] <= KINDS[k];
    }
    allowed
}

// Rows 14 and 15.
pub fn check_table(table: &[u8]) -> Result<(), Refusal>
    ensures { result ≡ table_row table.now }
{
    if !is_table(table) {
        return Err(Refusal::Table);
    }
    if !within(table) {
        return Err(Refusal::Pairs);
    }
    Ok(())
}
