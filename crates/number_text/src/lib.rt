// A number of 64 bits in decimal: the fewest digits behind the point with which a decimal reads as this number, and its text.
#![tactic(auto)]

ghost use Rattle.std.specs.Prelude.{◌≡◌, ℕ, ◌+◌, ◌-◌, ◌*◌, ◌/◌, ◌%◌, ◌^◌, ◌<◌, ◌≤◌, if◌then◌else◌, ◌&&◌, ◌||◌, ◌==◌, nat_lt, IfSome, [], ◌∷◌, length};
ghost use Rattle.def_number.specs.Number.{exponent, mantissa, nearest, fewest};
ghost use Rattle.def_number.specs.Text.{last_digits, width, whole_width, digit_count, text, decimal};
ghost use Rattle.laws_number.specs.Choice.{choice, within, step_of};
ghost use Rattle.laws_number.specs.Meaning.{Written, ReadBack};
ghost use Rattle.number_text.specs.Wide.{value_of};
ghost use Rattle.number_text.specs.Given.{value_given, of_decimal, decimal_given};
ghost use Rattle.number_text.specs.Step.{InStep};
ghost use Rattle.number_text.specs.Put.{Puts};

use wide::{Cut, Wide};

pub mod wide;

// The decimal digits / 10 ^ places.
#[derive(Clone, Copy, Debug, PartialEq, Eq)]
pub struct Decimal {
    pub digits: Wide,
    pub places: usize,
}

// The bit above the fraction: exponents count from here, and a number that has one has this bit in its mantissa.
const EXPONENT: u64 = 1 << 52;

// From this exponent on a number has no binary digit behind the point, and from the next one on over 25 decimal digits before it.
const WHOLE: u64 = 1075;

const LONG: u64 = 1107;

// Below this exponent a number has over 24 noughts behind the point.
const TINY: u64 = 941;

// The most digits that are written.
const MOST_DIGITS: usize = 25;

// What a decimal may have behind the point: one digit stands before it.
const MOST_PLACES: usize = MOST_DIGITS - 1;

// By this many binary digits a number is too small to read as any decimal of the places that are written.
const TOO_SMALL: usize = 110;

// A number's binary digits.
fn mantissa(bits: u64) -> u64
    ensures { result ≡ mantissa bits }
{
    if bits / EXPONENT == 0 {
        bits % EXPONENT
    } else {
        bits % EXPONENT + EXPONENT
    }
}

// 1 at a power of 2, below which the numbers lie closer together.
fn step(bits: u64) -> u64
    ensures { result ≡ step_of bits }
{
    if bits % EXPONENT == 0 && 1 < bits / EXPONENT {
        1
    } else {
        2
    }
}

// Below b, or as much where the ends count.
fn within(ends: bool, a: u64, b: u64) -> bool
    ensures { result ≡ within ends a b }
{
    if ends { a <= b } else { a < b }
}

// Does the decimal below the number come before the next one: it is nearer, or as near and even.
fn comes_first(cut: &Cut) -> bool
    ensures { result ≡ (nat_lt cut.now.past cut.now.short || (cut.now.past == cut.now.short && (value_of cut.now.whole % 2 == 0))) }
{
    cut.past < cut.short || (cut.past == cut.short && cut.whole.is_even())
}

// Of a decimal and the next one the nearer of those that stand for the number.
fn chosen(cut: &Cut, power: u64, step: u64, even: bool) -> Option<Wide>
    requires { (power < 2 ^ 60) × (step ≤ 2) × (cut.now.past ≤ 2 ^ 60) × (cut.now.short ≤ 2 ^ 60) × (value_of cut.now.whole < 2 ^ 120) }
    ensures { value_given result ≡ choice (value_of cut.now.whole) cut.now.past cut.now.short power step even }
{
    let low = within(even, 4 * cut.past, step * power);
    let high = within(even, 2 * cut.short, power);
    let first = comes_first(cut);
    if high {
        if low && first {
            return Some(cut.whole);
        }
        Some(cut.whole.next())
    } else if low {
        Some(cut.whole)
    } else {
        None
    }
}

// Of the decimals with so many places that stand for the number the nearest.
fn nearest(bits: u64, scaled: Wide, power: u64, places: usize, shift: usize) -> Option<Wide>
    requires { InStep bits (value_of scaled) power places shift }
    ensures { value_given result ≡ nearest bits places }
{
    if TOO_SMALL < shift - places {
        return None;
    }
    let cut = scaled.cut((shift - places) as u32);
    chosen(&cut, power, step(bits), bits % 2 == 0)
}

// The same with the fewest places, for a number that has binary digits behind the point.
fn search(bits: u64) -> Option<Decimal>
    requires { (0 < bits) × (exponent bits < 1075) }
    ensures found { decimal_given result ≡ fewest 25 0 bits }
    ensures few { IfSome result (λ x. x.places < 25) }
{
    let exponent = bits / EXPONENT;
    let shift = (WHOLE - if exponent == 0 { 1 } else { exponent }) as usize;
    let mut scaled = Wide::from_word(mantissa(bits));
    let mut power = 1;
    for places in 0..25 {
        if let Some(digits) = nearest(bits, scaled, power, places, shift) {
            return Some(Decimal { digits, places });
        }
        scaled = scaled.times_five();
        power *= 5;
    }
    None
}

// A whole number's digits.
fn whole(mantissa: u64, shift: u64) -> Wide
    requires { (mantissa < 2 ^ 53) × (shift < 32) }
    ensures { value_of result ≡ mantissa * 2 ^ shift }
{
    let mut digits = Wide::from_word(mantissa);
    for i in 0..shift {
        digits = digits.doubled();
    }
    digits
}

// The nearest decimal with the fewest places, for a number that is not too long.
fn found(bits: u64) -> Option<Decimal>
    requires { exponent bits < 1107 }
    ensures found { decimal_given result ≡ fewest 25 0 bits }
    ensures few { IfSome result (λ x. x.places < 25) }
{
    let exponent = bits / EXPONENT;
    if bits == 0 {
        Some(Decimal {
            digits: Wide::from_word(0),
            places: 0,
        })
    } else if exponent < WHOLE {
        search(bits)
    } else {
        Some(Decimal {
            digits: whole(mantissa(bits), exponent - WHOLE),
            places: 0,
        })
    }
}

// How many decimal digits a number has; 0 has none.
fn width(n: Wide) -> usize
    ensures width { result ≡ width 400 (value_of n) }
    ensures few { result ≤ 40 }
{
    let mut rest = n;
    for count in 0..40 {
        if rest.is_zero() {
            return count;
        }
        rest = rest.tenth();
    }
    40
}

// The part before the point.
fn before_point(x: &Decimal) -> Wide
    ensures { value_of result ≡ value_of x.now.digits / 10 ^ x.now.places }
{
    let mut rest = x.digits;
    for i in 0..x.places {
        rest = rest.tenth();
    }
    rest
}

// How many digits it has, of which there is one at least.
fn before_len(whole: Wide) -> usize
    ensures some { result ≡ (if value_of whole == 0 then 1 else width 400 (value_of whole)) }
    ensures few { result ≤ 40 }
{
    if whole.is_zero() { 1 } else { width(whole) }
}

// What is written of a number: nothing if it has a sign, is not finite, or would have over 25 digits.
pub fn decimal_of(bits: u64) -> Option<Decimal>
    ensures decimal { decimal_given result ≡ decimal bits }
    // It is the nearest of the decimals with the fewest places that read as this number, or there is a reason for none.
    ensures written { Written bits (decimal_given result) }
    // The standard library's `parse_float` reads the text back as this number.
    ensures read_back { ReadBack bits (decimal_given result) }
    ensures short { IfSome result (λ x. digit_count (of_decimal x) ≤ 25) }
{
    if LONG * EXPONENT <= bits {
        return None;
    }
    if 0 < bits && bits < TINY * EXPONENT {
        return None;
    }
    match found(bits) {
        Some(x) => {
            if before_len(before_point(&x)) + x.places <= MOST_DIGITS {
                Some(x)
            } else {
                None
            }
        }
        None => None,
    }
}

// How many bytes its text has.
pub fn text_len(x: &Decimal) -> usize
    requires { digit_count (of_decimal x.now) ≤ 25 }
    ensures { result ≡ length (text (of_decimal x.now)) }
{
    let before = before_len(before_point(x));
    if x.places == 0 {
        before
    } else {
        before + 1 + x.places
    }
}

// Writes a byte.
fn put_byte(out: &mut [u8], at: usize, byte: u8)
    requires { at < length out.old }
    ensures { Puts out.old out.new at (byte ∷ []) }
{
    out[at] = byte;
}

// Writes the last `count` digits of n from `at` on.
fn put_digits(out: &mut [u8], at: usize, count: usize, n: Wide)
    requires { at + count ≤ length out.old }
    ensures { Puts out.old out.new at (last_digits count (value_of n)) }
{
    if count == 0 {
        return;
    }
    put_digits(out, at, count - 1, n.tenth());
    put_byte(out, at + (count - 1), 48 + n.last_digit());
}

// Writes its text from `at` on, and gives the place behind it.
pub fn put_text(out: &mut [u8], at: usize, x: &Decimal) -> usize
    requires { at + length (text (of_decimal x.now)) ≤ length out.old }
    ensures end { result ≡ at + length (text (of_decimal x.now)) }
    ensures text { Puts out.old out.new at (text (of_decimal x.now)) }
{
    let whole = before_point(x);
    let before = before_len(whole);
    put_digits(out, at, before, whole);
    if x.places == 0 {
        return at + before;
    }
    put_byte(out, at + before, b'.');
    put_digits(out, at + before + 1, x.places, x.digits);
    at + before + 1 + x.places
}
