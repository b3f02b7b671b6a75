// A line's fields, which are cut at each tab, and the numbers in them; and a count, which is read digit by digit like them.
#![tactic(auto)]

ghost use Rattle.std.specs.Prelude.{◌≡◌, ℕ, ◌≤◌, List, length, drop};
ghost use Rattle.std.specs.Iterator.{AlwaysYields};
ghost use Rattle.fieldtext.specs.Number.{digit_of, digits_of, number_of, decimal_of, numbers_of};
ghost use Rattle.fieldtext.specs.Cut.{fields, head_of};

const TAB: u8 = b'\t';

// The length of the first field: how many bytes stand before the first tab, or all of them.
pub fn field_end(s: &[u8]) -> usize
    ensures { (result ≡ length (head_of s.now)) × (result ≤ length s.now) }
{
    s.iter().position(|b| *b == TAB).unwrap_or(s.len())
}

// The digits of a base up to ten are the bytes from 48 on. (Not `to_digit`, which goes on with letters past 9.)
#[tactic(auto, unfolding(crate::specs::Number::digit_of, crate::specs::Number::is_digit, rules::specs::Choice::pick))]
fn digit(b: u8, base: u64) -> Option<u64>
    requires { base ≤ 10 }
    ensures { result ≡ digit_of base b }
{
    let digit = u64::from(b.checked_sub(b'0')?);
    (digit < base).then_some(digit)
}

// What 1 to `most` digits of a base say: bytes that are no digits of their base, none or too many say nothing.
#[tactic(auto, using(crate::proofs::Digits::digits_none, crate::proofs::Digits::digits_many, crate::proofs::Digits::digits_told))]
fn read_digits(bytes: &[u8], base: u64, most: usize) -> Option<u64>
    requires { (base ≤ 10) × (most ≤ 9) }
    ensures { result ≡ digits_of base most bytes.now }
{
    if bytes.is_empty() || most < bytes.len() {
        return None;
    }
    let mut value = 0;
    for b in bytes {
        value = value * base + digit(*b, base)?;
    }
    Some(value)
}

// "Numbers are 1-6 octal digits up to 177777."
#[tactic(auto, using(crate::proofs::Digits::number_by_digits), unfolding(rules::specs::Choice::pick))]
pub fn octal(field: &[u8]) -> Option<u16>
    ensures { result ≡ number_of field.now }
{
    u16::try_from(read_digits(field, 8, 6)?).ok()
}

// A count: "N is 1 to 9 decimal digits." (T-08)
#[tactic(auto, unfolding(crate::specs::Number::decimal_of))]
pub fn count(bytes: &[u8]) -> Option<u64>
    ensures { result ≡ decimal_of bytes.now }
{
    read_digits(bytes, 10, 9)
}

// The numbers in fields, where they are N fields and each is a number.
fn read_numbers<'a, I: Iterator<Item = &'a [u8]> + Drop, const N: usize>(
    mut fields: I,
) -> Option<[u16; N]>
    requires { I.can_next fields }
    ensures { (fs : List (List ℕ)) → AlwaysYields I.next_gives (λ f. f.now) fields fs → result ≡ numbers_of N fs }
{
    let mut words = [0; N];
    for word in &mut words {
        *word = octal(fields.next()?)?;
    }
    fields.next().is_none().then_some(words)
}

// The numbers in a line's fields past the first, where they are N fields and each is a number.
pub fn numbers<const N: usize>(line: &[u8]) -> Option<[u16; N]>
    ensures { result ≡ numbers_of N (drop 1 (fields line.now)) }
{
    read_numbers(line.split(|b| *b == TAB).skip(1))
}
