// The lines that the bench program prints. Each is put into a text that has room for it, so no call can fail: they are no `Display`, whose `fmt`
// can.
#![tactic(auto)]

ghost use Rattle.std.specs.Prelude.{◌≡◌, ◌+◌, ◌≤◌, ◌++◌, length};
ghost use Rattle.rowtext.specs.Digits.{octals, octal6, decimal};
ghost use Rattle.rowtext.specs.Row.{address_text, row_of, bad_of, header_of};

use fewbytes::FewBytes;

// A line of the output. The longest row has 48 bytes.
pub type Text = FewBytes<64>;

// The last `count` octal digits of n.
#[tactic(auto, using(crate::proofs::Figures::octals_more, crate::proofs::Figures::octals_none))]
fn push_octals(text: &mut Text, count: usize, n: u32)
    requires { length text.old + count ≤ 64 }
    ensures digits { text.new ≡ text.old ++ octals count n }
    ensures len { length text.new ≡ length text.old + count }
{
    if count > 0 {
        push_octals(text, count - 1, n / 8);
        text.push(b'0' + (n % 8) as u8);
    }
}

// "six digits each"
#[tactic(auto, unfolding(crate::specs::Digits::octal6))]
fn push_octal(text: &mut Text, n: u32)
    requires { length text.old + 6 ≤ 64 }
    ensures digits { text.new ≡ text.old ++ octal6 n }
    ensures len { length text.new ≡ length text.old + 6 }
{
    push_octals(text, 6, n);
}

// All decimal digits of n: as many as it has, where `push_octals` writes as many as it is asked for, zeros in front.
#[tactic(auto, using(crate::proofs::Decimals::decimal_one, crate::proofs::Figures::decimal_more, crate::proofs::Figures::decimal_length_more, crate::proofs::Figures::decimal_leaves))]
fn push_decimals(text: &mut Text, n: u64)
    requires { length text.old + length (decimal n) ≤ 64 }
    ensures { text.new ≡ text.old ++ decimal n }
{
    if n < 10 {
        text.push(b'0' + n as u8);
        return;
    }
    push_decimals(text, n / 10);
    text.push(b'0' + (n % 10) as u8);
}

// At most 20 digits.
#[tactic(auto, using(crate::proofs::Figures::decimal_length, crate::proofs::Figures::decimal_takes))]
fn push_decimal(text: &mut Text, n: u64)
    requires { length text.old + 20 ≤ 64 }
    ensures digits { text.new ≡ text.old ++ decimal n }
    ensures len { length text.new ≤ length text.old + 20 }
{
    push_decimals(text, n);
}

// "physical (six digits each, or `-`)"
#[tactic(auto, unfolding(crate::specs::Row::address_text))]
fn push_place(text: &mut Text, physical: Option<u32>)
    requires { length text.old + 6 ≤ 64 }
    ensures place { text.new ≡ text.old ++ address_text physical }
    ensures len { length text.new ≤ length text.old + 6 }
{
    match physical {
        Some(address) => push_octal(text, address),
        None => text.push(b'-'),
    }
}

// "Each call prints its decimal number, answer, data, physical (six digits each, or `-`) and KTCS."
#[tactic(auto, unfolding(crate::specs::Row::row_of))]
pub fn row(call: u64, answer: u16, datum: u16, physical: Option<u32>, ktcs: u16) -> Text
    ensures { result ≡ row_of call answer datum physical ktcs }
{
    let mut text = Text::new();
    push_decimal(&mut text, call);
    text.push(b'\t');
    push_decimal(&mut text, u64::from(answer));
    text.push(b'\t');
    push_octal(&mut text, u32::from(datum));
    text.push(b'\t');
    push_place(&mut text, physical);
    text.push(b'\t');
    push_octal(&mut text, u32::from(ktcs));
    text.push(b'\n');
    text
}

// "A bad line prints `BAD`, tab, its decimal line number."
#[tactic(auto, unfolding(crate::specs::Row::bad_of))]
pub fn bad_line(number: u64) -> Text
    ensures { result ≡ bad_of number }
{
    let mut text = Text::new();
    text.push(b'B');
    text.push(b'A');
    text.push(b'D');
    text.push(b'\t');
    push_decimal(&mut text, number);
    text.push(b'\n');
    text
}

// The names over the columns.
#[tactic(auto, unfolding(crate::specs::Row::header_of))]
pub fn header() -> &'static [u8]
    ensures { result.now ≡ header_of }
{
    b"CALL\tANS\tDATA\tPHYS\tKTCS\n"
}
