// One line of the bench program's input, without its newline: a letter and then octal numbers, with tabs between.
#![tactic(auto)]

ghost use Rattle.std.specs.Prelude.{◌≡◌, drop};
ghost use Rattle.fieldtext.specs.Cut.{fields};
ghost use Rattle.linetext.specs.Line.{line_of, store_of, access_of, trap_of, alone_of, by_letter};

use rules::Access;

// What a line asks for.
#[derive(Clone, Copy)]
pub enum Line {
    Store(u16, u16),
    Access(Access),
    Interrupt,
    Trap(u16),
    Init,
}

// "`W` address value (even, one memory word)"
#[tactic(auto, using(crate::proofs::Numbers::store_read), unfolding(rules::specs::Choice::pick))]
fn store(line: &[u8]) -> Option<Line>
    ensures { result ≡ store_of (drop 1 (fields line.now)) }
{
    let [addr, word] = fieldtext::numbers::<2>(line)?;
    (addr % 2 == 0).then_some(Line::Store(addr, word))
}

// "`A` operation state width address data"
#[tactic(auto, using(crate::proofs::Numbers::access_read))]
fn access(line: &[u8]) -> Option<Line>
    ensures { result ≡ access_of (drop 1 (fields line.now)) }
{
    let [op, state, width, addr, datum] = fieldtext::numbers::<5>(line)?;
    Some(Line::Access(Access {
        op: u64::from(op),
        state: u64::from(state),
        width: u64::from(width),
        addr,
        datum,
    }))
}

// "`T` vector"
#[tactic(auto, using(crate::proofs::Numbers::trap_read))]
fn trap(line: &[u8]) -> Option<Line>
    ensures { result ≡ trap_of (drop 1 (fields line.now)) }
{
    let [vector] = fieldtext::numbers::<1>(line)?;
    Some(Line::Trap(vector))
}

// "`I` (interrupt)", "`X` (INIT)": the letter is the whole line.
#[tactic(auto, using(crate::proofs::Numbers::alone_read))]
fn alone(line: &[u8], asks: Line) -> Option<Line>
    ensures { result ≡ alone_of asks (drop 1 (fields line.now)) }
{
    let [] = fieldtext::numbers::<0>(line)?;
    Some(asks)
}

// What the letter asks for, with the numbers after it.
#[tactic(auto, unfolding(crate::specs::Line::by_letter, rules::specs::Choice::pick))]
fn by_letter(letter: u8, line: &[u8]) -> Option<Line>
    ensures { result ≡ by_letter letter (drop 1 (fields line.now)) }
{
    match letter {
        b'W' => store(line),
        b'A' => access(line),
        b'I' => alone(line, Line::Interrupt),
        b'T' => trap(line),
        b'X' => alone(line, Line::Init),
        _ => None,
    }
}

// What a line asks for, unless it is bad. A carriage return, a blank or a tab too many leaves a field that is no letter or no number, or one
// field too many.
#[tactic(auto, using(crate::proofs::Letters::line_letter, crate::proofs::Letters::line_empty, crate::proofs::Letters::line_longer))]
pub fn parse(line: &[u8]) -> Option<Line>
    ensures { result ≡ line_of line.now }
{
    match &line[..fieldtext::field_end(line)] {
        [letter] => by_letter(*letter, line),
        _ => None,
    }
}
