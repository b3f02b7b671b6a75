// A reply of the library as one number: its data, its physical address and its answer.
#![tactic(auto)]

ghost use Rattle.std.specs.Prelude.{◌≡◌, ◌<◌};
ghost use Rattle.rules.specs.Answers.{shown, making_shown};
ghost use Rattle.replies.specs.Replies.{physical_bits, reply_word, told, refused, read_as};

use rules::{Answer, Returned, Size};

// Why the library refuses a call, a reading or a making, by the number that it answers.
#[derive(Clone, Copy)]
pub enum Refusal {
    // A number that names no register and no cell.
    Misshapen = 1,
    // "Every other number gives 30 and no unit."
    OtherCount = 30,
    // Words that don't hold a unit.
    NoUnit = 70,
}

// Bits 16 to 34. The bound lets the sum of the parts fit.
#[tactic(auto, unfolding(crate::specs::Replies::physical_bits))]
fn physical_bits(physical: Option<usize>) -> u64
    ensures { (result ≡ physical_bits physical) × (result < 0x800000000) }
{
    match physical {
        Some(at) => (at % 0x40000) as u64 * 0x10000 + 0x400000000,
        None => 0,
    }
}

#[tactic(auto, unfolding(crate::specs::Replies::reply_word))]
pub fn reply_word(s: Returned) -> u64
    ensures { result ≡ reply_word s }
{
    u64::from(s.datum) + physical_bits(s.physical) + u64::from(s.number % 256) * 0x10000000000
}

// A reply with no physical address.
#[tactic(auto, unfolding(crate::specs::Replies::told, rules::specs::Answers::shown_as))]
pub fn told(number: u16, datum: u16) -> u64
    ensures { result ≡ told number datum }
{
    reply_word(Returned {
        number,
        datum,
        physical: None,
    })
}

#[tactic(auto, unfolding(crate::specs::Replies::no_unit, crate::specs::Replies::misshapen, crate::specs::Replies::told, rules::specs::Answers::making_shown))]
pub fn refused(why: Refusal) -> u64
    ensures { result ≡ refused why }
{
    told(why as u16, 0)
}

// What a reading answers: the number that was read, or why there is none.
pub fn read_as(reading: Result<u16, Refusal>) -> u64
    ensures { result ≡ read_as reading }
{
    match reading {
        Ok(datum) => told(0, datum),
        Err(why) => refused(why),
    }
}

// What the making of a unit gives.
#[tactic(auto, unfolding(crate::specs::Replies::told, rules::specs::Answers::making_shown))]
pub fn making_replied(how: Option<Size>) -> u64
    ensures { result ≡ reply_word (making_shown how) }
{
    match how {
        Some(_) => told(0, 0),
        None => refused(Refusal::OtherCount),
    }
}

// An answer of the rules.
#[tactic(auto, unfolding(crate::specs::Replies::reply_word))]
pub fn replied(a: Answer) -> u64
    ensures { result ≡ reply_word (shown a) }
{
    reply_word(answers::shown(a))
}
