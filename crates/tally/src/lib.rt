// What the bench program counts, calls and lines, and the row of each call.
#![tactic(auto)]

ghost use Rattle.std.specs.Prelude.{◌≡◌};
ghost use Rattle.tally.specs.Tally.{next, printed_as, call_row, line_counted, call_counted};

use rowtext::Text;
use rules::{Reply, Returned, Unit};

// The unit, and how many calls and lines there were so far.
#[derive(Clone, Copy)]
pub struct Bench {
    pub unit: Unit,
    pub calls: u64,
    pub lines: u64,
}

// One more call or line.
#[tactic(auto, unfolding(crate::specs::Tally::next))]
pub fn next(n: u64) -> u64
    ensures { result ≡ next n }
{
    n.wrapping_add(1)
}

// The cast loses nothing, since 18 bits are left.
#[tactic(auto, unfolding(crate::specs::Tally::printed_as))]
fn printed_as(p: Option<usize>) -> Option<u32>
    ensures { result ≡ printed_as p }
{
    p.map(|at| (at % 0o1000000) as u32)
}

// A call's row.
#[tactic(auto, unfolding(crate::specs::Tally::call_row, crate::specs::Tally::shown_row))]
fn call_row(call: u64, reply: &Reply) -> Text
    ensures { result ≡ call_row call reply.now }
{
    let Returned {
        number,
        datum,
        physical,
    } = answers::shown(reply.answer);
    let ktcs = status::packed(reply.unit.core.ktcs);
    rowtext::row(call, number, datum, printed_as(physical), ktcs)
}

impl Bench {
    // A line that is no call is counted as a line alone.
    #[tactic(auto, unfolding(crate::specs::Tally::line_counted))]
    pub fn count_line(&mut self)
        ensures { self.new ≡ line_counted self.old }
    {
        self.lines = next(self.lines);
    }

    // "call numbers count A, I, T and X, refused ones too"
    #[tactic(auto, unfolding(crate::specs::Tally::call_counted, crate::specs::Tally::line_counted))]
    pub fn count_call(&mut self, reply: Reply) -> Text
        ensures bench { self.new ≡ call_counted self.old reply.unit }
        ensures text { result ≡ call_row (next self.old.calls) reply }
    {
        self.count_line();
        self.calls = next(self.calls);
        self.unit = reply.unit;
        call_row(self.calls, &reply)
    }
}
