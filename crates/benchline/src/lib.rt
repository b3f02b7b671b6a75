// What one line of the bench program's input does, and what it prints.
#![tactic(auto)]

ghost use Rattle.std.specs.Prelude.{◌≡◌};
ghost use Rattle.benchline.specs.Bench.{line_done};

use linetext::Line;
use rowtext::Text;
use tally::Bench;

// What one line does to the unit and to memory, and what it prints. A line that asks for nothing known is bad.
#[tactic(auto, using(crate::proofs::Calls::interrupt_memory, crate::proofs::Calls::trap_memory, crate::proofs::Calls::init_memory), unfolding(crate::specs::Bench::line_done, crate::specs::Bench::call_done, tally::specs::Tally::line_counted))]
pub fn line(b: &mut Bench, m: &mut [u8], asks: Option<Line>) -> Text
    ensures bench { b.new ≡ (line_done m.old b.old asks).bench }
    ensures memory { m.new ≡ (line_done m.old b.old asks).memory }
    ensures text { result ≡ (line_done m.old b.old asks).prints }
{
    match asks {
        Some(Line::Store(at, word)) => {
            memory::store_word(m, usize::from(at), word);
            b.count_line();
            Text::new()
        }
        Some(Line::Access(access)) => b.count_call(unit::access(b.unit, m, access)),
        Some(Line::Interrupt) => b.count_call(unit::interrupt(b.unit)),
        Some(Line::Trap(vector)) => b.count_call(unit::trap(b.unit, u64::from(vector))),
        Some(Line::Init) => b.count_call(unit::init(b.unit)),
        None => {
            b.count_line();
            rowtext::bad_line(b.lines)
        }
    }
}
