// The unpaged access: step 3, step 4, and step 10 at the address as it stands.
#![tactic(auto)]

ghost use Rattle.std.specs.Prelude.{◌≡◌};
ghost use Rattle.rules.specs.Program.{run};
ghost use Rattle.rules.specs.Order.{unpaged_from};

use rules::{Access, Answer, Place, Ran, Unit};
use transfer::Stage;

// "3. Unpaged odd word (3).", then step 4, and "10. Target at or beyond L and not a register above (9)."; the window unpaged is a time-out.
// A fetch keeps the public flag, which moves "only in normal paging". The stage is made here, from memory and unit, once step 3 has passed.
#[tactic(auto, unfolding(transfer::specs::Stage::ran, rules::specs::Order::unpaged_from, rules::specs::Order::unpaged_target, rules::specs::Order::unpaged_reached, rules::specs::Choice::pick, rules::specs::Program::run, rules::specs::Order::read_at, rules::specs::Order::read_from, rules::specs::Order::source_at, rules::specs::Order::word_read, rules::specs::Order::word_from))]
pub fn unpaged_from(m: &[u8], u: &Unit, q: Access) -> Ran
    ensures { result ≡ run m.now u.now.maps (unpaged_from m.now u.now.cells.size u.now.core u.now.maps q) u.now.cells }
{
    if steps::odd_word(q.width, q.addr) {
        return Ran {
            outcome: endings::refused(u.core, Answer::UnpagedOdd),
            cells: u.cells,
        };
    }
    let s = Stage::noted(m, u, q);
    let at = pages::unpaged_at(q.addr);
    match s.place(at) {
        Place::There(t) if fetched::is_fetch(q) => {
            let w = s.word_read(at, t);
            s.ended(endings::fetched(s.job, at, s.job.core.fetch.public, w))
        }
        Place::There(t) => s.transferred(at, t),
        Place::Window | Place::Nowhere => s.ended(endings::unpaged_time_out(s.job)),
    }
}
