// The whole access: steps 1 and 2, the sequence accesses, and on to the paged or the unpaged steps.
#![tactic(auto)]

ghost use Rattle.std.specs.Prelude.{◌≡◌};
ghost use Rattle.rules.specs.Program.{run};
ghost use Rattle.rules.specs.Order.{accessed};

use rules::{Access, Answer, Due, Ran, Unit};
use transfer::Stage;

// "1. Shape (answer 1).", "2. The wait (2); a due sequence access ends here.", and on: where nothing is due, the steps go on unpaged, or, after
// step 4, paged. Memory is read alone: what is to be stored is in the outcome. The stage is made
// from memory and unit only where step 4 is come to, for speed.
#[tactic(auto, unfolding(transfer::specs::Stage::ran, rules::specs::Order::accessed, rules::specs::Order::after_wait, rules::specs::Choice::pick, rules::specs::Program::run))]
pub fn accessed(m: &[u8], u: &Unit, q: Access) -> Ran
    ensures { result ≡ run m.now u.now.maps (accessed m.now u.now.cells.size u.now.core u.now.maps q) u.now.cells }
{
    let core = u.core;
    let outcome = if shape::well_shaped(m.len(), q) {
        match shape::due_of(core, q) {
            Due::Steps if pages::unpaged(core.ktcs.fcn, q.state) => {
                return unpaged::unpaged_from(m, u, q);
            }
            Due::Steps => return paged::paged_from(&Stage::noted(m, u, q)),
            Due::OutOfTurn => endings::refused(core, Answer::NotDue),
            Due::StatusStore => endings::sequenced(0, sequences::status_stored(core, q.datum)),
            Due::ProgramCounterStore => {
                endings::sequenced(0, sequences::program_counter_stored(core, q.addr, q.datum))
            }
            Due::FirstRead => {
                let given = registers::kept_word(&core.kept, registers::KTPC);
                endings::sequenced(given, sequences::first_read_done(core))
            }
            Due::SecondRead => {
                let given = registers::kept_word(&core.kept, registers::KTPS);
                endings::sequenced(given, sequences::user_started(core))
            }
        }
    } else {
        endings::refused(core, Answer::Misshapen)
    };
    Ran {
        outcome,
        cells: u.cells,
    }
}
