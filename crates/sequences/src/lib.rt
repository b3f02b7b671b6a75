// What the sequence accesses, an interrupt, a trap and INIT do to the core (01, "Sequences").
#![tactic(auto)]

ghost use Rattle.std.specs.Prelude.{◌≡◌};
ghost use Rattle.rules.specs.Unit.{init_core};
ghost use Rattle.rules.specs.Sequences.{status_stored, program_counter_stored, first_read_done, user_started, interrupted, is_trap, trap_twice, trap_taken, trapped, vector_listed, idle};

use rules::{Core, Fetch, Kind, Ktcs, Paging, VECTORS, Wait};

// The two SERVICE stores -----------------------------------------------------------------------------------------------

// "The first puts data in KTPS"
#[tactic(auto, unfolding(rules::specs::Sequences::status_stored))]
pub fn status_stored(c: Core, v: u16) -> Core
    ensures { result ≡ status_stored c v }
{
    Core {
        kept: registers::stored(c.kept, registers::KTPS, v),
        wait: Wait::ProgramCounterDue,
        ..c
    }
}

// "the second puts address in KTSP and data in KTPC"
#[tactic(auto, unfolding(rules::specs::Sequences::program_counter_stored))]
pub fn program_counter_stored(c: Core, a: u16, v: u16) -> Core
    ensures { result ≡ program_counter_stored c a v }
{
    let kept = registers::stored(c.kept, registers::KTSP, a);
    Core {
        kept: registers::stored(kept, registers::KTPC, v),
        wait: Wait::Nothing,
        ..c
    }
}

// The two START reads --------------------------------------------------------------------------------------------------

// After the first, the second is due.
#[tactic(auto, unfolding(rules::specs::Sequences::first_read_done))]
pub fn first_read_done(c: Core) -> Core
    ensures { result ≡ first_read_done c }
{
    Core {
        wait: Wait::SecondReadDue,
        ..c
    }
}

// "the second sets UM, FCN 2 and clears fetch memory"
#[tactic(auto, unfolding(rules::specs::Sequences::user_started, rules::specs::Status::with_modes))]
pub fn user_started(c: Core) -> Core
    ensures { result ≡ user_started c }
{
    Core {
        ktcs: Ktcs {
            fcn: Paging::Normal as u16,
            um: true,
            ..c.ktcs
        },
        wait: Wait::Nothing,
        fetch: fetched::clear_fetch(),
        ..c
    }
}

// Interrupt, trap and INIT ---------------------------------------------------------------------------------------------

// "Interrupt: IU takes UM; from user mode UM clears, fetch memory clears, and the same wait begins."
#[tactic(auto, unfolding(rules::specs::Sequences::interrupted, rules::specs::Unit::with_ktcs, rules::specs::Status::with_modes, rules::specs::Choice::pick))]
pub fn interrupted(c: Core) -> Core
    ensures { result ≡ interrupted c }
{
    if c.ktcs.um {
        violations::service_awaited(c)
    } else {
        Core {
            ktcs: Ktcs {
                iu: false,
                ..c.ktcs
            },
            ..c
        }
    }
}

#[tactic(auto, unfolding(rules::specs::Sequences::is_trap))]
fn is_trap(k: Kind) -> bool
    ensures { result ≡ is_trap k }
{
    matches!(k, Kind::Trap)
}

// Whether the last two fetched words are both TRAP.
#[tactic(auto, unfolding(rules::specs::Sequences::trap_twice))]
pub fn trap_twice(f: Fetch) -> bool
    ensures { result ≡ trap_twice f }
{
    is_trap(kinds::kind_of(f.newer)) && is_trap(kinds::kind_of(f.older))
}

// "Trap from user mode: the same, except vector 34o when the last two fetched words are not both TRAP"
#[tactic(auto, unfolding(rules::specs::Sequences::trap_taken))]
pub fn trap_taken(c: Core, v: u64) -> bool
    ensures { result ≡ trap_taken c v }
{
    c.ktcs.um && (v != 0o34 || trap_twice(c.fetch))
}

// "that changes nothing. Trap from exec changes nothing."
#[tactic(auto, unfolding(rules::specs::Sequences::trapped, rules::specs::Choice::pick))]
pub fn trapped(c: Core, v: u64) -> Core
    ensures { result ≡ trapped c v }
{
    if trap_taken(c, v) {
        violations::service_awaited(c)
    } else {
        c
    }
}

// A trap's shape: its vector is in the list, by the search that registers are found by too.
#[tactic(auto, unfolding(rules::specs::Sequences::vector_listed, rules::specs::Registers::among))]
pub fn vector_listed(v: u64) -> bool
    ensures { result ≡ vector_listed v }
{
    registers::found(&VECTORS, v as usize).is_some()
}

// Whether an interrupt or a trap may come: not while the unit waits, and not in FCN 3.
#[tactic(auto, unfolding(rules::specs::Sequences::idle))]
pub fn idle(c: Core) -> bool
    ensures { result ≡ idle c.wait c.ktcs.fcn }
{
    matches!(c.wait, Wait::Nothing) && c.ktcs.fcn != Paging::StartUser as u16
}

// "INIT clears KTCS, the wait, the fetch memory ..; other registers stay (H)."
#[tactic(auto, unfolding(rules::specs::Unit::init_core))]
pub fn init_core(c: Core) -> Core
    ensures { result ≡ init_core c }
{
    Core {
        ktcs: status::clear_ktcs(),
        wait: Wait::Nothing,
        fetch: fetched::clear_fetch(),
        ..c
    }
}
