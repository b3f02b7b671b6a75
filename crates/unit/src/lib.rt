// The calls of the unit: access, interrupt, trap and INIT, and the making of a fresh unit. Here alone memory, cells and map registers change.
#![tactic(auto)]

ghost use Rattle.std.specs.Prelude.{◌≡◌, []};
ghost use Rattle.rules.specs.Memory.{Memory};
ghost use Rattle.rules.specs.Program.{done};
ghost use Rattle.rules.specs.Unit.{zero_unit};
ghost use Rattle.rules.specs.Calls.{interrupt_of, trap_of, init_of, maps_after, cells_after, memory_after, settled, call_of, fresh};

use rules::{
    Access, Answer, Call, Cells, Core, Effect, KEPT, Maps, Outcome, ROOM, Ran, Reply, Size, Unit,
    Wait,
};

#[tactic(auto, unfolding(rules::specs::Calls::interrupt_of, rules::specs::Choice::pick))]
fn interrupt_of(c: Core) -> Outcome
    ensures { done result ≡ interrupt_of c }
{
    if sequences::idle(c) {
        return endings::sequenced(0, sequences::interrupted(c));
    }
    endings::refused(c, Answer::NotDue)
}

// "In every call 1 comes before 2"
#[tactic(auto, unfolding(rules::specs::Calls::trap_of, rules::specs::Choice::pick))]
fn trap_of(c: Core, v: u64) -> Outcome
    ensures { done result ≡ trap_of c v }
{
    if !sequences::vector_listed(v) {
        endings::refused(c, Answer::Misshapen)
    } else if sequences::idle(c) {
        endings::sequenced(0, sequences::trapped(c, v))
    } else {
        endings::refused(c, Answer::NotDue)
    }
}

#[tactic(auto, unfolding(rules::specs::Calls::init_of, rules::specs::Order::outcome))]
fn init_of(c: Core, r: Maps) -> Outcome
    ensures { done result ≡ init_of c r }
{
    Outcome {
        answer: Answer::Taken(0),
        core: sequences::init_core(c),
        effect: Effect::Reload(r),
    }
}

#[tactic(auto, unfolding(rules::specs::Calls::maps_after))]
fn maps_after(e: Effect, r: Maps) -> Maps
    ensures { result ≡ maps_after e r }
{
    match e {
        Effect::Reload(loaded) => loaded,
        _ => r,
    }
}

#[tactic(auto, unfolding(rules::specs::Calls::cells_after))]
fn cells_after(e: Effect, k: Cells) -> Cells
    ensures { result ≡ cells_after e k }
{
    match e {
        Effect::Keep | Effect::StoreWord(_, _) | Effect::StoreByte(_, _) => k,
        Effect::Forget(tag) => cells::forgotten(k, tag),
        Effect::Reload(_) => cells::emptied(k),
        Effect::StorePad(i, p, v) => cells::pad_stored(k, i, p, v),
    }
}

// What an effect does to memory.
#[tactic(auto, unfolding(rules::specs::Calls::memory_after))]
pub fn store(m: &mut [u8], e: Effect)
    ensures { m.new ≡ memory_after e m.old }
{
    match e {
        Effect::StoreWord(at, v) => memory::store_word(m, at, v),
        Effect::StoreByte(at, v) => memory::store_byte(m, at, v),
        _ => {}
    }
}

// The unit after a decision. The reply tells nothing of memory, so it is the same over any.
#[tactic(auto, unfolding(rules::specs::Calls::settled))]
fn unit_after(maps: Maps, ran: Ran) -> Reply
    ensures { result ≡ (settled [] maps ran).reply }
{
    let Outcome {
        answer,
        core,
        effect,
    } = ran.outcome;
    Reply {
        answer,
        unit: Unit {
            core,
            maps: maps_after(effect, maps),
            cells: cells_after(effect, ran.cells),
        },
    }
}

// The unit after a decision that takes no look-up.
fn decided(u: Unit, outcome: Outcome) -> Reply
    ensures { result ≡ (settled [] u.maps (record { outcome = outcome; cells = u.cells })).reply }
{
    let ran = Ran {
        outcome,
        cells: u.cells,
    };
    unit_after(u.maps, ran)
}

// One access of the processor's, over the memory that the host lends. Memory changes by the store of an access that is done, and no other.
#[tactic(auto, unfolding(rules::specs::Calls::call_of, rules::specs::Calls::called, rules::specs::Calls::settled, rules::specs::Program::run))]
pub fn access(u: Unit, m: &mut [u8], q: Access) -> Reply
    ensures reply { result ≡ (call_of m.old u (Call.Access q)).reply }
    ensures memory { m.new ≡ (call_of m.old u (Call.Access q)).memory }
{
    let ran = access::accessed(m, &u, q);
    store(m, ran.outcome.effect);
    unit_after(u.maps, ran)
}

// A device interrupts.
#[tactic(auto, unfolding(rules::specs::Calls::call_of, rules::specs::Calls::called, rules::specs::Calls::settled, rules::specs::Program::run))]
pub fn interrupt(u: Unit) -> Reply
    ensures { (m : Memory) → result ≡ (call_of m u Call.Interrupt).reply }
{
    decided(u, interrupt_of(u.core))
}

// The processor traps through a vector, a number of any size.
#[tactic(auto, unfolding(rules::specs::Calls::call_of, rules::specs::Calls::called, rules::specs::Calls::settled, rules::specs::Program::run))]
pub fn trap(u: Unit, vector: u64) -> Reply
    ensures { (m : Memory) → result ≡ (call_of m u (Call.Trap vector)).reply }
{
    decided(u, trap_of(u.core, vector))
}

// The bus signal INIT, which is always accepted.
#[tactic(auto, unfolding(rules::specs::Calls::call_of, rules::specs::Calls::called, rules::specs::Calls::settled, rules::specs::Program::run))]
pub fn init(u: Unit) -> Reply
    ensures { (m : Memory) → result ≡ (call_of m u Call.Init).reply }
{
    decided(u, init_of(u.core, u.maps))
}

// "all zero"
#[tactic(auto, unfolding(rules::specs::Unit::zero_unit, rules::specs::Unit::empty_cell))]
fn zero(size: Size) -> Unit
    ensures { result ≡ zero_unit size }
{
    Unit {
        core: Core {
            ktcs: status::clear_ktcs(),
            kept: [0; KEPT],
            wait: Wait::Nothing,
            fetch: fetched::clear_fetch(),
        },
        maps: Maps { ktum: 0, ktem: 0 },
        cells: Cells {
            size,
            list: [cells::EMPTY; ROOM],
            counter: 0,
        },
    }
}

// "A fresh unit is all zero, then INIT.", of either size.
#[tactic(auto, unfolding(rules::specs::Calls::fresh))]
pub fn fresh(size: Size) -> Unit
    ensures { result ≡ fresh size }
{
    init(zero(size)).unit
}
