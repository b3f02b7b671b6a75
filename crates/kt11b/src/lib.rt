// The static library for hosts: the calls of the unit over words that the host owns, and what front panels and debuggers read.
// No function requires anything: a call or a reading answers words that don't hold a unit by 70, and they stay as they are. The C header is host/include/kt11b.h.
#![tactic(auto)]

ghost use Rattle.std.specs.Prelude.{◌≡◌, Some};
ghost use Rattle.rules.specs.declared.Call.{Call};
ghost use Rattle.rules.specs.Memory.{Memory};
ghost use Rattle.rules.specs.Calls.{call_of};
ghost use Rattle.rules.specs.Unit.{size_of};
ghost use Rattle.rules.specs.Answers.{shown, making_shown};
ghost use Rattle.coding.specs.Coding.{decoded, unit_in, coded};
ghost use Rattle.replies.specs.Replies.{reply_word};
ghost use Rattle.panel.specs.Panel.{register_read, count_read, tag_read, word_read, counter_read, wait_read, page_place};
ghost use Rattle.kt11b.specs.Doors.{words_made, words_after, memory_after, reply_after, IsCall};

use replies::Refusal;
use rules::{Access, Reply, Unit};

// Calls ----------------------------------------------------------------------------------------------------------------

// "A fresh unit is all zero, then INIT.", with 8 or 24 cells, whatever was in the words. Any other number is answered 30, and the words stay as
// they were.
#[tactic(auto, unfolding(crate::specs::Doors::words_made))]
#[unsafe(no_mangle)]
pub extern "C" fn kt11b_fresh(unit: &mut [u16; coding::WORDS], cells: u64) -> u64
    ensures words { unit.new ≡ words_made unit.old (size_of cells) }
    ensures reply { result ≡ reply_word (making_shown (size_of cells)) }
{
    let how = sizes::size_of(cells);
    if let Some(size) = how {
        coding::store(unit, &unit::fresh(size));
    }
    replies::making_replied(how)
}

// The unit that a call leaves goes back into its words, and its answer to the host.
fn put_back(unit: &mut [u16; coding::WORDS], reply: &Reply) -> u64
    ensures words { unit.new ≡ coded reply.now.unit }
    ensures answer { result ≡ reply_word (shown reply.now.answer) }
{
    coding::store(unit, &reply.unit);
    replies::replied(reply.answer)
}

// An access by all its steps, of the unit that the words hold: whether they hold one was asked before. It stays out of the usual access's frame.
#[inline(never)]
fn by_steps(unit: &mut [u16; coding::WORDS], memory: &mut [u8], q: Access) -> u64
    ensures words { unit.new ≡ coded (call_of memory.old (decoded unit.old) (Call.Access q)).reply.unit }
    ensures memory { memory.new ≡ (call_of memory.old (decoded unit.old) (Call.Access q)).memory }
    ensures reply { result ≡ reply_word (shown (call_of memory.old (decoded unit.old) (Call.Access q)).reply.answer) }
{
    let reply = unit::access(coding::decoded(unit), memory, q);
    put_back(unit, &reply)
}

// An access as it comes: the usual one on the core alone, any other by all its steps. The core is read without the rest of the unit, for speed: to
// decode all of it here was slower.
#[tactic(auto, unfolding(crate::specs::Doors::words_after, crate::specs::Doors::memory_after, crate::specs::Doors::reply_after, rules::specs::Choice::pick))]
fn by_sort(unit: &mut [u16; coding::WORDS], memory: &mut [u8], q: Access) -> u64
    ensures words { unit.new ≡ words_after memory.old unit.old (Call.Access q) }
    ensures memory { memory.new ≡ memory_after memory.old unit.old (Call.Access q) }
    ensures reply { result ≡ reply_after memory.old unit.old (Call.Access q) }
{
    if !coding::is_unit(unit) {
        // Words that don't hold a unit stay as they are.
        return replies::refused(Refusal::NoUnit);
    }
    let c = coding::core_of(unit);
    if quick::usual(memory.len(), c, q)
        && let Some(o) = quick::attempted(memory, c, q, &coding::cells_of(unit))
    {
        unit::store(memory, o.effect);
        let maps = coding::maps_of(unit);
        coding::store_core(unit, &o.core, maps);
        return replies::replied(o.answer);
    }
    by_steps(unit, memory, q)
}

#[unsafe(no_mangle)]
pub extern "C" fn kt11b_access(
    unit: &mut [u16; coding::WORDS],
    memory: &mut [u8],
    operation: u64,
    state: u64,
    width: u64,
    address: u16,
    datum: u16,
) -> u64
    ensures words { unit.new ≡ words_after memory.old unit.old (Call.Access (record { op = operation; state = state; width = width; addr = address; datum = datum })) }
    ensures memory { memory.new ≡ memory_after memory.old unit.old (Call.Access (record { op = operation; state = state; width = width; addr = address; datum = datum })) }
    ensures reply { result ≡ reply_after memory.old unit.old (Call.Access (record { op = operation; state = state; width = width; addr = address; datum = datum })) }
{
    let q = Access {
        op: operation,
        state,
        width,
        addr: address,
        datum,
    };
    by_sort(unit, memory, q)
}

// A call that leaves memory alone, of the unit that the words hold, if they hold one.
#[tactic(auto, unfolding(coding::specs::Coding::unit_in, rules::specs::Choice::pick))]
fn called<F: FnOnce(Unit) -> Reply>(unit: &mut [u16; coding::WORDS], call: F) -> u64
    requires { (u : Unit) → unit_in unit.old ≡ Some u → F.pre call u }
    ensures { IsCall (F.post call) unit.old unit.new result }
{
    let Some(u) = coding::unit_in(unit) else {
        return replies::refused(Refusal::NoUnit);
    };
    put_back(unit, &call(u))
}

#[tactic(auto, unfolding(crate::specs::Doors::words_after, crate::specs::Doors::reply_after, coding::specs::Coding::unit_in, rules::specs::Choice::pick))]
#[unsafe(no_mangle)]
pub extern "C" fn kt11b_interrupt(unit: &mut [u16; coding::WORDS]) -> u64
    ensures words { (m : Memory) → unit.new ≡ words_after m unit.old Call.Interrupt }
    ensures reply { (m : Memory) → result ≡ reply_after m unit.old Call.Interrupt }
{
    called(unit, unit::interrupt)
}

#[tactic(auto, unfolding(crate::specs::Doors::words_after, crate::specs::Doors::reply_after, coding::specs::Coding::unit_in, rules::specs::Choice::pick))]
#[unsafe(no_mangle)]
pub extern "C" fn kt11b_trap(unit: &mut [u16; coding::WORDS], vector: u64) -> u64
    ensures words { (m : Memory) → unit.new ≡ words_after m unit.old (Call.Trap vector) }
    ensures reply { (m : Memory) → result ≡ reply_after m unit.old (Call.Trap vector) }
{
    called(unit, |u| unit::trap(u, vector))
}

#[tactic(auto, unfolding(crate::specs::Doors::words_after, crate::specs::Doors::reply_after, coding::specs::Coding::unit_in, rules::specs::Choice::pick))]
#[unsafe(no_mangle)]
pub extern "C" fn kt11b_init(unit: &mut [u16; coding::WORDS]) -> u64
    ensures words { (m : Memory) → unit.new ≡ words_after m unit.old Call.Init }
    ensures reply { (m : Memory) → result ≡ reply_after m unit.old Call.Init }
{
    called(unit, unit::init)
}

// Readings, which change nothing ---------------------------------------------------------------------------------------

// A register by its number in the table of addresses: KTMR 1, KTCS 2, and on to KTEM 10.
#[unsafe(no_mangle)]
pub extern "C" fn kt11b_register(unit: &[u16; coding::WORDS], number: usize) -> u64
    ensures { result ≡ register_read unit.now number }
{
    panel::register_read(unit, number)
}

// How many cells the unit has.
#[unsafe(no_mangle)]
pub extern "C" fn kt11b_cells(unit: &[u16; coding::WORDS]) -> u64
    ensures { result ≡ count_read unit.now }
{
    panel::count_read(unit)
}

#[unsafe(no_mangle)]
pub extern "C" fn kt11b_cell_tag(unit: &[u16; coding::WORDS], index: usize) -> u64
    ensures { result ≡ tag_read unit.now index }
{
    panel::tag_read(unit, index)
}

#[unsafe(no_mangle)]
pub extern "C" fn kt11b_cell_word(unit: &[u16; coding::WORDS], index: usize) -> u64
    ensures { result ≡ word_read unit.now index }
{
    panel::word_read(unit, index)
}

#[unsafe(no_mangle)]
pub extern "C" fn kt11b_counter(unit: &[u16; coding::WORDS]) -> u64
    ensures { result ≡ counter_read unit.now }
{
    panel::counter_read(unit)
}

// 0 nothing, 1 and 2 the SERVICE DATOs, 3 the second START read.
#[unsafe(no_mangle)]
pub extern "C" fn kt11b_wait(unit: &[u16; coding::WORDS]) -> u64
    ensures { result ≡ wait_read unit.now }
{
    panel::wait_read(unit)
}

// Where the page that a map register's word names begins, in a memory of this length, or the number that says that there is none.
#[unsafe(no_mangle)]
pub extern "C" fn kt11b_map_page(length: usize, word: u16) -> usize
    ensures { result ≡ page_place length word }
{
    panel::page_place(length, word)
}
