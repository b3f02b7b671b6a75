// What a front panel or a debugger reads of the words of a unit, and where a map page lies. Nothing here changes anything.
#![tactic(auto)]

ghost use Rattle.std.specs.Prelude.{◌≡◌, Some};
ghost use Rattle.coding.specs.Coding.{unit_in};
ghost use Rattle.panel.specs.Panel.{register_read, count_read, tag_read, word_read, counter_read, wait_read, page_place};
ghost use Rattle.panel.specs.Panel.{cell_in, IsReading};

use coding::WORDS;
use replies::Refusal;
use rules::{Cell, Cells, Unit};

// The number that says that there is no page: C, which reads it, has no other way to be told so.
const NO_PAGE: usize = usize::MAX;

// What is read of the unit that the words hold, if they hold one.
#[tactic(auto, unfolding(coding::specs::Coding::unit_in, rules::specs::Choice::pick))]
fn read<F: FnOnce(Unit) -> Result<u16, Refusal>>(w: &[u16; WORDS], reading: F) -> u64
    requires { (u : Unit) → unit_in w.now ≡ Some u → F.pre reading u }
    ensures { IsReading (F.post reading) w.now result }
{
    replies::read_as(coding::unit_in(w).ok_or(Refusal::NoUnit).and_then(reading))
}

// A register by its number in the table of addresses: KTMR 1, KTCS 2, and on to KTEM 10. What is lent lies in memory whole: so the cells are taken
// out of the unit first, here and by `cell_in`, and the rest of it need not be decoded.
#[tactic(auto, unfolding(crate::specs::Panel::register_read, crate::specs::Panel::register_told, coding::specs::Coding::unit_in, rules::specs::Choice::pick))]
pub fn register_read(w: &[u16; WORDS], number: usize) -> u64
    ensures { result ≡ register_read w.now number }
{
    read(w, |u| match number {
        1..=10 => {
            let g = registers::register_of(number - 1);
            let k = u.cells;
            Ok(transfer::word_in(u.core, u.maps, &k, g))
        }
        _ => Err(Refusal::Misshapen),
    })
}

// How many cells the unit has.
#[tactic(auto, unfolding(crate::specs::Panel::count_read, coding::specs::Coding::unit_in, rules::specs::Choice::pick))]
pub fn count_read(w: &[u16; WORDS]) -> u64
    ensures { result ≡ count_read w.now }
{
    read(w, |u| Ok(sizes::count_of(u.cells.size) as u16))
}

// The cell at this place, if the unit has such a cell.
#[tactic(auto, unfolding(rules::specs::Unit::there, rules::specs::Choice::pick))]
fn cell_in(k: Cells, index: usize) -> Result<Cell, Refusal>
    ensures { result ≡ cell_in k index }
{
    if index < sizes::count_of(k.size) {
        Ok(cells::cell_at(&k, index))
    } else {
        Err(Refusal::Misshapen)
    }
}

#[tactic(auto, unfolding(crate::specs::Panel::cell_read, coding::specs::Coding::unit_in, rules::specs::Choice::pick))]
pub fn tag_read(w: &[u16; WORDS], index: usize) -> u64
    ensures { result ≡ tag_read w.now index }
{
    read(w, |u| Ok(cell_in(u.cells, index)?.tag))
}

#[tactic(auto, unfolding(crate::specs::Panel::cell_read, coding::specs::Coding::unit_in, rules::specs::Choice::pick))]
pub fn word_read(w: &[u16; WORDS], index: usize) -> u64
    ensures { result ≡ word_read w.now index }
{
    read(w, |u| Ok(cell_in(u.cells, index)?.word))
}

#[tactic(auto, unfolding(crate::specs::Panel::counter_read, coding::specs::Coding::unit_in, rules::specs::Choice::pick))]
pub fn counter_read(w: &[u16; WORDS]) -> u64
    ensures { result ≡ counter_read w.now }
{
    read(w, |u| Ok(u.cells.counter))
}

// 0 nothing, 1 and 2 the SERVICE DATOs, 3 the second START read.
#[tactic(auto, unfolding(crate::specs::Panel::wait_read, coding::specs::Coding::unit_in, rules::specs::Choice::pick))]
pub fn wait_read(w: &[u16; WORDS]) -> u64
    ensures { result ≡ wait_read w.now }
{
    read(w, |u| Ok(coding::wait_number(u.core.wait)))
}

// Where the page that a map register's word names begins, in a memory of this length: "as a part of the caller's memory, or an empty part".
// (The part itself is `memory::map_page`; to C a place goes, by the same line of arithmetic.)
#[tactic(auto, unfolding(crate::specs::Panel::page_place, rules::specs::Choice::pick, rules::specs::Maps::low9))]
pub fn page_place(length: usize, word: u16) -> usize
    ensures { result ≡ page_place length word }
{
    let at = 512 * usize::from(word % 512);
    if at + 512 <= length { at } else { NO_PAGE }
}
