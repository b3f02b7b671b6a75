// The associative cells: which cell holds a page, how a walk fills one, how they are forgotten, emptied and stored into, and what is read of them.
// Every function takes any counter and any index. A unit has the first so many of the list as its size says: past them there is nothing to
// read. There is room for more, and what stands there is no matter.
#![tactic(auto)]

ghost use Rattle.std.specs.Prelude.{◌≡◌, ◌-◌};
ghost use Rattle.rules.specs.Unit.{count_of, there, cell_at, emptied};
ghost use Rattle.rules.specs.Registers.{peeked, cell_stored, pad_stored};
ghost use Rattle.rules.specs.Maps.{cell_of, stepped, filled, holds, cell_forgotten, forgotten};

use rules::{Associative, Cell, Cells, Part, ROOM, Size};
use sizes::FIRST_CELL;

// "Emptying a cell sets its tag and word to 0."
pub const EMPTY: Cell = Cell { tag: 0, word: 0 };

// The cells that the unit has.
#[tactic(auto, unfolding(rules::specs::Unit::there))]
fn there(k: &Cells) -> &[Cell]
    ensures { result.now ≡ there k.now }
{
    &k.list[..sizes::count_of(k.size)]
}

// Which cell holds a page, the first where several do, out of those that the unit has. Each is compared, whatever the others gave:
// "simultaneous comparison of the 8 8-bit words it contains against the seek data" (source 4.1.2.1).
// From the last cell to the first, each match replaces the one gathered before it, so that the lowest place stays: a host's words may hold a
// tag twice, and the first is promised.
pub fn cell_of(k: &Cells, tag: u16) -> Option<usize>
    ensures { result ≡ cell_of k.now tag }
{
    let mut gathered = None;
    for (i, held) in there(k).iter().enumerate().rev() {
        if tag == held.tag {
            gathered = Some(i);
        }
    }
    gathered
}

// A cell by its place; past the last one that the unit has, an empty cell.
#[tactic(auto, unfolding(rules::specs::Unit::empty_cell))]
pub fn cell_at(k: &Cells, i: usize) -> Cell
    ensures { result ≡ cell_at k.now i }
{
    there(k).get(i).copied().unwrap_or(EMPTY)
}

// The place in the list of the cell that the counter names. A counter below the first cell names the first.
fn cell_named(counter: u16) -> usize
    ensures { result ≡ counter - 0o10 }
{
    usize::from(counter.saturating_sub(FIRST_CELL))
}

// "then the counter steps 10o to 17o and round", or to 37o with 24 cells: the last is 7 more than there are cells.
#[tactic(auto, unfolding(rules::specs::Maps::stepped, rules::specs::Choice::pick))]
fn next_counter(size: Size, counter: u16) -> u16
    ensures { result ≡ stepped (count_of size) counter }
{
    if usize::from(counter) < 7 + sizes::count_of(size) {
        counter + 1
    } else {
        FIRST_CELL
    }
}

// "A finished walk fills the cell the counter names, then the counter steps"
#[tactic(auto, unfolding(rules::specs::Maps::filled))]
pub fn filled(k: Cells, tag: u16, word: u16) -> Cells
    ensures { result ≡ filled k tag word }
{
    Cells {
        list: registers::stored(k.list, cell_named(k.counter), Cell { tag, word }),
        counter: next_counter(k.size, k.counter),
        ..k
    }
}

// "0 means empty", and exec page 0 has "no cell".
#[tactic(auto, unfolding(rules::specs::Maps::holds))]
fn holds(held: Cell, tag: u16) -> bool
    ensures { result ≡ holds tag held }
{
    held.tag == tag && held.tag != 0
}

#[tactic(auto, unfolding(rules::specs::Maps::cell_forgotten, rules::specs::Choice::pick, rules::specs::Unit::empty_cell))]
fn cell_forgotten(held: Cell, tag: u16) -> Cell
    ensures { result ≡ cell_forgotten tag held }
{
    if holds(held, tag) { EMPTY } else { held }
}

// "the cell of the page at fault .. empties"; the counter stays. Every cell that holds the page is emptied, so that nothing rests on its being in one
// cell only.
#[tactic(auto, unfolding(rules::specs::Maps::forgotten))]
pub fn forgotten(k: Cells, tag: u16) -> Cells
    ensures { result ≡ forgotten k tag }
{
    let mut list = k.list;
    for held in &mut list {
        *held = cell_forgotten(*held, tag);
    }
    Cells { list, ..k }
}

// "empties all cells and sets the counter to 10o"; how many there are stays.
#[tactic(auto, unfolding(rules::specs::Unit::emptied, rules::specs::Unit::empty_cell))]
pub fn emptied(k: Cells) -> Cells
    ensures { result ≡ emptied k }
{
    Cells {
        list: [EMPTY; ROOM],
        counter: FIRST_CELL,
        ..k
    }
}

#[tactic(auto, unfolding(rules::specs::Registers::cell_stored, rules::specs::Choice::pick))]
fn cell_stored(held: Cell, p: Part, v: u16) -> Cell
    ensures { result ≡ cell_stored held p v }
{
    if held.tag == 0 {
        held
    } else {
        Cell {
            word: registers::merged(p, held.word, v),
            ..held
        }
    }
}

// "A store into a scratchpad word leaves the tag, and does nothing in an empty cell (H)."
#[tactic(auto, unfolding(rules::specs::Registers::pad_stored, rules::specs::Unit::there))]
pub fn pad_stored(k: Cells, i: usize, p: Part, v: u16) -> Cells
    ensures { result ≡ pad_stored k i p v }
{
    let held = cell_stored(cell_at(&k, i), p, v);
    Cells {
        list: registers::stored(k.list, i, held),
        ..k
    }
}

// "KTMR reads the counter times 256"; a scratchpad word reads what its cell holds.
#[tactic(auto, unfolding(rules::specs::Registers::peeked))]
pub fn peeked(k: &Cells, g: Associative) -> u16
    ensures { result ≡ peeked k.now g }
{
    match g {
        Associative::Ktmr => k.counter % 256 * 256,
        Associative::Pad(i) => cell_at(k, i).word,
    }
}
