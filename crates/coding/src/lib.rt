// How a unit lies in the words that a host owns: whether words hold a unit, the unit that they hold, and the words of a unit.
#![tactic(auto)]

ghost use Rattle.std.specs.Prelude.{◌≡◌, ◌++◌, map, length, take, drop};
ghost use Rattle.rules.specs.Maps.{tag_in};
ghost use Rattle.coding.specs.Coding.{core_count, tags_place, last_place, unit_words, wait_number, wait_of, flag_number, size_in, is_unit, core_of, maps_of, list_of, cells_of, decoded, unit_in, core_words, word_in, cells_words, coded};

use rules::{Cell, Cells, Core, Fetch, Maps, ROOM, Size, Unit, Wait};
use sizes::FIRST_CELL;
use std::array;

// The places of the number of cells and of the counter, behind the core and the map registers.
const COUNT_AT: usize = 16;

const COUNTER_AT: usize = 17;

// Where the cells' tags begin, and behind them their words: in two rows, so that several tags can be compared at a time, and for C.
const TAGS_AT: usize = 18;

const WORDS_AT: usize = TAGS_AT + ROOM;

// The place of the last word.
const LAST_AT: usize = WORDS_AT + ROOM;

// How many words a unit takes.
pub const WORDS: usize = LAST_AT + 1;

// The words at both ends, which never change.
const FIRST: u16 = 0x324b;

const LAST: u16 = 0x4231;

// The two ends, and every field that has fewer values than a word: this runs at every access, so it tests them all at once.
#[tactic(auto, unfolding(crate::specs::Coding::is_unit))]
pub fn is_unit(w: &[u16; WORDS]) -> bool
    ensures { result ≡ is_unit w.now }
{
    let count = w[COUNT_AT];
    let counter = w[COUNTER_AT] as usize;
    let past_cells = usize::from(FIRST_CELL) + sizes::count_of(size_in(count));
    (w[0] == FIRST)
        & (w[LAST_AT] == LAST)
        & (w[1] / 0o100 % 0o40 == 0)
        & (w[8] < 4)
        & (w[11] < 3)
        & (w[12] < 3)
        & (w[13] < 2)
        & ((count == 8) | (count == 24))
        & (usize::from(FIRST_CELL) <= counter)
        & (counter < past_cells)
}

// What stands in `rules` has no `From` here, since that holds no code: so this and `size_in` are functions.
#[tactic(auto, unfolding(crate::specs::Coding::wait_of, rules::specs::Choice::pick))]
pub fn wait_of(n: u16) -> Wait
    ensures { result ≡ wait_of n }
{
    match n {
        0 => Wait::Nothing,
        1 => Wait::StatusDue,
        2 => Wait::ProgramCounterDue,
        _ => Wait::SecondReadDue,
    }
}

#[tactic(auto, unfolding(crate::specs::Coding::wait_number))]
pub fn wait_number(w: Wait) -> u16
    ensures { result ≡ wait_number w }
{
    w as u16
}

#[tactic(auto, unfolding(crate::specs::Coding::flag_number))]
pub fn flag_number(b: bool) -> u16
    ensures { result ≡ flag_number b }
{
    u16::from(b)
}

#[tactic(auto, unfolding(crate::specs::Coding::size_in, rules::specs::Choice::pick))]
fn size_in(n: u16) -> Size
    ensures { result ≡ size_in n }
{
    match n {
        24 => Size::TwentyFour,
        _ => Size::Eight,
    }
}

#[tactic(auto, unfolding(crate::specs::Coding::core_of))]
pub fn core_of(w: &[u16; WORDS]) -> Core
    ensures { result ≡ core_of w.now }
{
    let [
        _,
        ktcs,
        ktic,
        ktsp,
        ktpc,
        ktps,
        ktad,
        ktdt,
        wait,
        newer,
        older,
        datos,
        accesses,
        public,
        ..
    ] = *w;
    Core {
        ktcs: status::unpacked(ktcs),
        kept: [ktic, ktsp, ktpc, ktps, ktad, ktdt],
        wait: wait_of(wait),
        fetch: Fetch {
            newer,
            older,
            datos,
            accesses,
            public: public == 1,
        },
    }
}

#[tactic(auto, unfolding(crate::specs::Coding::list_of))]
fn list_of(w: &[u16; WORDS]) -> [Cell; ROOM]
    ensures { result ≡ list_of w.now }
{
    array::from_fn(|i| Cell {
        tag: w[TAGS_AT + i],
        word: w[WORDS_AT + i],
    })
}

#[tactic(auto, unfolding(crate::specs::Coding::cells_of))]
pub fn cells_of(w: &[u16; WORDS]) -> Cells
    ensures { result ≡ cells_of w.now }
{
    Cells {
        size: size_in(w[COUNT_AT]),
        list: list_of(w),
        counter: w[COUNTER_AT],
    }
}

#[tactic(auto, unfolding(crate::specs::Coding::maps_of))]
pub fn maps_of(w: &[u16; WORDS]) -> Maps
    ensures { result ≡ maps_of w.now }
{
    Maps {
        ktum: w[14],
        ktem: w[15],
    }
}

// Where a unit is decoded its parts need not lie in memory, so this is written out there.
#[inline(always)]
#[tactic(auto, unfolding(crate::specs::Coding::decoded))]
pub fn decoded(w: &[u16; WORDS]) -> Unit
    ensures { result ≡ decoded w.now }
{
    Unit {
        core: core_of(w),
        maps: maps_of(w),
        cells: cells_of(w),
    }
}

// The unit that words hold, if they hold one. It is written out where it is asked, as `decoded` is, so that a reading of one field decodes no other; by
// `then` and a closure the compiler decodes all of it.
#[inline(always)]
#[tactic(auto, unfolding(crate::specs::Coding::unit_in, rules::specs::Choice::pick))]
pub fn unit_in(w: &[u16; WORDS]) -> Option<Unit>
    ensures { result ≡ unit_in w.now }
{
    if is_unit(w) { Some(decoded(w)) } else { None }
}

// An end, the core and the map registers, in the words before the cells; the others stay. The words' number is their type's, and said for callers.
#[tactic(auto, unfolding(crate::specs::Coding::core_words))]
pub fn store_core(w: &mut [u16; WORDS], c: &Core, r: Maps)
    ensures words { w.new ≡ core_words c.now r ++ drop core_count w.old }
    ensures number { length w.old ≡ unit_words }
{
    let [ktic, ktsp, ktpc, ktps, ktad, ktdt] = c.kept;
    *w.first_chunk_mut().unwrap() = [
        FIRST,
        status::packed(c.ktcs),
        ktic,
        ktsp,
        ktpc,
        ktps,
        ktad,
        ktdt,
        wait_number(c.wait),
        c.fetch.newer,
        c.fetch.older,
        c.fetch.datos,
        c.fetch.accesses,
        flag_number(c.fetch.public),
        r.ktum,
        r.ktem,
    ];
}

// The tags and the words of all cells for which there is room, each in its place; the others stay.
#[tactic(auto, unfolding(rules::specs::Unit::empty_cell))]
fn store_list(w: &mut [u16; WORDS], list: &[Cell; ROOM])
    ensures { w.new ≡ take tags_place w.old ++ map tag_in list.now ++ map word_in list.now ++ drop last_place w.old }
{
    for (i, cell) in list.iter().enumerate() {
        w[TAGS_AT + i] = cell.tag;
        w[WORDS_AT + i] = cell.word;
    }
}

// The cells, their number, the counter and the other end, in the words from the cells on; the others stay.
#[tactic(auto, unfolding(crate::specs::Coding::cells_words))]
fn store_cells(w: &mut [u16; WORDS], k: &Cells)
    ensures { w.new ≡ take core_count w.old ++ cells_words k.now }
{
    w[COUNT_AT] = sizes::count_of(k.size) as u16;
    w[COUNTER_AT] = k.counter;
    w[LAST_AT] = LAST;
    store_list(w, &k.list);
}

// All words of a unit, whatever stood there.
#[tactic(auto, unfolding(crate::specs::Coding::coded, crate::specs::Coding::core_words))]
pub fn store(w: &mut [u16; WORDS], u: &Unit)
    ensures { w.new ≡ coded u.now }
{
    store_core(w, &u.core, u.maps);
    store_cells(w, &u.cells);
}
