// The walk of the maps, and the look-up through the cells (01, "From address to entry"). Memory and map registers, and a page's owner and its
// number, come apart, as the definitions have them.
#![tactic(auto)]

ghost use Rattle.std.specs.Prelude.{◌≡◌};
ghost use Rattle.rules.specs.Memory.{word_at};
ghost use Rattle.rules.specs.Maps.{unless_off, finished, word_walk, followed, pointer_walk, exec_walk, user_walk, walk_of, entry_of};
ghost use Rattle.rules.specs.Maps.{exec_zero_entry, tag_of, cell_of, filled_by, missed, sought_in, looked};

use rules::{Cells, Entry, Looked, Maps, Reads, Walked};

// The walk -------------------------------------------------------------------------------------------------------------

// "A map word or pointer at or beyond L is a time-out.": "The walk itself should report that it ran off memory" (T-01).
#[tactic(auto, unfolding(rules::specs::Maps::unless_off, rules::specs::Choice::pick))]
fn word_read(m: &[u8], at: usize, reads: Reads) -> Option<Walked>
    ensures { result ≡ unless_off m.now at (finished (word_at m.now at) reads) }
{
    (at < m.len()).then(|| Walked {
        word: memory::word_at(m, at),
        reads,
    })
}

// A map word that stands at a place.
#[tactic(auto, unfolding(rules::specs::Maps::word_walk, rules::specs::Maps::unless_off, rules::specs::Choice::pick))]
fn word_walk(m: &[u8], at: usize) -> Option<Walked>
    ensures { result ≡ word_walk m.now at }
{
    word_read(m, at, Reads::Direct(at))
}

// The map word that a pointer leads to, which "is never a pointer again".
#[tactic(auto, unfolding(rules::specs::Maps::followed, rules::specs::Maps::unless_off, rules::specs::Choice::pick))]
fn followed(m: &[u8], from: usize, to: usize) -> Option<Walked>
    ensures { result ≡ followed m.now from to }
{
    word_read(m, to, Reads::Pointed(from, to))
}

// "Other user pages: the word at that same place is a pointer"
#[tactic(auto, unfolding(rules::specs::Maps::pointer_walk, rules::specs::Maps::word_walk, rules::specs::Maps::unless_off, rules::specs::Choice::pick))]
fn pointer_walk(m: &[u8], from: usize) -> Option<Walked>
    ensures { result ≡ pointer_walk m.now from }
{
    let pointer = word_walk(m, from)?.word;
    followed(m, from, pages::pointed_at(pointer))
}

// "Exec simple: word at 512·M(KTEM)+256+2p. Other exec pages: word at 512·M(KTUM)+2p."
#[tactic(auto, unfolding(rules::specs::Maps::exec_walk, rules::specs::Choice::pick))]
fn exec_walk(m: &[u8], maps: Maps, p: u8) -> Option<Walked>
    ensures { result ≡ exec_walk m.now maps p }
{
    if pages::simple(maps.ktem, p) {
        word_walk(m, pages::upper_at(pages::low9(maps.ktem), p))
    } else {
        word_walk(m, pages::lower_at(pages::low9(maps.ktum), p))
    }
}

// "User simple: word at 512·M(KTUM)+256+2p. Other user pages: the word at that same place is a pointer"
#[tactic(auto, unfolding(rules::specs::Maps::user_walk, rules::specs::Choice::pick))]
fn user_walk(m: &[u8], maps: Maps, p: u8) -> Option<Walked>
    ensures { result ≡ user_walk m.now maps p }
{
    let at = pages::upper_at(pages::low9(maps.ktum), p);
    if pages::simple(maps.ktum, p) {
        word_walk(m, at)
    } else {
        pointer_walk(m, at)
    }
}

// The walk of a page that is not exec page 0.
#[tactic(auto, unfolding(rules::specs::Maps::walk_of, rules::specs::Choice::pick))]
pub fn walk_of(m: &[u8], maps: Maps, user: bool, p: u8) -> Option<Walked>
    ensures { result ≡ walk_of m.now maps user p }
{
    if user {
        user_walk(m, maps, p)
    } else {
        exec_walk(m, maps, p)
    }
}

// What a walk gives the access: where its map word stood no longer matters.
#[tactic(auto, unfolding(rules::specs::Maps::entry_of))]
pub fn entry_of(w: Option<Walked>) -> Entry
    ensures { result ≡ entry_of w }
{
    w.map_or(Entry::OffMap, |w| Entry::Mapped(w.word))
}

// The look-up ----------------------------------------------------------------------------------------------------------

// "Exec page 0: physical page M of KTEM, no cell, every key passes."
#[tactic(auto, unfolding(rules::specs::Maps::exec_zero_entry))]
fn exec_zero_entry(maps: Maps) -> Entry
    ensures { result ≡ exec_zero_entry maps }
{
    Entry::ExecZero(pages::low9(maps.ktem))
}

// "A finished walk fills the cell the counter names .. A walk that times out fills nothing.", which is one that ran off memory.
#[tactic(auto, unfolding(rules::specs::Maps::filled_by))]
fn filled_by(k: Cells, tag: u16, w: Option<Walked>) -> Cells
    ensures { result ≡ filled_by k tag w }
{
    match w {
        Some(w) => cells::filled(k, tag, w.word),
        None => k,
    }
}

// A page that no cell holds.
#[tactic(auto, unfolding(rules::specs::Maps::missed))]
fn missed(k: Cells, tag: u16, w: Option<Walked>) -> Looked
    ensures { result ≡ missed k tag w }
{
    Looked {
        entry: entry_of(w),
        cells: filled_by(k, tag, w),
    }
}

// A page that may have a cell. "A hit uses the cell."
#[tactic(auto, unfolding(rules::specs::Maps::sought_in, rules::specs::Maps::cell_of, rules::specs::Unit::there))]
fn sought(m: &[u8], maps: Maps, user: bool, p: u8, k: Cells) -> Looked
    ensures { result ≡ sought_in m.now maps user p k (cell_of k (tag_of user p)) }
{
    let tag = pages::tag_of(user, p);
    match cells::cell_of(&k, tag) {
        Some(i) => Looked {
            entry: Entry::Mapped(cells::cell_at(&k, i).word),
            cells: k,
        },
        None => missed(k, tag, walk_of(m, maps, user, p)),
    }
}

// Step 6: how an access gets the entry of its page, and what that leaves in the cells, which come in and go out by value.
#[tactic(auto, unfolding(rules::specs::Maps::looked, rules::specs::Choice::pick))]
pub fn looked(m: &[u8], maps: Maps, user: bool, p: u8, k: Cells) -> Looked
    ensures { result ≡ looked m.now maps user p k }
{
    if pages::exec_zero(user, p) {
        Looked {
            entry: exec_zero_entry(maps),
            cells: k,
        }
    } else {
        sought(m, maps, user, p, k)
    }
}
