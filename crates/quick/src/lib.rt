// The usual access, done on the core alone: a page that a cell holds, in normal paging, with its target in memory.
// An attempt that gives no outcome says nothing; the access then goes by all its steps. Nothing here is a rule: it is there for speed.
// So memory, core and access come apart: a `Stage` would have to be made, and has more.
#![tactic(auto)]

ghost use Rattle.std.specs.Prelude.{◌≡◌, true, length};
ghost use Rattle.rules.specs.declared.Maps.{Maps};
ghost use Rattle.rules.specs.declared.Target.{Target};
ghost use Rattle.rules.specs.Registers.{place_of};
ghost use Rattle.rules.specs.Fetched.{noted};
ghost use Rattle.rules.specs.Steps.{judged, watches};
ghost use Rattle.rules.specs.Order.{read_at, word_judged, transferred, outer_target, outer_ruled, accessed};
ghost use Rattle.quick.specs.Usual.{calm, usual, fetch_noted, other_fetch, other_noted, job_of, IsOutcome, Sound};

use rules::{
    Access, Answer, Cells, Core, Effect, Entry, Fetch, Kind, Outcome, Paging, State, Wait,
};

// Whether the access is usual: all tests at once, for speed -----------------------------------------------------------

#[tactic(auto, unfolding(crate::specs::Usual::calm, crate::specs::Usual::is_idle, crate::specs::Usual::is_plain))]
fn calm(c: Core) -> bool
    ensures { result ≡ calm c }
{
    matches!(c.wait, Wait::Nothing)
        & (c.ktcs.fcn == Paging::Normal as u16)
        & status::flags_clear(c.ktcs)
        & matches!(kinds::kind_of(c.fetch.newer), Kind::Other)
}

#[tactic(auto, unfolding(crate::specs::Usual::usual))]
pub fn usual(len: usize, c: Core, q: Access) -> bool
    ensures { result ≡ usual len c q }
{
    calm(c) & (shape::well_shaped(len, q) & !steps::odd_word(q.width, q.addr))
}

// Step 4, without what `calm` has told already: by all its tests it was slower (docs/PERFORMANCE.md, "What was tried") -----

#[tactic(auto, unfolding(crate::specs::Usual::fetch_noted))]
fn fetch_noted(c: Core, q: Access) -> Core
    ensures { result ≡ fetch_noted c q }
{
    Core {
        ktcs: status::with_states(c.ktcs, false, false),
        kept: registers::stored(c.kept, registers::KTIC, q.addr),
        ..c
    }
}

#[tactic(auto, unfolding(crate::specs::Usual::other_fetch))]
fn other_fetch(f: Fetch, q: Access) -> Fetch
    ensures { result ≡ other_fetch f q }
{
    Fetch {
        datos: fetched::one_more_if(fetched::is_dato(q), f.datos),
        accesses: fetched::one_more(f.accesses),
        ..f
    }
}

#[tactic(auto, unfolding(crate::specs::Usual::other_noted))]
fn other_noted(c: Core, q: Access) -> Core
    ensures { result ≡ other_noted c q }
{
    Core {
        ktcs: status::with_states(
            c.ktcs,
            c.ktcs.ss | (q.state == State::Source as u64),
            c.ktcs.ds | (q.state == State::Destination as u64),
        ),
        fetch: other_fetch(c.fetch, q),
        ..c
    }
}

// The transfer --------------------------------------------------------------------------------------------------------

fn ended(core: Core, word: u16, at: usize, effect: Effect) -> Outcome
    ensures { result ≡ record { answer = Answer.Done word at; core = core; effect = effect } }
{
    Outcome {
        answer: Answer::Done(word, at),
        core,
        effect,
    }
}

// A fetch of a word that is not forbidden; c is the core after step 4, v the page's map word.
#[tactic(auto, unfolding(rules::specs::Unit::with_fetch))]
fn fetch_ended(m: &[u8], c: Core, q: Access, v: u16, at: usize) -> Option<Outcome>
    ensures { (k : Cells) → Sound result m.now (λ r. read_at m.now (job_of q c k r) at Target.Memory (word_judged (job_of q c k r) at Target.Memory (Entry.Mapped v))) k }
{
    let w = memory::word_at(m, memory::even_of(at));
    if steps::forbidden(c, Entry::Mapped(v), w) {
        return None;
    }
    let fetch = fetched::after_fetch(c.fetch, w, pages::public_bit(v));
    Some(ended(Core { fetch, ..c }, w, at, Effect::Keep))
}

// A read or a store in memory.
fn other_ended(m: &[u8], c: Core, q: Access, at: usize) -> Outcome
    ensures { (k : Cells) → IsOutcome result m.now (λ r. transferred m.now (job_of q c k r) at Target.Memory) k }
{
    if fetched::is_read(q) {
        return ended(c, memory::word_at(m, memory::even_of(at)), at, Effect::Keep);
    }
    let part = registers::part_of(q.op, at);
    ended(c, 0, at, stores::memory_effect(part, at, q.datum))
}

// Step 10, and the transfer; c is the core before step 4.
fn reached(m: &[u8], c: Core, q: Access, v: u16, at: usize) -> Option<Outcome>
    ensures { calm c ≡ true → (k : Cells) → Sound result m.now (λ r. outer_target m.now (job_of q (noted c q) k r) at (Entry.Mapped v) (place_of k.size (length m.now) at)) k }
{
    if at >= m.len() {
        return None;
    }
    if fetched::is_fetch(q) {
        return fetch_ended(m, fetch_noted(c, q), q, v, at);
    }
    Some(other_ended(m, other_noted(c, q), q, at))
}

// Steps 7 to 9, by the word that the page's cell holds.
#[tactic(auto, unfolding(rules::specs::Steps::judged))]
fn held(m: &[u8], c: Core, q: Access, v: u16) -> Option<Outcome>
    ensures { calm c ≡ true → (k : Cells) → Sound result m.now (λ r. outer_ruled m.now (job_of q (noted c q) k r) (Entry.Mapped v) (judged q.op (watches (noted c q).fetch q) (Entry.Mapped v))) k }
{
    let page = steps::keys_of(q.op, steps::watches(c.fetch, q), v).ok()?;
    reached(m, c, q, v, pages::physical_at(page, q.addr))
}

// Step 6, by the cells alone.
#[tactic(auto, unfolding(rules::specs::Maps::cell_of, rules::specs::Unit::there))]
pub fn attempted(m: &[u8], c: Core, q: Access, k: &Cells) -> Option<Outcome>
    ensures { usual (length m.now) c q ≡ true → Sound result m.now (λ r. accessed m.now k.now.size c r q) k.now }
{
    let p = pages::page_of(q.addr);
    if pages::exec_zero(c.ktcs.um, p) {
        return None;
    }
    let i = cells::cell_of(k, pages::tag_of(c.ktcs.um, p))?;
    held(m, c, q, cells::cell_at(k, i).word)
}
