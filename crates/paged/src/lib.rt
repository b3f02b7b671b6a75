// The paged access: steps 5 to 11, the window's inner access among them.
#![tactic(auto)]

ghost use Rattle.std.specs.Prelude.{◌≡◌, Ok};
ghost use Rattle.rules.specs.Order.{inner_ruled, windowed, outer_ruled, paged_from};
ghost use Rattle.transfer.specs.Stage.{ran};

use rules::{Entry, Fault, Place, Ran};
use transfer::Stage;

// Step 10 of the window's inner access, in this physical page; "window on window: time-out at step 10".
#[tactic(auto, unfolding(transfer::specs::Stage::ran, rules::specs::Order::inner_ruled, rules::specs::Order::inner_target, rules::specs::Program::run))]
fn inner_target(s: &Stage, page: u16) -> Ran
    ensures { result ≡ ran s.now (inner_ruled s.now.memory.now s.now.job (Ok page)) }
{
    let at = pages::physical_at(page, endings::window_addr(s.job));
    match s.place(at) {
        Place::There(t) => s.transferred(at, t),
        Place::Window | Place::Nowhere => s.ended(endings::inner_fault(s.job, Fault::NoTarget)),
    }
}

// The window "goes on as a user access to KTAD, through steps 5-8 and 10 again and with no privacy step".
#[tactic(auto, unfolding(transfer::specs::Stage::ran, rules::specs::Order::windowed, rules::specs::Order::inner_ruled, rules::specs::Choice::pick, rules::specs::Program::run))]
fn windowed(s: &Stage) -> Ran
    ensures { result ≡ ran s.now (windowed s.now.memory.now s.now.job) }
{
    let a = endings::window_addr(s.job);
    if steps::odd_word(s.job.q.width, a) {
        return s.ended(endings::inner_fault(s.job, Fault::OddAddress));
    }
    let found = maps::looked(s.memory, s.job.maps, true, pages::page_of(a), *s.cells);
    let s = Stage {
        cells: &found.cells,
        ..*s
    };
    match steps::judged(s.job.q.op, false, found.entry) {
        Ok(page) => inner_target(&s, page),
        Err(f) => s.ended(endings::inner_fault(s.job, f)),
    }
}

// Step 10, in this physical page: "Target at or beyond L and not a register above (9)."; step 11 for a fetch, the transfer otherwise. A paged access
// to the window goes on, but by fetch it is a time-out.
#[tactic(auto, unfolding(transfer::specs::Stage::ran, rules::specs::Order::outer_ruled, rules::specs::Order::outer_target, rules::specs::Order::paged_reached, rules::specs::Choice::pick, rules::specs::Program::run, rules::specs::Order::read_at, rules::specs::Order::read_from, rules::specs::Order::source_at, rules::specs::Order::word_read, rules::specs::Order::word_from))]
fn outer_target(s: &Stage, page: u16, e: Entry) -> Ran
    ensures { result ≡ ran s.now (outer_ruled s.now.memory.now s.now.job e (Ok page)) }
{
    let fetching = fetched::is_fetch(s.job.q);
    let at = pages::physical_at(page, s.job.q.addr);
    match s.place(at) {
        Place::There(t) if fetching => {
            s.ended(endings::word_judged(s.job, at, t, e, s.word_read(at, t)))
        }
        Place::There(t) => s.transferred(at, t),
        Place::Window if !fetching => windowed(s),
        Place::Window | Place::Nowhere => s.ended(endings::outer_fault(s.job, Fault::NoTarget)),
    }
}

// Step 5, step 6's question for the page's entry, and what steps 6 to 9 say of it; the core is as step 4 left it.
#[tactic(auto, unfolding(transfer::specs::Stage::ran, rules::specs::Order::paged_from, rules::specs::Order::outer_ruled, rules::specs::Choice::pick, rules::specs::Program::run))]
pub fn paged_from(s: &Stage) -> Ran
    ensures { result ≡ ran s.now (paged_from s.now.memory.now s.now.job) }
{
    let q = s.job.q;
    if steps::odd_word(q.width, q.addr) {
        return s.ended(endings::outer_fault(s.job, Fault::OddAddress));
    }
    let found = maps::looked(
        s.memory,
        s.job.maps,
        s.job.core.ktcs.um,
        pages::page_of(q.addr),
        *s.cells,
    );
    let s = Stage {
        cells: &found.cells,
        ..*s
    };
    match steps::judged(q.op, steps::watches(s.job.core.fetch, q), found.entry) {
        Ok(page) => outer_target(&s, page, found.entry),
        Err(f) => s.ended(endings::outer_fault(s.job, f)),
    }
}
