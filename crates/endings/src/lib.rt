// How an access ends: the outcomes of the rules' order of steps, each with its answer, the unit's new core, and what is to be done.
// They are functions of a `Job`, and no methods: it stands in `rules`, which holds no code.
#![tactic(auto)]

ghost use Rattle.std.specs.Prelude.{◌≡◌};
ghost use Rattle.rules.specs.Program.{done};
ghost use Rattle.rules.specs.declared.Effect.{Effect};
ghost use Rattle.rules.specs.Order.{outcome, refused, faulted, outer_fault, window_addr, inner_fault, fetched, flag_after, word_judged, unpaged_time_out, sequenced};

use rules::{Answer, Core, Effect, Entry, Fault, Fetch, Job, Outcome, Target};

// An ending that leaves memory, the map registers and the cells as they are.
#[tactic(auto, unfolding(rules::specs::Order::outcome))]
fn keeping(answer: Answer, core: Core) -> Outcome
    ensures { result ≡ outcome answer core Effect.Keep }
{
    Outcome {
        answer,
        core,
        effect: Effect::Keep,
    }
}

// Answers 1, 2 and 3, which change nothing.
#[tactic(auto, unfolding(rules::specs::Order::refused))]
pub fn refused(c: Core, a: Answer) -> Outcome
    ensures { done result ≡ refused c a }
{
    keeping(a, c)
}

// A sequence access: answer 0 with the word that it gives. "Memory and cells stay."
#[tactic(auto, unfolding(rules::specs::Order::sequenced))]
pub fn sequenced(w: u16, c: Core) -> Outcome
    ensures { done result ≡ sequenced w c }
{
    keeping(Answer::Taken(w), c)
}

// Answers 4 to 8, 10 and a paged 9: "the cell of the page at fault (a window's inner one once reached) empties".
#[tactic(auto, unfolding(rules::specs::Order::faulted, rules::specs::Order::outcome))]
fn faulted(j: Job, inner: bool, tag: u16, f: Fault) -> Outcome
    ensures { done result ≡ faulted j inner tag f }
{
    Outcome {
        answer: Answer::Fault(f),
        core: violations::violated(j.core, j.q, inner, f),
        effect: Effect::Forget(tag),
    }
}

// The page of the access's own address is at fault.
#[tactic(auto, unfolding(rules::specs::Order::outer_fault))]
pub fn outer_fault(j: Job, f: Fault) -> Outcome
    ensures { done result ≡ outer_fault j f }
{
    let tag = pages::tag_of(j.core.ktcs.um, pages::page_of(j.q.addr));
    faulted(j, false, tag, f)
}

// The address that the window goes on to: KTAD.
#[tactic(auto, unfolding(rules::specs::Order::window_addr))]
pub fn window_addr(j: Job) -> u16
    ensures { result ≡ window_addr j }
{
    j.core.kept[registers::KTAD]
}

// The window's inner page is at fault, and KTAD stays. Each of the two faults has a definition of its own; what they share is `faulted`.
#[tactic(auto, unfolding(rules::specs::Order::inner_fault))]
pub fn inner_fault(j: Job, f: Fault) -> Outcome
    ensures { done result ≡ inner_fault j f }
{
    let tag = pages::tag_of(true, pages::page_of(window_addr(j)));
    faulted(j, true, tag, f)
}

// A fetch with answer 0, which leaves this flag.
#[tactic(auto, unfolding(rules::specs::Order::fetched, rules::specs::Unit::with_fetch))]
pub fn fetched(j: Job, at: usize, flag: bool, w: u16) -> Outcome
    ensures { done result ≡ fetched j at flag w }
{
    let core = Core {
        fetch: fetched::after_fetch(j.core.fetch, w, flag),
        ..j.core
    };
    keeping(Answer::Done(w, at), core)
}

// The flag after a paged fetch: the page's public bit, but a fetch from a KT register never moves it.
#[tactic(auto, unfolding(rules::specs::Order::flag_after))]
fn flag_after(t: Target, f: Fetch, e: Entry) -> bool
    ensures { result ≡ flag_after t f e }
{
    match t {
        Target::Memory => steps::public_page(e),
        Target::In(_) => f.public,
    }
}

// "11. For a fetch, the word (8)."
#[tactic(auto, unfolding(rules::specs::Order::word_judged, rules::specs::Choice::pick))]
pub fn word_judged(j: Job, at: usize, t: Target, e: Entry, w: u16) -> Outcome
    ensures { done result ≡ word_judged j at t e w }
{
    if steps::forbidden(j.core, e, w) {
        return outer_fault(j, Fault::Forbidden(w, at));
    }
    fetched(j, at, flag_after(t, j.core.fetch, e), w)
}

// "unpaged: step 4, KTAD, KTDT"
#[tactic(auto, unfolding(rules::specs::Order::unpaged_time_out))]
pub fn unpaged_time_out(j: Job) -> Outcome
    ensures { done result ≡ unpaged_time_out j }
{
    keeping(
        Answer::Fault(Fault::NoTarget),
        violations::timed_out(j.core, j.q),
    )
}
