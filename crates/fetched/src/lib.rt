// The fetch memory and step 4 of an access: the counts, KTIC, SS and DS (01, "Order in one access"; source 3.3.2.1). KTCS, fetch memory and
// access come apart, as the definitions have them.
#![tactic(auto)]

ghost use Rattle.std.specs.Prelude.{◌≡◌, ltb};
ghost use Rattle.rules.specs.Choice.{pick};
ghost use Rattle.rules.specs.Unit.{clear_fetch};
ghost use Rattle.rules.specs.Fetched.{is_fetch, is_dato, one_more, counted, normal, destination_only, source_by, destination_by, source_set, destination_set, states_marked, instruction_noted, marked, noted, after_fetch};

use rules::{Access, Core, Fetch, Kind, Ktcs, Operation, Paging, State};

// "States: 0 FETCH"
#[tactic(auto, unfolding(rules::specs::Fetched::is_fetch))]
pub fn is_fetch(q: Access) -> bool
    ensures { result ≡ is_fetch q }
{
    q.state == State::Fetch as u64
}

// "Reads give the whole word at the even address": DATI and DATIP. The other two store.
pub fn is_read(q: Access) -> bool
    ensures { result ≡ ltb q.op 2 }
{
    q.op < Operation::Dato as u64
}

// "Only DATO counts as DATO": operation 2.
#[tactic(auto, unfolding(rules::specs::Fetched::is_dato))]
pub fn is_dato(q: Access) -> bool
    ensures { result ≡ is_dato q }
{
    q.op == Operation::Dato as u64
}

// "each stops at 2"
#[tactic(auto, unfolding(rules::specs::Fetched::one_more, rules::specs::Choice::pick))]
pub fn one_more(n: u16) -> u16
    ensures { result ≡ one_more n }
{
    if n < 2 { n + 1 } else { 2 }
}

// One more where this access is of the kind that is counted.
#[tactic(auto, unfolding(rules::specs::Choice::pick))]
pub fn one_more_if(counts: bool, n: u16) -> u16
    ensures { result ≡ pick counts (one_more n) n }
{
    if counts { one_more(n) } else { n }
}

// "counts of DATOs and of all non-fetch accesses since (this one included, each stops at 2)"
#[tactic(auto, unfolding(rules::specs::Fetched::counted, rules::specs::Choice::pick))]
pub fn counted(q: Access, f: Fetch) -> Fetch
    ensures { result ≡ counted q f }
{
    if is_fetch(q) {
        return f;
    }
    Fetch {
        datos: one_more_if(is_dato(q), f.datos),
        accesses: one_more(f.accesses),
        ..f
    }
}

// ""Normal paging" is FCN 2, and FCN 3 for a fetch."
#[tactic(auto, unfolding(rules::specs::Fetched::normal))]
pub fn normal(s: Ktcs, q: Access) -> bool
    ensures { result ≡ normal s q }
{
    s.fcn == Paging::Normal as u16 || (s.fcn == Paging::StartUser as u16 && is_fetch(q))
}

// "The FCN 1 clauses hold whether or not that access is paged."
#[tactic(auto, unfolding(rules::specs::Fetched::destination_only))]
pub fn destination_only(s: Ktcs) -> bool
    ensures { result ≡ destination_only s }
{
    s.fcn == Paging::DestinationOnly as u16
}

// SS by what is being executed: n in normal paging, d in destination-only paging, at a DATO.
#[tactic(auto, unfolding(rules::specs::Fetched::source_by))]
fn source_by(k: Kind, n: bool, d: bool, dato: bool) -> bool
    ensures { result ≡ source_by k n d dato }
{
    match k {
        Kind::Jsr => (n || d) && dato,
        Kind::Rts | Kind::Rti => n || d,
        Kind::Trap => n && dato,
        Kind::Privileged | Kind::EntryPoint | Kind::Other => false,
    }
}

// DS by what is being executed: n and d as above, at the second DATO, at the second access.
#[tactic(auto, unfolding(rules::specs::Fetched::destination_by))]
fn destination_by(k: Kind, n: bool, d: bool, dato2: bool, access2: bool) -> bool
    ensures { result ≡ destination_by k n d dato2 access2 }
{
    match k {
        Kind::Rti => (n || d) && access2,
        Kind::Trap => n && dato2,
        Kind::Jsr | Kind::Rts | Kind::Privileged | Kind::EntryPoint | Kind::Other => false,
    }
}

// "Any bus operation while in the SOURCE state during normal paging", or what is being executed. Here and below both sides of the `|` are worked out
// in every state, so that the compiler tells the word's kind once for both bits: with `||` an access by all its steps took some 25 instructions more.
#[tactic(auto, unfolding(rules::specs::Fetched::source_set))]
pub fn source_set(s: Ktcs, f: Fetch, q: Access) -> bool
    ensures { result ≡ source_set s f q }
{
    let n = normal(s, q);
    let executing = kinds::kind_of(f.newer);
    (n && q.state == State::Source as u64)
        | source_by(executing, n, destination_only(s), is_dato(q))
}

// "Any bus operation while in the DESTINATION state during normal or destination-only paging", or what is being executed;
// "the "second" is the one that takes its count from 1 to 2"
#[tactic(auto, unfolding(rules::specs::Fetched::destination_set))]
pub fn destination_set(s: Ktcs, f: Fetch, q: Access) -> bool
    ensures { result ≡ destination_set s f q }
{
    let n = normal(s, q);
    let d = destination_only(s);
    let executing = kinds::kind_of(f.newer);
    let second_dato = is_dato(q) && f.datos == 1;
    ((n || d) && q.state == State::Destination as u64)
        | destination_by(executing, n, d, second_dato, f.accesses == 1)
}

// SS and DS, where the flags are clear. "a fetch sets neither bit (H)", and in normal paging it clears both.
#[tactic(auto, unfolding(rules::specs::Fetched::states_marked, rules::specs::Choice::pick))]
pub fn states_marked(s: Ktcs, f: Fetch, q: Access) -> Ktcs
    ensures { result ≡ states_marked s f q }
{
    if !is_fetch(q) {
        let ss = s.ss || source_set(s, f, q);
        let ds = s.ds || destination_set(s, f, q);
        status::with_states(s, ss, ds)
    } else if normal(s, q) {
        status::with_states(s, false, false)
    } else {
        s
    }
}

// "KTIC from the address on a paged FETCH": a fetch is paged in FCN 2 and 3, which is normal paging.
#[tactic(auto, unfolding(rules::specs::Fetched::instruction_noted, rules::specs::Unit::with_kept, rules::specs::Choice::pick))]
pub fn instruction_noted(c: Core, q: Access) -> Core
    ensures { result ≡ instruction_noted c q }
{
    if is_fetch(q) && normal(c.ktcs, q) {
        Core {
            kept: registers::stored(c.kept, registers::KTIC, q.addr),
            ..c
        }
    } else {
        c
    }
}

// "then, if bits 15-11 are clear: KTIC ..; SS and DS"; f is the fetch memory before this access was counted.
#[tactic(auto, unfolding(rules::specs::Fetched::marked, rules::specs::Unit::with_ktcs, rules::specs::Choice::pick))]
pub fn marked(c: Core, f: Fetch, q: Access) -> Core
    ensures { result ≡ marked c f q }
{
    if status::flags_clear(c.ktcs) {
        Core {
            ktcs: states_marked(c.ktcs, f, q),
            ..instruction_noted(c, q)
        }
    } else {
        c
    }
}

// Step 4, whole. It refuses nothing.
#[tactic(auto, unfolding(rules::specs::Fetched::noted, rules::specs::Unit::with_fetch))]
pub fn noted(c: Core, q: Access) -> Core
    ensures { result ≡ noted c q }
{
    let counted = Core {
        fetch: counted(q, c.fetch),
        ..c
    };
    marked(counted, c.fetch, q)
}

// "A fetch with answer 0 updates it (counts go to 0, the flag to the page's public bit)"
#[tactic(auto, unfolding(rules::specs::Fetched::after_fetch))]
pub fn after_fetch(f: Fetch, w: u16, flag: bool) -> Fetch
    ensures { result ≡ after_fetch f w flag }
{
    Fetch {
        newer: w,
        older: f.newer,
        datos: 0,
        accesses: 0,
        public: flag,
    }
}

// "Fetch memory: .. cleared is all zero.", field by field as the definition has it.
#[tactic(auto, unfolding(rules::specs::Unit::clear_fetch))]
pub fn clear_fetch() -> Fetch
    ensures { result ≡ clear_fetch }
{
    Fetch {
        newer: 0,
        older: 0,
        datos: 0,
        accesses: 0,
        public: false,
    }
}
