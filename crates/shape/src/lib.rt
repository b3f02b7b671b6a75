// Steps 1 and 2 of an access: whether it is well shaped, and what the wait says of it (01, "Order in one access").
#![tactic(auto)]

ghost use Rattle.std.specs.Prelude.{◌≡◌};
ghost use Rattle.rules.specs.Choice.{pick};
ghost use Rattle.rules.specs.Steps.{listed, word_dati, ill_fitting, well_shaped, service_dato, start_read, due_of};

use rules::{Access, Core, Due, Operation, Paging, State, Wait, Width};

// Step 1 ---------------------------------------------------------------------------------------------------------------

// "Operations: 0 DATI, 1 DATIP, 2 DATO, 3 DATOB. States: 0 FETCH .. 4 SERVICE. Width: 0 word, 1 byte."
#[tactic(auto, unfolding(rules::specs::Steps::listed))]
fn listed(q: Access) -> bool
    ensures { result ≡ listed q }
{
    q.op <= Operation::Datob as u64
        && q.state <= State::Service as u64
        && q.width <= Width::Byte as u64
}

#[tactic(auto, unfolding(rules::specs::Steps::word_dati))]
fn word_dati(q: Access) -> bool
    ensures { result ≡ word_dati q }
{
    q.op == Operation::Dati as u64 && q.width == Width::Word as u64
}

// "DATO as byte, DATOB as word; FETCH not a word DATI"
#[tactic(auto, unfolding(rules::specs::Steps::ill_fitting))]
fn ill_fitting(q: Access) -> bool
    ensures { result ≡ ill_fitting q }
{
    (fetched::is_dato(q) && q.width == Width::Byte as u64)
        || (q.op == Operation::Datob as u64 && q.width == Width::Word as u64)
        || (fetched::is_fetch(q) && !word_dati(q))
}

// "1. Shape (answer 1)", with memory of this length.
#[tactic(auto, unfolding(rules::specs::Steps::well_shaped))]
pub fn well_shaped(len: usize, q: Access) -> bool
    ensures { result ≡ well_shaped len q }
{
    listed(q) && !ill_fitting(q) && memory::good_length(len)
}

// Step 2 ---------------------------------------------------------------------------------------------------------------

// "the unit waits for two SERVICE DATOs"
#[tactic(auto, unfolding(rules::specs::Steps::service_dato))]
fn service_dato(q: Access) -> bool
    ensures { result ≡ service_dato q }
{
    fetched::is_dato(q) && q.state == State::Service as u64
}

// "the next two accesses other than a fetch must be word DATIs"
#[tactic(auto, unfolding(rules::specs::Steps::start_read))]
fn start_read(q: Access) -> bool
    ensures { result ≡ start_read q }
{
    !fetched::is_fetch(q) && word_dati(q)
}

// What is due, where it is what comes.
#[tactic(auto, unfolding(rules::specs::Choice::pick))]
fn due_if(comes: bool, due: Due) -> Due
    ensures { result ≡ pick comes due Due.OutOfTurn }
{
    if comes { due } else { Due::OutOfTurn }
}

// "2. The wait (2); a due sequence access ends here." Where nothing is waited for, the first START read is due in FCN 3, and "Fetches may come
// before the first".
#[tactic(auto, unfolding(rules::specs::Steps::due_of, rules::specs::Steps::due_when, rules::specs::Choice::pick))]
pub fn due_of(c: Core, q: Access) -> Due
    ensures { result ≡ due_of c q }
{
    match c.wait {
        Wait::Nothing if c.ktcs.fcn == Paging::StartUser as u16 && !fetched::is_fetch(q) => {
            due_if(start_read(q), Due::FirstRead)
        }
        Wait::Nothing => Due::Steps,
        Wait::StatusDue => due_if(service_dato(q), Due::StatusStore),
        Wait::ProgramCounterDue => due_if(service_dato(q), Due::ProgramCounterStore),
        Wait::SecondReadDue => due_if(start_read(q), Due::SecondRead),
    }
}
