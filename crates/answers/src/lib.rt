// What the host sees of an answer: its number, its data and its physical address (01, "What comes back").
// By functions: `Answer` and `Returned` stand in `rules`, which holds no code, and so no `From`.
#![tactic(auto)]

ghost use Rattle.std.specs.Prelude.{◌≡◌, None};
ghost use Rattle.rules.specs.Answers.{shown_as, fault_shown, shown};

use rules::{Answer, Fault, Returned};

// An answer with no data and no physical address.
#[tactic(auto, unfolding(rules::specs::Answers::shown_as))]
fn bare(number: u16) -> Returned
    ensures { result ≡ shown_as number 0 None }
{
    Returned {
        number,
        datum: 0,
        physical: None,
    }
}

// "4-8 | AV, RV, WV, PV, IV", "9 | time-out"; "10 takes 9's place at step 6" (T-01)
#[tactic(auto, unfolding(rules::specs::Answers::fault_shown, rules::specs::Answers::shown_as))]
pub fn fault_shown(f: Fault) -> Returned
    ensures { result ≡ fault_shown f }
{
    match f {
        Fault::OddAddress => bare(4),
        Fault::NoMapWord => bare(10),
        Fault::NotResident => bare(5),
        Fault::NotWritable => bare(6),
        Fault::NotPublic => bare(7),
        Fault::NoTarget => bare(9),
        Fault::Forbidden(word, at) => Returned {
            number: 8,
            datum: word,
            physical: Some(at),
        },
    }
}

// "Answers 0 and 8 of an access give the physical address ..; sequence accesses, the other calls and the other answers give none."
#[tactic(auto, unfolding(rules::specs::Answers::shown, rules::specs::Answers::shown_as))]
pub fn shown(a: Answer) -> Returned
    ensures { result ≡ shown a }
{
    match a {
        Answer::Done(word, at) => Returned {
            number: 0,
            datum: word,
            physical: Some(at),
        },
        Answer::Taken(word) => Returned {
            number: 0,
            datum: word,
            physical: None,
        },
        Answer::Misshapen => bare(1),
        Answer::NotDue => bare(2),
        Answer::UnpagedOdd => bare(3),
        Answer::Fault(f) => fault_shown(f),
    }
}
