// An access under way: what lies at an address, reading at a target and storing there, and how it ends.
#![tactic(auto)]

ghost use Rattle.std.specs.Prelude.{◌≡◌, length};
ghost use Rattle.rules.specs.Registers.{place_of};
ghost use Rattle.rules.specs.Order.{source_in, word_from, word_read, stored_at, transferred};
ghost use Rattle.rules.specs.Fetched.{noted};
ghost use Rattle.transfer.specs.Stage.{ran};

use rules::{
    Access, Answer, Cells, Core, Effect, Job, Maps, Outcome, Part, Place, Ran, Register, Target,
    Unit,
};

// What a read of a register gives: the cells answer for it, or the rest of the unit.
#[tactic(auto, unfolding(rules::specs::Order::source_in, rules::specs::Order::word_from))]
pub fn word_in(c: Core, maps: Maps, k: &Cells, g: Register) -> u16
    ensures { result ≡ word_from k.now (source_in c maps g) }
{
    match g {
        Register::Operating(o) => registers::operating_word(c, maps, o),
        Register::Associative(a) => cells::peeked(k, a),
    }
}

// "Then the store.", into memory or into a register.
#[tactic(auto, unfolding(rules::specs::Order::stored_at, rules::specs::Order::stored_in, rules::specs::Order::outcome))]
fn stored_at(j: Job, p: Part, at: usize, t: Target) -> Outcome
    ensures { result ≡ stored_at j p at t }
{
    let v = j.q.datum;
    let (core, effect) = match t {
        Target::Memory => (j.core, stores::memory_effect(p, at, v)),
        Target::In(Register::Operating(g)) => (
            stores::core_stored(j.core, p, v, g),
            stores::operating_effect(j.maps, p, v, g),
        ),
        Target::In(Register::Associative(g)) => (j.core, stores::associative_effect(p, v, g)),
    };
    Outcome {
        answer: Answer::Done(0, at),
        core,
        effect,
    }
}

// An access under way, over memory as it is lent and the cells as its look-ups have left them so far.
#[derive(Clone, Copy)]
pub struct Stage<'a> {
    pub memory: &'a [u8],
    pub cells: &'a Cells,
    pub job: Job,
}

impl<'a> Stage<'a> {
    // An access at its step 4, which notes it in the core.
    pub fn noted(memory: &'a [u8], u: &'a Unit, q: Access) -> Self
        ensures memory { result.memory.now ≡ memory.now }
        ensures cells { result.cells.now ≡ u.now.cells }
        ensures job { result.job ≡ record { q = q; core = noted u.now.core q; maps = u.now.maps; size = u.now.cells.size } }
    {
        Stage {
            memory,
            cells: &u.cells,
            job: Job {
                q,
                core: fetched::noted(u.core, q),
                maps: u.maps,
                size: u.cells.size,
            },
        }
    }

    // The access ends so, with the cells as its look-ups left them.
    pub fn ended(&self, outcome: Outcome) -> Ran
        ensures { result ≡ record { outcome = outcome; cells = self.now.cells.now } }
    {
        Ran {
            outcome,
            cells: *self.cells,
        }
    }

    // What lies at this physical address.
    pub fn place(&self, at: usize) -> Place
        ensures { result ≡ place_of self.now.job.size (length self.now.memory.now) at }
    {
        registers::place_of(self.job.size, self.memory.len(), at)
    }

    // "Reads give the whole word at the even address."
    #[tactic(auto, unfolding(rules::specs::Order::source_at, rules::specs::Order::word_from, rules::specs::Order::word_read))]
    pub fn word_read(&self, at: usize, t: Target) -> u16
        ensures { result ≡ word_read self.now.memory.now self.now.job self.now.cells.now at t }
    {
        match t {
            Target::Memory => memory::word_at(self.memory, memory::even_of(at)),
            Target::In(g) => word_in(self.job.core, self.job.maps, self.cells, g),
        }
    }

    // A read by operations 0 and 1, or a store by 2 and 3.
    #[tactic(auto, unfolding(crate::specs::Stage::ran, rules::specs::Order::transferred, rules::specs::Order::outcome, rules::specs::Choice::pick, rules::specs::Program::run, rules::specs::Order::read_at, rules::specs::Order::read_from, rules::specs::Order::source_at, rules::specs::Order::word_read, rules::specs::Order::word_from))]
    pub fn transferred(&self, at: usize, t: Target) -> Ran
        ensures { result ≡ ran self.now (transferred self.now.memory.now self.now.job at t) }
    {
        if fetched::is_read(self.job.q) {
            return self.ended(Outcome {
                answer: Answer::Done(self.word_read(at, t), at),
                core: self.job.core,
                effect: Effect::Keep,
            });
        }
        let part = registers::part_of(self.job.q.op, at);
        self.ended(stored_at(self.job, part, at, t))
    }
}
