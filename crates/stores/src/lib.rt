// What a store does to the core, and the effect that it leaves to be done to memory, the map registers or the cells.
#![tactic(auto)]

ghost use Rattle.std.specs.Prelude.{◌≡◌};
ghost use Rattle.rules.specs.Order.{core_stored, operating_effect, associative_effect, memory_effect};

use rules::{Associative, Core, Effect, Maps, Operating, Part};

// KTCS by its own rule, the six that remember by word and byte; the map registers are not of the core.
#[tactic(auto, unfolding(rules::specs::Order::core_stored, rules::specs::Unit::with_ktcs, rules::specs::Unit::with_kept))]
pub fn core_stored(c: Core, p: Part, v: u16, g: Operating) -> Core
    ensures { result ≡ core_stored c p v g }
{
    match g {
        Operating::Ktcs => Core {
            ktcs: status::ktcs_stored(c.ktcs, p, v),
            ..c
        },
        Operating::Kept(i) => {
            let word = registers::merged(p, registers::kept_word(&c.kept, i), v);
            Core {
                kept: registers::stored(c.kept, i, word),
                ..c
            }
        }
        Operating::Ktum | Operating::Ktem => c,
    }
}

// "A store into KTUM or KTEM, byte or word, empties all cells and sets the counter to 10o."
#[tactic(auto, unfolding(rules::specs::Order::operating_effect))]
pub fn operating_effect(r: Maps, p: Part, v: u16, g: Operating) -> Effect
    ensures { result ≡ operating_effect r p v g }
{
    match g {
        Operating::Ktcs | Operating::Kept(_) => Effect::Keep,
        Operating::Ktum => {
            let ktum = registers::merged(p, r.ktum, v);
            Effect::Reload(Maps { ktum, ..r })
        }
        Operating::Ktem => {
            let ktem = registers::merged(p, r.ktem, v);
            Effect::Reload(Maps { ktem, ..r })
        }
    }
}

// "stores into it [KTMR] are accepted and do nothing"; a scratchpad word takes its part.
#[tactic(auto, unfolding(rules::specs::Order::associative_effect))]
pub fn associative_effect(p: Part, v: u16, g: Associative) -> Effect
    ensures { result ≡ associative_effect p v g }
{
    match g {
        Associative::Ktmr => Effect::Keep,
        Associative::Pad(i) => Effect::StorePad(i, p, v),
    }
}

// "DATOB writes the low 8 bits of data."
#[tactic(auto, unfolding(rules::specs::Order::memory_effect))]
pub fn memory_effect(p: Part, at: usize, v: u16) -> Effect
    ensures { result ≡ memory_effect p at v }
{
    match p {
        Part::Whole => Effect::StoreWord(at, v),
        Part::Low | Part::High => Effect::StoreByte(at, v),
    }
}
