// The register table: which address is which register, the parts of a word that a store covers, and what is read of the core and the map
// registers (01, "Registers").
#![tactic(auto)]

ghost use Rattle.std.specs.Prelude.{◌≡◌, get_or, set};
ghost use Rattle.rules.specs.Registers.{found_from, register_of, place_in, place_of, part_of, merged, operating_word};

use rules::{Associative, Core, Maps, Operating, Operation, Part, Place, Register, Size, Target};

// The registers that only remember, counted from KTIC: numbers, since they are places in an array and in the table of registers.
pub const KTIC: usize = 0;

pub const KTSP: usize = 1;

pub const KTPC: usize = 2;

pub const KTPS: usize = 3;

pub const KTAD: usize = 4;

pub const KTDT: usize = 5;

// How many addresses stand before the scratchpad words in the table: KTWN and the ten registers from KTMR to KTEM.
const BEFORE_PADS: usize = 11;

// The one search, for vectors and for registers.
pub fn found(list: &[usize], x: usize) -> Option<usize>
    ensures { result ≡ found_from 0 list.now x }
{
    list.iter().position(|&held| x == held)
}

// The register with this number, counted from KTMR in the order of their addresses.
#[tactic(auto, unfolding(rules::specs::Registers::register_of, rules::specs::Choice::pick))]
pub fn register_of(n: usize) -> Register
    ensures { result ≡ register_of n }
{
    match n {
        0 => Register::Associative(Associative::Ktmr),
        1 => Register::Operating(Operating::Ktcs),
        2..8 => Register::Operating(Operating::Kept(n - 2)),
        8 => Register::Operating(Operating::Ktum),
        9 => Register::Operating(Operating::Ktem),
        _ => Register::Associative(Associative::Pad(n - 10)),
    }
}

// What stands at this place of the table: the window first, and the registers after it.
#[tactic(auto, unfolding(rules::specs::Registers::place_in, rules::specs::Choice::pick))]
fn place_in(n: usize) -> Place
    ensures { result ≡ place_in n }
{
    match n {
        0 => Place::Window,
        _ => Place::There(Target::In(register_of(n - 1))),
    }
}

// What lies at a physical address for a unit of this size: "at or beyond L and not a register above" is nowhere.
#[tactic(auto, unfolding(rules::specs::Registers::place_of, rules::specs::Choice::pick))]
pub fn place_of(size: Size, len: usize, at: usize) -> Place
    ensures { result ≡ place_of size len at }
{
    if at < len {
        return Place::There(Target::Memory);
    }
    let end = BEFORE_PADS + sizes::count_of(size);
    found(&rules::REGISTERS[..end], memory::even_of(at)).map_or(Place::Nowhere, place_in)
}

// "DATOB writes the low 8 bits of data", into the byte that its address names; every other store covers the word.
#[tactic(auto, unfolding(rules::specs::Registers::part_of, rules::specs::Choice::pick))]
pub fn part_of(op: u64, at: usize) -> Part
    ensures { result ≡ part_of op at }
{
    if op != Operation::Datob as u64 {
        Part::Whole
    } else if at % 2 == 0 {
        Part::Low
    } else {
        Part::High
    }
}

// "Other registers take words and bytes." Part and word come apart here as everywhere: the definitions and `Effect::StorePad` have them so.
#[tactic(auto, unfolding(rules::specs::Registers::merged))]
pub fn merged(p: Part, old: u16, v: u16) -> u16
    ensures { result ≡ merged p old v }
{
    match p {
        Part::Whole => v,
        Part::Low => old / 256 * 256 + v % 256,
        Part::High => v % 256 * 256 + old % 256,
    }
}

// A register that only remembers, by its place among them; 0 past the last.
pub fn kept_word(kept: &[u16; rules::KEPT], i: usize) -> u16
    ensures { result ≡ get_or kept.now i 0 }
{
    kept.get(i).copied().unwrap_or(0)
}

// A list with one place changed; past the last, the list as it is. The registers that only remember are stored into by this, and the cells.
// (`get_mut` promises no element, so a store through it would not be proved.)
pub fn stored<T: Copy, const N: usize>(mut list: [T; N], i: usize, v: T) -> [T; N]
    ensures { result ≡ set list i v }
{
    if i < N {
        list[i] = v;
    }
    list
}

// What a read of a register gives that the core or the map registers answer for. The registers that only remember are taken out of the core, so that
// the rest of it need not lie in memory.
#[tactic(auto, unfolding(rules::specs::Registers::operating_word))]
pub fn operating_word(c: Core, r: Maps, g: Operating) -> u16
    ensures { result ≡ operating_word c r g }
{
    match g {
        Operating::Ktcs => status::packed(c.ktcs),
        Operating::Kept(i) => {
            let kept = c.kept;
            kept_word(&kept, i)
        }
        Operating::Ktum => r.ktum,
        Operating::Ktem => r.ktem,
    }
}
