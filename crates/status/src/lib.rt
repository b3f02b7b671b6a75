// KTCS: its packing into 16 bits, its error flags, and what a store into it does (01, "Registers").
#![tactic(auto)]

ghost use Rattle.std.specs.Prelude.{◌≡◌, ◌+◌, ◌%◌, ◌≤◌, ◌<◌};
ghost use Rattle.rules.specs.Unit.{clear_ktcs};
ghost use Rattle.rules.specs.Status.{bit_of, bit_in, packed, unpacked, with_modes, with_states, with_flags, flags_clear, fcn_stored, ktcs_stored};

use rules::{Ktcs, Part};

// The value of one bit. The bound lets sums of bits fit.
#[tactic(auto, unfolding(rules::specs::Status::bit_of, rules::specs::Choice::pick))]
pub fn bit(b: bool, v: u16) -> u16
    ensures { (result ≡ bit_of b v) × (result ≤ v) }
{
    u16::from(b) * v
}

// Whether the bit with this value is set in a word; one with the value 0 never is.
#[tactic(auto, unfolding(rules::specs::Status::bit_in))]
pub fn bit_in(w: u16, v: u16) -> bool
    ensures { result ≡ bit_in w v }
{
    w.checked_div(v).is_some_and(|shifted| shifted % 2 == 1)
}

// FCN, SS, DS, UM and IU.
fn low_bits(s: Ktcs) -> u16
    ensures { (result ≡ s.fcn % 4 + bit_of s.ss 0o4 + bit_of s.ds 0o10 + bit_of s.um 0o20 + bit_of s.iu 0o40) × (result < 0o100) }
{
    s.fcn % 4 + bit(s.ss, 0o4) + bit(s.ds, 0o10) + bit(s.um, 0o20) + bit(s.iu, 0o40)
}

// "KTCS (H): FCN bits 1-0, SS 2, DS 3, UM 4, IU 5, RV 11, PV 12, WV 13, AV 14, IV 15; others read 0." There and back by functions: `Ktcs`
// stands in `rules`, which holds no code, and so no `From`.
#[tactic(auto, unfolding(rules::specs::Status::packed))]
pub fn packed(s: Ktcs) -> u16
    ensures { result ≡ packed s }
{
    low_bits(s)
        + bit(s.rv, 0o4000)
        + bit(s.pv, 0o10000)
        + bit(s.wv, 0o20000)
        + bit(s.av, 0o40000)
        + bit(s.iv, 0o100000)
}

#[tactic(auto, unfolding(rules::specs::Status::unpacked))]
pub fn unpacked(w: u16) -> Ktcs
    ensures { result ≡ unpacked w }
{
    Ktcs {
        fcn: w % 4,
        ss: bit_in(w, 0o4),
        ds: bit_in(w, 0o10),
        um: bit_in(w, 0o20),
        iu: bit_in(w, 0o40),
        rv: bit_in(w, 0o4000),
        pv: bit_in(w, 0o10000),
        wv: bit_in(w, 0o20000),
        av: bit_in(w, 0o40000),
        iv: bit_in(w, 0o100000),
    }
}

// "if bits 15-11 are clear"
#[tactic(auto, unfolding(rules::specs::Status::flags_clear))]
pub fn flags_clear(s: Ktcs) -> bool
    ensures { result ≡ flags_clear s }
{
    !(s.rv || s.pv || s.wv || s.av || s.iv)
}

// FCN, UM and IU changed, and nothing else.
#[tactic(auto, unfolding(rules::specs::Status::with_modes))]
pub fn with_modes(s: Ktcs, fcn: u16, um: bool, iu: bool) -> Ktcs
    ensures { result ≡ with_modes s fcn um iu }
{
    Ktcs { fcn, um, iu, ..s }
}

// SS and DS changed.
#[tactic(auto, unfolding(rules::specs::Status::with_states))]
pub fn with_states(s: Ktcs, ss: bool, ds: bool) -> Ktcs
    ensures { result ≡ with_states s ss ds }
{
    Ktcs { ss, ds, ..s }
}

// The five error flags changed.
#[tactic(auto, unfolding(rules::specs::Status::with_flags))]
pub fn with_flags(s: Ktcs, rv: bool, pv: bool, wv: bool, av: bool, iv: bool) -> Ktcs
    ensures { result ≡ with_flags s rv pv wv av iv }
{
    Ktcs {
        rv,
        pv,
        wv,
        av,
        iv,
        ..s
    }
}

// "a store that covers bits 1-0 sets FCN"
#[tactic(auto, unfolding(rules::specs::Status::fcn_stored))]
fn fcn_stored(fcn: u16, p: Part, v: u16) -> u16
    ensures { result ≡ fcn_stored fcn p v }
{
    match p {
        Part::Whole | Part::Low => v % 4,
        Part::High => fcn,
    }
}

// "Any store into it, byte or word, clears IU and bits 15-11"
#[tactic(auto, unfolding(rules::specs::Status::ktcs_stored))]
pub fn ktcs_stored(s: Ktcs, p: Part, v: u16) -> Ktcs
    ensures { result ≡ ktcs_stored s p v }
{
    let fcn = fcn_stored(s.fcn, p, v);
    let kept = with_modes(s, fcn, s.um, false);
    with_flags(kept, false, false, false, false, false)
}

// KTCS all zero, as INIT leaves it, field by field as the definition has it.
#[tactic(auto, unfolding(rules::specs::Unit::clear_ktcs))]
pub fn clear_ktcs() -> Ktcs
    ensures { result ≡ clear_ktcs }
{
    Ktcs {
        fcn: 0,
        ss: false,
        ds: false,
        um: false,
        iu: false,
        rv: false,
        pv: false,
        wv: false,
        av: false,
        iv: false,
    }
}
