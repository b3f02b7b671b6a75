// What answers 4 to 10 do to the core: the flag, KTAD and KTDT, and the wait for SERVICE (01, "Sequences").
#![tactic(auto)]

ghost use Rattle.std.specs.Prelude.{◌≡◌};
ghost use Rattle.rules.specs.Sequences.{service_awaited, flagged, start_ended, data_lines, fault_data, address_kept, lines_kept, violated, timed_out};

use rules::{Access, Core, Fault, KEPT, Ktcs, Paging, Wait};

// What a violation, an interrupt and a trap share: "IU takes UM; UM clears; .. fetch memory clears; the unit waits for two SERVICE DATOs."
#[tactic(auto, unfolding(rules::specs::Sequences::service_awaited, rules::specs::Status::with_modes))]
pub fn service_awaited(c: Core) -> Core
    ensures { result ≡ service_awaited c.ktcs c.kept }
{
    Core {
        ktcs: Ktcs {
            um: false,
            iu: c.ktcs.um,
            ..c.ktcs
        },
        wait: Wait::StatusDue,
        fetch: fetched::clear_fetch(),
        ..c
    }
}

// "its flag is set (9 has none)", and 10 has none: "State changes are as for 9" (T-01).
#[tactic(auto, unfolding(rules::specs::Sequences::flagged, rules::specs::Status::with_flags))]
pub fn flagged(s: Ktcs, f: Fault) -> Ktcs
    ensures { result ≡ flagged s f }
{
    match f {
        Fault::OddAddress => Ktcs { av: true, ..s },
        Fault::NotResident => Ktcs { rv: true, ..s },
        Fault::NotWritable => Ktcs { wv: true, ..s },
        Fault::NotPublic => Ktcs { pv: true, ..s },
        Fault::Forbidden(_, _) => Ktcs { iv: true, ..s },
        Fault::NoMapWord | Fault::NoTarget => s,
    }
}

// "FCN 3 becomes 2"
#[tactic(auto, unfolding(rules::specs::Sequences::start_ended, rules::specs::Status::with_modes, rules::specs::Choice::pick))]
pub fn start_ended(s: Ktcs) -> Ktcs
    ensures { result ≡ start_ended s }
{
    if s.fcn == Paging::StartUser as u16 {
        Ktcs {
            fcn: Paging::Normal as u16,
            ..s
        }
    } else {
        s
    }
}

// What the data lines carry: "the store's data .. else 0".
#[tactic(auto, unfolding(rules::specs::Sequences::data_lines, rules::specs::Choice::pick))]
pub fn data_lines(q: Access) -> u16
    ensures { result ≡ data_lines q }
{
    if fetched::is_read(q) { 0 } else { q.datum }
}

// "KTDT the store's data or, for 8, the fetched word, else 0"
#[tactic(auto, unfolding(rules::specs::Sequences::fault_data))]
pub fn fault_data(q: Access, f: Fault) -> u16
    ensures { result ≡ fault_data q f }
{
    match f {
        Fault::Forbidden(w, _) => w,
        _ => data_lines(q),
    }
}

// "KTAD takes the virtual address (for the inner window access KTAD stays)"
#[tactic(auto, unfolding(rules::specs::Sequences::address_kept, rules::specs::Choice::pick))]
pub fn address_kept(kept: [u16; KEPT], inner: bool, a: u16) -> [u16; KEPT]
    ensures { result ≡ address_kept kept inner a }
{
    if inner {
        kept
    } else {
        registers::stored(kept, registers::KTAD, a)
    }
}

// KTAD and KTDT after a refusal.
#[tactic(auto, unfolding(rules::specs::Sequences::lines_kept))]
pub fn lines_kept(kept: [u16; KEPT], inner: bool, a: u16, d: u16) -> [u16; KEPT]
    ensures { result ≡ lines_kept kept inner a d }
{
    registers::stored(address_kept(kept, inner, a), registers::KTDT, d)
}

// "Any of answers 4-8, or a paged 9", of the core; and 10: "State changes are as for 9" (T-01).
#[tactic(auto, unfolding(rules::specs::Sequences::violated))]
pub fn violated(c: Core, q: Access, inner: bool, f: Fault) -> Core
    ensures { result ≡ violated c q inner f }
{
    service_awaited(Core {
        ktcs: flagged(start_ended(c.ktcs), f),
        kept: lines_kept(c.kept, inner, q.addr, fault_data(q, f)),
        ..c
    })
}

// An unpaged 9: "unpaged: step 4, KTAD, KTDT".
#[tactic(auto, unfolding(rules::specs::Sequences::timed_out, rules::specs::Unit::with_kept))]
pub fn timed_out(c: Core, q: Access) -> Core
    ensures { result ≡ timed_out c q }
{
    Core {
        kept: lines_kept(c.kept, false, q.addr, data_lines(q)),
        ..c
    }
}
