// Pages and addresses: unpaged or paged, page and offset, the bits of map words, and where in a map page each word stands (01, "From address to entry").
// A page number has 7 bits and is a u8, a physical page has 9 and is a u16; every function takes any value of these.
#![tactic(auto)]

ghost use Rattle.std.specs.Prelude.{◌≡◌, ◌<◌};
ghost use Rattle.rules.specs.Maps.{unpaged, unpaged_at, page_of, physical_at, resident_bit, public_bit, write_bit};
ghost use Rattle.rules.specs.Maps.{low9, high7, simple, upper_at, lower_at, pointed_at, exec_zero, tag_of};

use rules::{Paging, State};

// Addresses ------------------------------------------------------------------------------------------------------------

// "Unpaged: FCN 0, or FCN 1 in a state other than DESTINATION or EXECUTE."
#[tactic(auto, unfolding(rules::specs::Maps::unpaged))]
pub fn unpaged(fcn: u16, state: u64) -> bool
    ensures { result ≡ unpaged fcn state }
{
    fcn == Paging::Unpaged as u16
        || fcn == Paging::DestinationOnly as u16
            && state != State::Destination as u64
            && state != State::Execute as u64
}

// "Physical equals virtual, but 160000o-177777o become 760000o-777777o (PDP-11 rule)."
#[tactic(auto, unfolding(rules::specs::Maps::unpaged_at, rules::specs::Choice::pick))]
pub fn unpaged_at(a: u16) -> usize
    ensures { (result ≡ unpaged_at a) × (result < 0o1000000) }
{
    let at = usize::from(a);
    if at < 0o160000 { at } else { at + 0o600000 }
}

// "page p is the top 7 bits, the offset the low 9"
#[tactic(auto, unfolding(rules::specs::Maps::page_of))]
pub fn page_of(a: u16) -> u8
    ensures { (result ≡ page_of a) × (result < 128) }
{
    high7(a)
}

// The address in a physical page, with the offset of a virtual one.
#[tactic(auto, unfolding(rules::specs::Maps::physical_at))]
pub fn physical_at(page: u16, a: u16) -> usize
    ensures { (result ≡ physical_at page a) × (result < 0o200000000) }
{
    512 * usize::from(page) + usize::from(low9(a))
}

// Map words, map registers and pointers --------------------------------------------------------------------------------

// "bit 15 resident, 14 public, 13 write-enabled": a function for each, since each has a definition of its own.
#[tactic(auto, unfolding(rules::specs::Maps::resident_bit))]
pub fn resident_bit(w: u16) -> bool
    ensures { result ≡ resident_bit w }
{
    status::bit_in(w, 0o100000)
}

#[tactic(auto, unfolding(rules::specs::Maps::public_bit))]
pub fn public_bit(w: u16) -> bool
    ensures { result ≡ public_bit w }
{
    status::bit_in(w, 0o40000)
}

#[tactic(auto, unfolding(rules::specs::Maps::write_bit))]
pub fn write_bit(w: u16) -> bool
    ensures { result ≡ write_bit w }
{
    status::bit_in(w, 0o20000)
}

// The physical page of a map word, a map register (M) or a pointer (m).
#[tactic(auto, unfolding(rules::specs::Maps::low9))]
pub fn low9(w: u16) -> u16
    ensures { (result ≡ low9 w) × (result < 512) }
{
    w % 512
}

// The last simple page of a map register (N), or the entry that a pointer names (n).
#[tactic(auto, unfolding(rules::specs::Maps::high7))]
pub fn high7(w: u16) -> u8
    ensures { (result ≡ high7 w) × (result < 128) }
{
    (w / 512 % 128) as u8
}

// "pages 0 to N are simple" (T-02; source 4.2.2.1, 4.2.2.2): the one boundary of both maps
#[tactic(auto, unfolding(rules::specs::Maps::simple))]
pub fn simple(register: u16, p: u8) -> bool
    ensures { result ≡ simple register p }
{
    p <= high7(register)
}

// "512·M(KTEM)+256+2p", "512·M(KTUM)+256+2p", "512·m+256+2n": the upper half of a map page has the simple words and the pointers.
#[tactic(auto, unfolding(rules::specs::Maps::upper_at, rules::specs::Maps::lower_at))]
pub fn upper_at(page: u16, p: u8) -> usize
    ensures { result ≡ upper_at page p }
{
    lower_at(page, p) + 256
}

// "512·M(KTUM)+2p": the lower half of the user's has the exec pages that are not simple.
#[tactic(auto, unfolding(rules::specs::Maps::lower_at))]
pub fn lower_at(page: u16, p: u8) -> usize
    ensures { result ≡ lower_at page p }
{
    512 * usize::from(page) + 2 * usize::from(p)
}

// "a pointer, high 7 bits n, low 9 bits m; the map word is at 512·m+256+2n"
#[tactic(auto, unfolding(rules::specs::Maps::pointed_at))]
pub fn pointed_at(pointer: u16) -> usize
    ensures { result ≡ pointed_at pointer }
{
    upper_at(low9(pointer), high7(pointer))
}

// Pages by their tags ---------------------------------------------------------------------------------------------------

// "Exec page 0": the only page that has neither map word nor cell. Whose page it is and its number come apart, as the definitions have them.
#[tactic(auto, unfolding(rules::specs::Maps::exec_zero))]
pub fn exec_zero(user: bool, p: u8) -> bool
    ensures { result ≡ exec_zero user p }
{
    !user && p == 0
}

// "Tag: 128 for user plus p; 0 means empty."
#[tactic(auto, unfolding(rules::specs::Maps::tag_of, rules::specs::Choice::pick))]
pub fn tag_of(user: bool, p: u8) -> u16
    ensures { result ≡ tag_of user p }
{
    if user {
        128 + u16::from(p)
    } else {
        u16::from(p)
    }
}
