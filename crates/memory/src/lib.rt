// Bytes and words of lent memory, low byte first, and the map page that tools get.
// Every function takes any address: past the end there is nothing to read, and nothing is stored.
#![tactic(auto)]

ghost use Rattle.std.specs.Prelude.{◌≡◌, ◌<◌};
ghost use Rattle.rules.specs.Memory.{good_length, byte_at, word_at, even_of, store_word, store_byte};
ghost use Rattle.rules.specs.Tools.{map_page};

// "its length L is even, at most 253,952 (760000o)"
#[tactic(auto, unfolding(rules::specs::Memory::good_length))]
pub fn good_length(len: usize) -> bool
    ensures { result ≡ good_length len }
{
    len % 2 == 0 && len <= 0o760000
}

#[tactic(auto, unfolding(rules::specs::Memory::even_of))]
pub fn even_of(at: usize) -> usize
    ensures { result ≡ even_of at }
{
    at / 2 * 2
}

#[tactic(auto, unfolding(rules::specs::Memory::byte_at))]
pub fn byte_at(m: &[u8], at: usize) -> u16
    ensures { (result ≡ byte_at m.now at) × (result < 256) }
{
    m.get(at).map_or(0, |&byte| u16::from(byte))
}

#[tactic(auto, unfolding(rules::specs::Memory::word_at, rules::specs::Memory::byte_at))]
pub fn word_at(m: &[u8], at: usize) -> u16
    ensures { result ≡ word_at m.now at }
{
    match m.get(at..) {
        Some([low, high, ..]) => u16::from_le_bytes([*low, *high]),
        Some([low]) => u16::from(*low),
        _ => 0,
    }
}

// (`get_mut` promises no element, so a store through it would not be proved.)
#[tactic(auto, unfolding(rules::specs::Memory::store_byte))]
pub fn store_byte(m: &mut [u8], at: usize, v: u16)
    ensures { m.new ≡ store_byte m.old at v }
{
    if at < m.len() {
        m[at] = (v % 256) as u8;
    }
}

#[tactic(auto, unfolding(rules::specs::Memory::store_word, rules::specs::Memory::store_byte))]
pub fn store_word(m: &mut [u8], at: usize, v: u16)
    ensures { m.new ≡ store_word m.old at v }
{
    if at < m.len() {
        store_byte(m, at, v);
        store_byte(m, at + 1, v / 256);
    }
}

// "Tools that read a map get the page a map register names as a part of the caller's memory, or an empty part"
#[tactic(auto, unfolding(rules::specs::Tools::map_page, rules::specs::Maps::low9, rules::specs::Choice::pick))]
pub fn map_page(m: &[u8], register: u16) -> &[u8]
    ensures { result.now ≡ map_page m.now register }
{
    let at = 512 * (usize::from(register) % 512);
    let end = at + 512;
    match m.get(at..end) {
        Some(page) => page,
        None => &m[..0],
    }
}
