// How many cells a unit has: the number of each size, and the size that is made with a number (T-08).
#![tactic(auto)]

ghost use Rattle.std.specs.Prelude.{◌≤◌, ◌≡◌};
ghost use Rattle.rules.specs.Unit.{count_of, size_of};

use rules::Size;

// The number that names the first cell, as the counter counts them.
pub const FIRST_CELL: u16 = 0o10;

// How many cells a unit of this size has, and so how many of the scratchpad words in the table of registers.
#[tactic(auto, unfolding(rules::specs::Unit::count_of))]
pub fn count_of(size: Size) -> usize
    ensures { (result ≡ count_of size) × (result ≤ 24) }
{
    match size {
        Size::Eight => 8,
        Size::TwentyFour => 24,
    }
}

// "8 and 24 give a fresh unit .. Every other number gives 30 and no unit." The number is of any size. A function: `Size`
// stands in `rules`, which holds no code, and so no `TryFrom` here, and no `From` above.
#[tactic(auto, unfolding(rules::specs::Unit::size_of, rules::specs::Choice::pick))]
pub fn size_of(cells: u64) -> Option<Size>
    ensures { result ≡ size_of cells }
{
    match cells {
        8 => Some(Size::Eight),
        24 => Some(Size::TwentyFour),
        _ => None,
    }
}
