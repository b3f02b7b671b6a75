// What the bench program's arguments ask for, and what it says where that is no unit.
#![tactic(auto)]

ghost use Rattle.std.specs.Prelude.{◌≡◌, Some};
ghost use Rattle.arguments.specs.Asked.{with_cells, asked_for};
ghost use Rattle.arguments.specs.Told.{message_of};

use rules::Size;
use std::error::Error;
use std::fmt;

// Why no unit is made.
#[derive(Clone, Copy, Debug, PartialEq, Eq)]
pub enum ArgumentError {
    // The number of cells is one that no unit is made with.
    OtherCount,
    // The arguments are none that the program knows.
    BadUsage,
}

// How many cells a unit has where no number is asked for.
const USUAL: u64 = 8;

// "it is the proved `size_of` that refuses" (T-08)
#[tactic(auto, unfolding(crate::specs::Asked::with_cells))]
fn with_cells(cells: u64) -> Result<Size, ArgumentError>
    ensures { result ≡ with_cells cells }
{
    sizes::size_of(cells).ok_or(ArgumentError::OtherCount)
}

// By how many words the program was started with, its own name among them, and the two after its name.
#[tactic(auto, unfolding(crate::specs::Asked::asked_for, crate::specs::Asked::by_count, rules::specs::Choice::pick, crate::specs::Text::option_text, crate::specs::Text::bytes_of))]
pub fn asked_for(words: usize, option: &[u8], count: &[u8]) -> Result<Size, ArgumentError>
    ensures { result ≡ asked_for words option.now count.now }
{
    match words {
        0 | 1 => with_cells(USUAL),
        3 if option == b"--cells".as_slice() => {
            let cells = fieldtext::count(count).ok_or(ArgumentError::BadUsage)?;
            with_cells(cells)
        }
        _ => Err(ArgumentError::BadUsage),
    }
}

impl ArgumentError {
    // What the program says of it: the number that refuses and those that do not, or the arguments that it knows.
    #[tactic(auto, unfolding(crate::specs::Told::message_of, crate::specs::Told::refusal_text, crate::specs::Told::usage_text, crate::specs::Text::option_text, crate::specs::Text::bytes_of, rowtext::specs::Digits::decimal, rowtext::specs::Digits::decimals, rules::specs::Choice::pick, rules::specs::Unit::count_of, rules::specs::Answers::making_shown, rules::specs::Answers::shown_as))]
    pub fn message(self) -> &'static str
        ensures { result.now ≡ message_of self }
    {
        match self {
            ArgumentError::OtherCount => "bench: 30: a unit is made with 8 or 24 cells\n",
            ArgumentError::BadUsage => "bench: usage: bench [--cells N]\n",
        }
    }
}

impl fmt::Display for ArgumentError {
    ghost output = { λ e. Some (message_of e) };

    fn fmt<W: fmt::Write>(&self, f: &mut fmt::Formatter<W>) -> fmt::Result {
        f.write_str(self.message())
    }
}

impl Error for ArgumentError {}
