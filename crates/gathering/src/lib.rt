// Lines gathered from the input byte by byte. No good line has more than 36 bytes, so 40 are enough to tell what a line asks for.
#![tactic(auto)]

ghost use Rattle.std.specs.Prelude.{◌≡◌};
ghost use Rattle.std.specs.Result.{result_map_both};
ghost use Rattle.gathering.specs.Gather.{nothing_yet, push_of, line_in};

use fewbytes::FewBytes;
use linetext::Line;
use std::marker::Model;

// The bytes of a line so far; of a line that is longer than 40 bytes, the first 40.
#[derive(Clone, Copy)]
pub struct Gather {
    bytes: Result<FewBytes<40>, FewBytes<40>>,
}

impl Model for Gather {
    ghost use Rattle.std.specs.Prelude.{ℕ, Result, List};

    ghost Value = { Result (List ℕ) (List ℕ) };

    ghost view = { λ g. g.bytes };

    ghost inverse = { λ s. record { bytes = s } };
}

impl Gather {
    // No byte of a line yet.
    #[tactic(auto, unfolding(crate::specs::Gather::nothing_yet))]
    pub fn new() -> Self
        ensures { result ≡ nothing_yet }
    {
        Gather {
            bytes: Ok(FewBytes::new()),
        }
    }

    // One more byte of the line, which is no newline. A byte that finds no room makes the line too long and is dropped; the others stay.
    #[tactic(auto, unfolding(crate::specs::Gather::push_of, rules::specs::Choice::pick))]
    pub fn push(&mut self, b: u8)
        ensures { self.new ≡ push_of self.old b }
    {
        match &mut self.bytes {
            Ok(bytes) if !bytes.is_full() => bytes.push(b),
            Ok(bytes) => self.bytes = Err(*bytes),
            Err(_) => {}
        }
    }

    // The bytes of the line, or, of one that is too long, its first.
    pub fn bytes(&self) -> Result<&[u8], &[u8]>
        ensures { result_map_both (λ s. s.now) (λ s. s.now) result ≡ self.now }
    {
        match &self.bytes {
            Ok(bytes) => Ok(bytes.as_slice()),
            Err(first) => Err(first.as_slice()),
        }
    }

    // What the gathered line asks for.
    #[tactic(auto, unfolding(crate::specs::Gather::line_in))]
    pub fn line(&self) -> Option<Line>
        ensures { result ≡ line_in self.now }
    {
        linetext::parse(self.bytes().ok()?)
    }
}
