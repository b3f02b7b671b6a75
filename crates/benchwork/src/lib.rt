// The bench program's work, from bytes of input to bytes of output; reading and writing are left to the program.
#![tactic(auto)]

ghost use Rattle.std.specs.Prelude.{◌≡◌};
ghost use Rattle.benchwork.specs.Bytes.{fresh_progress, stepped, ended};

use gathering::Gather;
use rowtext::Text;
use rules::Size;
use tally::Bench;

// The bench amid its input: the bytes of a line are gathered until the line ends.
#[derive(Clone, Copy)]
pub struct Progress {
    pub bench: Bench,
    pub gather: Gather,
}

impl Progress {
    // The bench before its first byte, with a fresh unit of either size.
    #[tactic(auto, unfolding(crate::specs::Bytes::fresh_progress, crate::specs::Whole::fresh_bench))]
    pub fn start(size: Size) -> Self
        ensures { result ≡ fresh_progress size }
    {
        let bench = Bench {
            unit: unit::fresh(size),
            calls: 0,
            lines: 0,
        };
        Progress {
            bench,
            gather: Gather::new(),
        }
    }

    // One byte of the input, and what it prints. A newline ends a line, and the line is done.
    #[tactic(auto, unfolding(crate::specs::Bytes::stepped, crate::specs::Bytes::line_ended, rules::specs::Choice::pick, crate::specs::Bytes::byte_added))]
    pub fn step(&mut self, m: &mut [u8], byte: u8) -> Text
        ensures progress { self.new ≡ (stepped m.old self.old byte).progress }
        ensures memory { m.new ≡ (stepped m.old self.old byte).memory }
        ensures text { result ≡ (stepped m.old self.old byte).prints }
    {
        if byte != b'\n' {
            self.gather.push(byte);
            return Text::new();
        }
        let asks = self.gather.line();
        self.gather = Gather::new();
        benchline::line(&mut self.bench, m, asks)
    }

    // The end of the input: "a last line without a newline is a line", if it has a byte.
    #[tactic(auto, unfolding(crate::specs::Bytes::ended, gathering::specs::Gather::is_nothing, rules::specs::Choice::pick))]
    pub fn end(mut self, m: &mut [u8]) -> Text
        ensures { result ≡ ended m.old self }
    {
        match self.gather.bytes() {
            Ok([]) => Text::new(),
            _ => benchline::line(&mut self.bench, m, self.gather.line()),
        }
    }
}
