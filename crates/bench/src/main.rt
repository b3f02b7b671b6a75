// The bench program: reads lines from standard input to its end, and prints what each call of the unit answers.
// The work is that of `arguments` and `benchwork`; here is only what no contract can speak of, reading and writing.
#![tactic(auto)]

use arguments::ArgumentError;
use benchwork::Progress;
use rules::Size;
use std::env::{Env, FillError};
use std::fmt::{Display, Formatter};
use std::io::{Read, Write};
use std::{fmt, io};

// What ends the work before the input does, or before it begins. (What it prints is written out: the crates are written over std alone.)
#[derive(Drop)]
enum Failure {
    Arguments(ArgumentError),
    Input(io::Error),
    Output(io::Error),
}

impl From<ArgumentError> for Failure {
    fn from(error: ArgumentError) -> Self {
        Failure::Arguments(error)
    }
}

impl Display for Failure {
    fn fmt<W: fmt::Write>(&self, f: &mut Formatter<W>) -> fmt::Result {
        match self {
            Failure::Arguments(e) => write!(f, "{e}"),
            Failure::Input(e) => writeln!(f, "bench: standard input cannot be read: {e}"),
            Failure::Output(e) => writeln!(f, "bench: standard output cannot be written: {e}"),
        }
    }
}

fn print<W: Write>(output: &mut W, bytes: &[u8]) -> Result<(), Failure> {
    output.write_all(bytes).map_err(Failure::Output)
}

// The bytes of one read, one after the other, until a row cannot be written.
fn feed<W: Write>(
    output: &mut W,
    progress: &mut Progress,
    m: &mut [u8],
    input: &[u8],
) -> Result<(), Failure> {
    for byte in input {
        print(output, progress.step(m, *byte).as_slice())?;
    }
    Ok(())
}

// The count of turns only shows that the loop ends: no input is that long.
fn run<R: Read, W: Write>(
    input: &mut R,
    output: &mut W,
    size: Size,
    m: &mut [u8],
) -> Result<(), Failure> {
    let mut buffer = [0u8; 65536];
    let mut progress = Progress::start(size);
    for _ in 0..u64::MAX {
        let n = input.read(&mut buffer).map_err(Failure::Input)?;
        if n == 0 {
            return print(output, progress.end(m).as_slice());
        }
        feed(output, &mut progress, m, &buffer[..n])?;
    }
    Ok(())
}

// An argument of the program. One that is not there, or is longer than the bytes lent for it, reads as an empty one: it is
// no option and no count either.
fn argument(rt: HostRuntime, i: usize, bytes: &mut [u8]) -> &[u8] {
    let n = rt.arg(i, bytes).unwrap_or(0);
    &bytes[..n]
}

// How many words the program was started with, its own name among them.
fn word_count(rt: HostRuntime) -> usize {
    let mut bytes = [0u8; 16];
    for i in 0..usize::MAX {
        if let Err(FillError::NotPresent) = rt.arg(i, &mut bytes) {
            return i;
        }
    }
    usize::MAX
}

// The whole output of the whole input. A unit that is not made is told before anything is read or printed.
fn work(rt: HostRuntime) -> Result<(), Failure> {
    let mut option = [0u8; 16];
    let mut count = [0u8; 16];
    let option = argument(rt, 1, &mut option);
    let count = argument(rt, 2, &mut count);
    let size = arguments::asked_for(word_count(rt), option, count)?;
    let mut memory = [0u8; 65536];
    let mut output = rt.stdout();
    print(&mut output, rowtext::header())?;
    run(&mut rt.stdin(), &mut output, size, &mut memory)
}

fn main(rt: HostRuntime) {
    if let Err(failure) = work(rt) {
        // What standard error does not take is told nowhere.
        let _ = eprint!(rt; "{failure}");
    }
}
