// Reads text lines from standard input and prints each as TAI with prefix and microseconds, or as its refusal. What is printed for
// a block is said and proved in `lines`; here bytes are only moved.
#![tactic(auto)]

ghost use Rattle.std.specs.Prelude.{◌≤◌, length, IfOk};

use std::env::{Env, FillError};
use std::io::{ErrorKind, Read, Write};
use std::{fmt, io, str};

// A call of the system's that failed.
#[derive(Clone, Copy)]
enum Failure {
    Read(io::Error),
    Write(io::Error),
}

// In the system's words, without the number that std puts behind them.
impl fmt::Display for Failure {
    fn fmt<W: fmt::Write>(&self, f: &mut fmt::Formatter<W>) -> fmt::Result {
        let (call, error) = match self {
            Failure::Read(error) => ("read", error),
            Failure::Write(error) => ("write", error),
        };
        let mut text = [0u8; 128];
        let mut room = &mut text[..];
        let _ = write!(room, "{error}");
        let told = str::from_utf8(&text).unwrap_or("").trim_end_matches('\0');
        let why = told
            .split_once(" (os error ")
            .map_or(told, |(words, _)| words);
        write!(f, "{call}: {why}")
    }
}

// How many bytes were dated and their answers written.
fn print<R: Print>(rt: &R, part: &[u8], out: &mut [u8]) -> Result<usize, Failure>
    ensures { IfOk result (λ dated. dated ≤ length part.now) }
{
    let p = lines::date_lines(part, out);
    let written = p.written;
    rt.write_all(&out[..written]).map_err(Failure::Write)?;
    Ok(p.consumed)
}

// All whole lines of a part, as many at a time as find room: how many bytes these are.
fn print_all<R: Print>(rt: &R, part: &[u8], out: &mut [u8]) -> Result<usize, Failure> {
    let mut dated = 0;
    while dated < part.len() {
        let more = print(rt, &part[dated..], out)?;
        if more == 0 {
            break;
        }
        dated += more;
    }
    Ok(dated)
}

// What is read, and how many bytes of a line that has begun are kept at its front.
#[derive(Drop)]
struct Block {
    bytes: [u8; 65536],
    kept: usize,
    ghost few: { kept ≤ 32 },
}

impl Block {
    // Prints the whole lines of the first n bytes, and keeps the line that has begun behind them.
    fn print_lines<R: Print>(&mut self, rt: &R, n: usize, out: &mut [u8]) -> Result<(), Failure>
        requires { n ≤ 65536 }
    {
        let dated = print_all(rt, &self.bytes[..n], out)?;
        self.kept = lines::keep(&mut self.bytes, dated, n);
        Ok(())
    }

    // A last line without a newline counts.
    fn end<R: Print>(&mut self, rt: &R, out: &mut [u8]) -> Result<(), Failure> {
        let kept = self.kept;
        if 0 < kept {
            self.bytes[kept] = b'\n';
            self.print_lines(rt, kept + 1, out)?;
        }
        Ok(())
    }

    // Reads behind the bytes that were kept: whether the input goes on.
    fn read<R: Print, I: Read>(
        &mut self,
        rt: &R,
        input: &mut I,
        out: &mut [u8],
    ) -> Result<bool, Failure> {
        let kept = self.kept;
        match input.read(&mut self.bytes[kept..]) {
            Ok(0) => {
                self.end(rt, out)?;
                Ok(false)
            }
            Ok(got) => {
                self.print_lines(rt, kept + got, out)?;
                Ok(true)
            }
            // A signal came before any byte did.
            Err(error) if error.kind() == ErrorKind::Interrupted => Ok(true),
            Err(error) => Err(Failure::Read(error)),
        }
    }
}

// A proved loop has to end: the turns count up to a number that no run comes to.
fn run<R: Print, I: Read>(
    rt: &R,
    input: &mut I,
    block: &mut Block,
    out: &mut [u8],
) -> Result<(), Failure> {
    for _ in 0..u64::MAX {
        if !block.read(rt, input, out)? {
            break;
        }
    }
    Ok(())
}

// Whether the program was started with a word behind its name.
fn has_argument(rt: &HostRuntime) -> bool {
    !matches!(rt.arg(1, &mut [0u8; 1]), Err(FillError::NotPresent))
}

fn main(rt: HostRuntime) {
    if has_argument(&rt) {
        let _ = eprintln!(rt; "usage: desk < LINES (it takes no arguments)");
        return;
    }
    let mut block = Block {
        bytes: [0; 65536],
        kept: 0,
    };
    let mut out = [0u8; 65536];
    if let Err(failure) = run(&rt, &mut rt.stdin(), &mut block, &mut out) {
        let _ = eprintln!(rt; "desk: {failure}");
    }
}
