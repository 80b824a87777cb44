// Runs the full check on the image that it reads from standard input, and prints its four numbers.
#![tactic(auto)]

ghost use Rattle.std.specs.Prelude.{◌≡◌, ◌<◌, ◌≤◌, length, take, IfOk};
ghost use Rattle.std.specs.Io.KnownBytes.{Consumes, IsAtEnd};
ghost use Rattle.header.specs.Answer.{number};
ghost use Rattle.image.specs.Check.{failed};
ghost use Rattle.fullcheck.specs.Program.{printed, program_of};

use header::options::bench;
use header::refusal::{DONE, Refusal};
use header::state::NO_WRITER_KNOWN;
use image::check::full_check;
use std::io;
use std::io::Read;

// The numbers that are printed.
#[derive(Clone, Copy)]
struct Numbers {
    answer: u32,
    live: u64,
    tombstones: u64,
    probes: u64,
}

// Those of a refusal: all but its own are 0.
fn refused(refusal: Refusal) -> Numbers
    ensures { printed result ≡ failed (number refusal) }
{
    Numbers {
        answer: refusal.number(),
        live: 0,
        tombstones: 0,
        probes: 0,
    }
}

// Those of the full check of the image; 7 where the input was longer than the program holds.
fn checked(image: &[u8], longer: bool) -> Numbers
    ensures { printed result ≡ program_of image.now longer }
{
    if longer {
        return refused(Refusal::InvalidInput);
    }
    match full_check(image, bench(NO_WRITER_KNOWN)) {
        Ok(counts) => Numbers {
            answer: DONE,
            live: counts.live,
            tombstones: counts.tombstones,
            probes: counts.probes,
        },
        Err(refusal) => refused(refusal),
    }
}

// Reads until the buffer is full or the input ends, and returns how many bytes it put at the buffer's start.
fn read_full<R: Read>(input: &mut R, buffer: &mut [u8]) -> io::Result<usize>
    ensures within { IfOk result (λ n. n ≤ length buffer.new) }
    ensures bytes { IfOk result (λ n. Consumes (R.remaining input.old) (R.remaining input.new) (take n buffer.new)) }
    ensures end { IfOk result (λ n. n < length buffer.new → IsAtEnd (R.remaining input.new)) }
{
    let mut done = 0;
    while done < buffer.len() {
        let n = input.read(&mut buffer[done..])?;
        if n == 0 {
            break;
        }
        done += n;
    }
    Ok(done)
}

// Writes a word and a number.
fn print(rt: &impl Print, word: &[u8], n: u64) -> io::Result<()> {
    rt.write_all(word)?;
    rt.print(n)
}

fn main(rt: HostRuntime) -> io::Result<()> {
    let mut input = rt.stdin();
    let mut image = [0u8; 65536];
    let length = read_full(&mut input, &mut image)?;
    let mut more = [0u8; 1];
    let longer = 0 < read_full(&mut input, &mut more)?;
    let numbers = checked(&image[..length], longer);
    print(&rt, b"answer ", u64::from(numbers.answer))?;
    print(&rt, b" live ", numbers.live)?;
    print(&rt, b" tombstones ", numbers.tombstones)?;
    print(&rt, b" probes ", numbers.probes)?;
    rt.write_all(b"\n")
}
