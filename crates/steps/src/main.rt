// The step program: standard input is read, answered and the answer written. With the argument `--originals` it is answered in the second form.

#![tactic(auto)]

ghost use Rattle.std.specs.Prelude.{◌≤◌, length, IfOk};

use std::env::Env;
use std::io;
use std::io::{Input, Print, Read};
use steplist::answer::{MOST_OUTPUT, answer};
use steplist::word::asks_originals;

// One byte more than is allowed, so that longer input is known from input of the largest length.
const MOST_INPUT: usize = 4097;

// One byte more than the word has, so that a longer argument is known from it.
const MOST_WORD: usize = 12;

// Whether the first argument asks for the second form. One that is missing, or longer than the array, counts as empty.
fn by_originals<R: Env>(rt: &R) -> bool {
    let mut word = [0u8; MOST_WORD];
    match rt.arg(1, &mut word) {
        Ok(count) => asks_originals(&word[..count]),
        Err(_) => asks_originals(&[]),
    }
}

// Reads on until the array is full or the input ends, and gives the number of bytes.
fn read_full<R: Input>(rt: &R, input: &mut [u8]) -> io::Result<usize>
    ensures { IfOk result (λ n. n ≤ length input.new) }
{
    let mut reader = rt.reader();
    let mut got = 0;
    // Each turn goes on by as many bytes as the input had to give.
    while got < input.len() {
        let more = reader.read(&mut input[got..])?;
        if more == 0 {
            break;
        }
        got += more;
    }
    Ok(got)
}

fn main(rt: HostRuntime) -> io::Result<()> {
    let mut input = [0u8; MOST_INPUT];
    let got = read_full(&rt, &mut input)?;
    let mut out = [0u8; MOST_OUTPUT];
    let end = answer(by_originals(&rt), &mut input[..got], &mut out);
    rt.write_all(&out[..end])
}
