// The run call for C.

ghost use Rattle.std.specs.Prelude.{◌≡◌};
ghost use Rattle.c_api.specs.Exports.{ran_bytes, run_of_bytes};

use crate::list::{MOST_ENTRIES, decode};
use crate::sizes::{bad_length, sizes_of};
use crate::wear::{WEAR, decode_wear, encode_wear};
use flash::refusal::Refusal;
use flash::sizes::Sizes;
use mover::run::{Ran, run};

// The run on the list and the counters that bytes spell.
fn run_bytes(
    sizes: Sizes,
    list: &[u8],
    pins: &[u8],
    sets: &[u8],
    store: &mut [u8],
    marks: &mut [u8],
    work: &mut [u8],
    wear: &mut [u8],
    place: usize,
    budget: u32,
    limit: u32,
) -> Result<Ran, Refusal>
    ensures { ran_bytes result store.exit.now marks.new work.new wear.new
        ≡ run_of_bytes sizes list.now pins.now sets.now
        (record { store = store.entry.now; marks = marks.old }) work.old wear.old place budget limit }
{
    if wear.len() != WEAR {
        return Err(bad_length(sizes));
    }
    let mut entries = [0u16; MOST_ENTRIES];
    let count = decode(list, &mut entries);
    let ran = run(
        sizes,
        &mut entries[..count],
        pins,
        sets,
        store,
        marks,
        work,
        decode_wear(wear),
        place,
        budget,
        limit,
    );
    let taken = ran.outcome?;
    encode_wear(ran.wear, wear);
    Ok(taken)
}

#[unsafe(no_mangle)]
pub extern "C" fn mover_run(
    n: u32,
    m: u32,
    p: u32,
    s: u32,
    list: &[u8],
    pins: &[u8],
    sets: &[u8],
    store: &mut [u8],
    marks: &mut [u8],
    work: &mut [u8],
    wear: &mut [u8],
    place: u32,
    budget: u32,
    limit: u32,
    reached: &mut u32,
    steps: &mut u32,
    writes: &mut u32,
    erases: &mut u32,
    finished: &mut u32,
    bytes: &mut u32,
    reads: &mut u32,
) -> u32
    ensures { record {
      number = result;
      place = reached.new;
      tally = record {
        steps = steps.exit.now;
        writes = writes.new;
        erases = erases.new;
        bytes = bytes.new;
        reads = reads.new;
      };
      finished = finished.new;
      chip = record { store = store.exit.now; marks = marks.new };
      work = work.new;
      wear = wear.new;
    } ≡ run_of_bytes (record { n = n; m = m; p = p; s = s }) list.now pins.now sets.now
        (record { store = store.entry.now; marks = marks.old }) work.old wear.old place budget limit }
{
    let outcome = run_bytes(
        sizes_of(n, m, p, s),
        list,
        pins,
        sets,
        store,
        marks,
        work,
        wear,
        place as usize,
        budget,
        limit,
    );
    match outcome {
        Ok(ran) => {
            *reached = ran.place;
            *steps = ran.tally.steps;
            *writes = ran.tally.writes;
            *erases = ran.tally.erases;
            *finished = u32::from(ran.finished);
            *bytes = ran.tally.bytes;
            *reads = ran.tally.reads;
            0
        }
        Err(refusal) => {
            *reached = 0;
            *steps = 0;
            *writes = 0;
            *erases = 0;
            *finished = 0;
            *bytes = 0;
            *reads = 0;
            refusal.number()
        }
    }
}
