// Read: an original page, also in mid-move and between a cut and the recovery.
ghost use Rattle.std.specs.Prelude.{◌≡◌};
ghost use Rattle.flash.specs.Refusals.{number_in};
ghost use Rattle.split.specs.Drops.{list_left};
ghost use Rattle.split.specs.Request.{request_of};
ghost use Rattle.method.specs.Answers.{read_answer};
ghost use Rattle.mover.specs.Answers.{read_as};

use crate::refusals::move_refusal;
use flash::refusal::Refusal;
use flash::sizes::Sizes;
use flash::totals::total_to_page;
use method::accepted::Accepted;
use recovery::marks::{MarksRead, read_marks};
use split::drops::MASKS;
use walk::moment::moment_in;
use walk::rows::TABLE;
use walk::terms::read_terms;
use walk::walk::SLOTS;

// How many stored pages were summed, and how many bytes of the sum are not erased.
#[derive(Clone, Copy)]
pub struct Summed {
    pub count: u32,
    pub bytes: u32,
}

// Read: checks in the table's order, then the sum. A refused read changes nothing that is lent but the list, which is completed once it is judged.
pub fn read(
    sizes: Sizes,
    list: &mut [u16],
    pins: &[u8],
    sets: &[u8],
    store: &[u8],
    marks: &[u8],
    work: &mut [u8],
    k: usize,
) -> Result<Summed, Refusal>
    ensures work_after { read_as result work.new
        ≡ read_answer (request_of sizes list.old pins.now sets.now)
        (record { store = store.entry.now; marks = marks.now }) work.old k }
    ensures list_after { list.new ≡ list_left (number_in result) list.old }
{
    let mut table = [0u8; TABLE];
    let mut drops = [0u64; MASKS];
    let mut places = [0u64; MASKS];
    move_refusal(
        sizes,
        list,
        pins,
        sets,
        store,
        marks,
        work,
        &mut table,
        &mut drops,
        &mut places,
    )?;
    let n = sizes.n;
    let moment = match read_marks(sizes, marks) {
        MarksRead::NoMoment => return Err(Refusal::BadMarks),
        MarksRead::Full { backward, change } => moment_in(backward, n, change, change),
        MarksRead::Torn { backward, block } => moment_in(backward, n, block, block + 1),
    };
    if sizes.original_count() <= k {
        return Err(Refusal::BadOriginal);
    }
    let mut slots = [0usize; SLOTS];
    let moved = Accepted { sizes, list, sets };
    let terms = read_terms(moved, &drops, moment, k, &mut slots);
    let bytes = total_to_page(store, sizes.p, &slots[..terms.count], terms.filler, work) as u32;
    let count = terms.count as u32;
    Ok(Summed { count, bytes })
}
