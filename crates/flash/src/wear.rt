// How often each block was erased, and which the most. The record goes into a call by value and comes back with its answer.
ghost use Rattle.std.specs.Prelude.{◌≡◌, ◌<◌};
ghost use Rattle.flash.specs.Wear.{raised, replaces, risen, refreshed, unworn};
ghost use Rattle.flash.specs.inner.Unpaired.{unpaired};

// The spare and the most data blocks.
pub const BLOCKS: usize = 65;

// A counter for each of blocks 0 to 64; the count of the most worn block and the lowest such block. The two may be wrong: `refresh` makes them
// afresh.
#[derive(Clone, Copy)]
pub struct Wear {
    pub counters: [u32; BLOCKS],
    pub highest: u32,
    pub block: u8,
}

// One erase more; a counter that has come to its end stays there.
fn raised(counter: u32) -> u32
    ensures { result ≡ raised counter }
{
    counter.saturating_add(1)
}

// Whether the count of a block takes the place of the pair that is kept.
fn replaces(highest: u32, kept: u8, count: u32, block: u8) -> bool
    ensures { result ≡ replaces highest kept count block }
{
    (highest < count) | ((count == highest) & (block < kept))
}

// The highest count. The block that has it is looked for by itself, as vectors take a loop for the count alone.
fn highest_of(counters: &[u32; BLOCKS]) -> u32
    ensures { result ≡ (refreshed (unpaired counters.now)).highest }
{
    let mut highest = 0u32;
    for count in counters {
        highest = highest.max(*count);
    }
    highest
}

// The lowest block that has the highest count.
fn lowest_with(counters: &[u32; BLOCKS], highest: u32) -> u8
    requires { highest ≡ (refreshed (unpaired counters.now)).highest }
    ensures { result ≡ (refreshed (unpaired counters.now)).block }
{
    for (block, count) in counters.iter().enumerate() {
        if *count == highest {
            return block as u8;
        }
    }
    0
}

impl Wear {
    // No block was erased.
    pub fn unworn() -> Wear
        ensures { result ≡ unworn }
    {
        Wear {
            counters: [0; BLOCKS],
            highest: 0,
            block: 0,
        }
    }

    // One erase of a block more: its counter is raised in place, and the pair is kept without a look at the others. A record by value would be
    // copied for it.
    pub fn rise(&mut self, block: usize)
        requires { block < 65 }
        ensures { self.new ≡ risen block self.old }
    {
        let count = raised(self.counters[block]);
        self.counters[block] = count;
        let named = block as u8;
        if replaces(self.highest, self.block, count, named) {
            self.highest = count;
            self.block = named;
        }
    }

    // The pair made afresh from all counters.
    pub fn refresh(mut self) -> Wear
        ensures { result ≡ refreshed self }
    {
        let counters = self.counters;
        let highest = highest_of(&counters);
        self.highest = highest;
        self.block = lowest_with(&counters, highest);
        self
    }
}
