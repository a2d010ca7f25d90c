// What a run counts of its steps. `bytes` are those of the pages written that are not erased, `reads` the stored pages that were summed for them.

#[derive(Clone, Copy)]
pub struct Tally {
    pub steps: u32,
    pub writes: u32,
    pub erases: u32,
    pub bytes: u32,
    pub reads: u32,
}
