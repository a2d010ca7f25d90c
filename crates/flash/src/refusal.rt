// Why a call is refused. `number_of` in specs/ lists the number of each case, as the table of refusals has it.
ghost use Rattle.std.specs.Prelude.{◌≡◌};
ghost use Rattle.flash.specs.Refusals.{number_of};

#[derive(Clone, Copy)]
pub enum Refusal {
    BadSizes,
    BadLength,
    BadList,
    BadSplit,
    BadPlace,
    BadMarks,
    BadOriginal,
    BadRecord,
    BadAddress,
    BadText,
    BadPins,
    BadWear,
    BadLine,
    BadWrite,
    LostOriginal,
    BadBlocks,
    BadOrder,
}

impl Refusal {
    pub fn number(self) -> u32
        ensures { result ≡ number_of self }
    {
        match self {
            Refusal::BadSizes => 1,
            Refusal::BadLength => 2,
            Refusal::BadList => 3,
            Refusal::BadSplit => 4,
            Refusal::BadPlace => 5,
            Refusal::BadMarks => 6,
            Refusal::BadOriginal => 7,
            Refusal::BadRecord => 8,
            Refusal::BadAddress => 9,
            Refusal::BadText => 10,
            Refusal::BadPins => 11,
            Refusal::BadWear => 12,
            Refusal::BadLine => 13,
            Refusal::BadWrite => 14,
            Refusal::LostOriginal => 15,
            Refusal::BadBlocks => 16,
            Refusal::BadOrder => 17,
        }
    }
}
