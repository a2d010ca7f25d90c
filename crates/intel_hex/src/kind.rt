// The types of records. `code_of` in specs/ lists the byte of each.
ghost use Rattle.std.specs.Prelude.{◌≡◌};
ghost use Rattle.intel_hex.specs.inner.Kinds.{code_of};

#[derive(Clone, Copy)]
pub enum Kind {
    Data,
    End,
    Upper,
}

impl Kind {
    pub fn code(self) -> u8
        ensures { result ≡ code_of self }
    {
        match self {
            Kind::Data => 0,
            Kind::End => 1,
            Kind::Upper => 4,
        }
    }
}
