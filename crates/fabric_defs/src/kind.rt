ghost use Rattle.std.specs.Prelude.{◌≡◌, ◌+◌, ◌≤◌};
ghost use Rattle.fabric_defs.specs.Kinds.{kind_number, pins_of, table_words_of};
ghost use Rattle.fabric_defs.specs.declared.limits.TheConstants.{MAX_PINS, MAX_CELL_WORDS};

/// The kind of a fabric's cells: how many inputs each has. All that a configuration of the fabric
/// has to say of a cell follows from it.
#[derive(Clone, Copy, Debug, PartialEq, Eq)]
pub enum CellKind {
    /// Kind 1: cells of four inputs.
    FourInputs,
    /// Kind 2: cells of six inputs.
    SixInputs,
}

impl CellKind {
    /// The number by which formats call this kind.
    pub fn number(self) -> u32
        ensures { result ≡ kind_number self }
    {
        match self {
            CellKind::FourInputs => 1,
            CellKind::SixInputs => 2,
        }
    }

    /// How many pins a cell has.
    pub fn pins(self) -> u32
        ensures count { result ≡ pins_of self }
        ensures small { result ≤ MAX_PINS }
    {
        match self {
            CellKind::FourInputs => 4,
            CellKind::SixInputs => 6,
        }
    }

    /// How many words the table of a cell has: one bit for each list of bits at its pins.
    pub fn table_words(self) -> u32
        ensures count { result ≡ table_words_of self }
        ensures small { pins_of self + result ≤ MAX_CELL_WORDS }
    {
        match self {
            CellKind::FourInputs => 1,
            CellKind::SixInputs => 4,
        }
    }
}
