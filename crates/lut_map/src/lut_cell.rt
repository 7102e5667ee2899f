use extract::Source;

/// One cell of a list that is handed in. `lut_cell` gives what contracts see of it.
#[derive(Debug, Drop)]
pub struct LutCell {
    /// Where the pins listen, pin 0 first.
    pub pins: Vec<Source>,
    /// Bit k of it is the output where bit j of the number k is the bit of pin j, whatever the bits of k
    /// past the pins are.
    pub table: u64,
}
