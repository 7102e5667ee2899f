/// The letter of the bits of the first number.
pub const FIRST: u8 = b'a';

/// The letter of the bits of the second number.
pub const SECOND: u8 = b'b';

/// The letter of the bits of the sum.
pub const SUM: u8 = b's';

/// The letter of the carries.
pub const CARRY: u8 = b'k';

/// The letter of the sum's bits where no carry comes into their block.
pub const SUM_WITHOUT: u8 = b'u';

/// The letter of the carries where none comes into their block.
pub const CARRY_WITHOUT: u8 = b'p';

/// The letter of the sum's bits where a carry comes into their block.
pub const SUM_WITH: u8 = b'w';

/// The letter of the carries where one comes into their block.
pub const CARRY_WITH: u8 = b'q';
