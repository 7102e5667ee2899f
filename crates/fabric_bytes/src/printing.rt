//! From a configuration to its bytes.

ghost use Rattle.std.specs.Prelude.{◌≡◌, length, IfOk, Ok};
ghost use Rattle.fabric_defs.specs.Configurations.{ConfigOf};
ghost use Rattle.fabric_defs.specs.Spelling.{words_in, bytes_of};

use byteorder::{BigEndian, ByteOrder};
use fabric::Config;
use pch_base::NoMemory;
use std::alloc::Global;

/// The bytes of the words of a configuration.
pub fn print_config(alloc: Global, config: &Config) -> Result<Vec<u8>, NoMemory>
    ensures bytes { IfOk result (λ b. b.items ≡ bytes_of config.now.words) }
    ensures read_again { IfOk result (λ b. let bytes = length b.items in
        ConfigOf config.now.geometry bytes (words_in b.items) (Ok config.now)) }
{
    let words = config.words();
    let mut bytes = Vec::with_capacity(alloc, 2 * words.len())?;
    for word in words {
        let mut pair = [0; 2];
        BigEndian::write_u16(&mut pair, *word);
        bytes.extend_from_slice(&pair)?;
    }
    Ok(bytes)
}
