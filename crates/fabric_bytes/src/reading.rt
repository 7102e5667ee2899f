//! From bytes to a configuration.

ghost use Rattle.std.specs.Prelude.{◌≡◌, ◌+◌, ◌*◌, ◌<◌, length, IfOk};
ghost use Rattle.text_defs.specs.Memory.{OrMemory};
ghost use Rattle.fabric_defs.specs.Configurations.{ConfigOf};
ghost use Rattle.fabric_defs.specs.Spelling.{word_at, words_in, bytes_of};
ghost use Rattle.fabric_defs.specs.declared.faults.ConfigError.TheVariants.{NoMemory};

use byteorder::{BigEndian, ByteOrder};
use fabric::{Config, ConfigError, Geometry};
use std::alloc::{AllocError, Global};

/// Word `j` of the bytes.
fn word_at(b: &[u8], j: usize) -> u16
    requires { 2 * j + 1 < length b.now }
    ensures { result ≡ word_at b.now j }
{
    let rest = &b[2 * j..];
    BigEndian::read_u16(rest)
}

/// The words that the bytes spell.
fn read_words(alloc: Global, b: &[u8]) -> Result<Vec<u16>, AllocError>
    ensures { IfOk result (λ words. words.items ≡ words_in b.now) }
{
    let count = b.len() / 2;
    let mut words = Vec::with_capacity(alloc, count)?;
    for j in 0..count {
        words.push(word_at(b, j))?;
    }
    Ok(words)
}

/// The configuration that the bytes spell, or their first fault: `Length` where there aren't as
/// many bytes as the geometry wants; else `Selector` with the place of the first word out of its
/// range; and `NoMemory` where memory was wanting.
pub fn read_config(alloc: Global, g: Geometry, b: &[u8]) -> Result<Config, ConfigError>
    ensures exact { OrMemory NoMemory (ConfigOf g (length b.now) (words_in b.now)) result }
    ensures printed_again { IfOk result (λ config. bytes_of config.words ≡ b.now) }
{
    let want = 2 * u64::from(g.words());
    let found = b.len() as u64;
    if found != want {
        return Err(ConfigError::Length { want, found });
    }
    let words = read_words(alloc, b)?;
    Config::new(g, words)
}
