//! Reading and writing all of a file, piece by piece.

ghost use Rattle.std.specs.Prelude.{◌≤◌, IfOk, vec_len};

use crate::store::LoadFail;
use std::alloc::Global;
use std::io;
use std::io::{ErrorKind, Read, Write};

/// How many bytes are read at once.
const PIECE: usize = 65_536;

/// Reads to the end, or until more than `max` bytes were read.
pub fn read_whole<F: Read>(alloc: Global, file: &mut F, max: u64) -> Result<Vec<u8>, LoadFail>
    ensures { IfOk result (λ bytes. vec_len bytes ≤ max) }
{
    let mut bytes = Vec::new(alloc);
    let mut piece = [0u8; PIECE];
    for _ in 0..u64::MAX {
        match file.read(&mut piece) {
            Ok(0) => return Ok(bytes),
            Ok(n) if n as u64 > max - bytes.len() as u64 => return Err(LoadFail::TooLong),
            Ok(n) => bytes.extend_from_slice(&piece[..n])?,
            Err(_) => return Err(LoadFail::Failed),
        }
    }
    Err(LoadFail::Failed)
}

/// Writes all bytes. A write that takes nothing of a piece that isn't empty is a failure.
pub fn write_whole<F: Write>(file: &mut F, bytes: &[u8]) -> io::Result<()> {
    let mut rest = bytes;
    while !rest.is_empty() {
        let written = file.write(rest)?;
        if written == 0 {
            return Err(io::Error::from(ErrorKind::WriteZero));
        }
        rest = &rest[written..];
    }
    Ok(())
}
