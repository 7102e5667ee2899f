ghost use Rattle.std.specs.Prelude.{◌≡◌, ◌+◌, ◌^◌, ◌<◌, ◌++◌, length, IfOk, OnOk};
ghost use Rattle.byteorder.specs.Endian.{big_bytes};
ghost use Rattle.sha2.specs.Sha256.{sha256};
ghost use Rattle.bundle_defs.specs.Bundles.{IsVersion, kind_of_version, body, bundle_bytes, geometry_bytes};

use crate::layout::{DIGEST_BYTES, HEAD_BYTES, LENGTH_BYTES};
use byteorder::{BigEndian, ByteOrder};
use fabric::Geometry;
use pch_base::NoMemory;
use sha2::{Digest, Sha256};
use std::alloc::Global;

/// The bytes of the bundle of these parts. The version is 1, 2 or 3, and 3 exactly where the cells of the
/// geometry have six inputs. Each part has fewer than 2^32 bytes.
pub fn print_bundle(
    alloc: Global,
    version: u16,
    g: Geometry,
    config: &[u8],
    trace: &[u8],
) -> Result<Vec<u8>, NoMemory>
    requires version { IsVersion version }
    requires kind { g.kind ≡ kind_of_version version }
    requires config { length config.now < 2 ^ 32 }
    requires trace { length trace.now < 2 ^ 32 }
    ensures { IfOk result (λ v. v.items
        ≡ bundle_bytes (record {
          version = version;
          geometry = g;
          config = config.now;
          trace = trace.now;
        })) }
{
    let length = HEAD_BYTES + config.len() + LENGTH_BYTES + trace.len() + DIGEST_BYTES;
    let mut out = Vec::with_capacity(alloc, length)?;
    out.extend_from_slice(b"PCHB")?;
    append_small_number(&mut out, version)?;
    append_geometry(&mut out, g)?;
    append_part(&mut out, config)?;
    append_part(&mut out, trace)?;
    append_digest(&mut out)?;
    Ok(out)
}

/// Appends the numbers of a geometry.
fn append_geometry(out: &mut Vec<u8>, g: Geometry) -> Result<(), NoMemory>
    ensures { OnOk result (out.new.items ≡ out.old.items ++ geometry_bytes g) }
{
    append_small_number(out, g.c() as u16)?;
    append_small_number(out, g.r() as u16)?;
    append_small_number(out, g.t() as u16)?;
    append_small_number(out, g.i() as u16)?;
    append_small_number(out, g.o() as u16)
}

/// Appends the length of a part, and the part.
fn append_part(out: &mut Vec<u8>, part: &[u8]) -> Result<(), NoMemory>
    requires { length part.now < 2 ^ 32 }
    ensures { OnOk result (out.new.items
        ≡ out.old.items ++ big_bytes 4 (length part.now) ++ part.now) }
{
    let mut length_bytes = [0; 4];
    BigEndian::write_u32(&mut length_bytes, part.len() as u32);
    out.extend_from_slice(&length_bytes)?;
    out.extend_from_slice(part)?;
    Ok(())
}

/// Appends the digest of all bytes so far.
fn append_digest(out: &mut Vec<u8>) -> Result<(), NoMemory>
    ensures { OnOk result (out.new.items ≡ out.old.items ++ sha256 out.old.items) }
{
    let digest = Sha256::digest(out.as_slice());
    out.extend_from_slice(&digest)?;
    Ok(())
}

/// Appends a number of two bytes.
fn append_small_number(out: &mut Vec<u8>, number: u16) -> Result<(), NoMemory>
    ensures { OnOk result (out.new.items ≡ out.old.items ++ big_bytes 2 number) }
{
    let mut number_bytes = [0; 2];
    BigEndian::write_u16(&mut number_bytes, number);
    out.extend_from_slice(&number_bytes)?;
    Ok(())
}
