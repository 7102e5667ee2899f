ghost use Rattle.std.specs.Prelude.{◌≡◌, ◌+◌, ◌^◌, ◌<◌, ◌≤◌, ◌↔◌, length, IsTrue, IsSome, IfSome, IfOk, IfErr, Err};
ghost use Rattle.fabric_defs.specs.Geometries.{IsGeometry};
ghost use Rattle.fabric_defs.specs.declared.kind.CellKind.TheVariants.{FourInputs};
ghost use Rattle.bundle_defs.specs.Bundles.{kind_of_version};
ghost use Rattle.bundle_defs.specs.Faults.{HasVersion, HasHead, HasItsLength, HasItsDigest, BundleOf, number_at, version_in, geometry_in, config_length};
ghost use Rattle.fabric.specs.Geometry.{of_kind};
ghost use Rattle.bundle.specs.Values.{GivesBundle};

use crate::layout::{DIGEST_BYTES, HEAD_BYTES, LAST_VERSION, LENGTH_BYTES, SIX_INPUTS_VERSION};
use crate::value::Bundle;
use bundle_defs::BundleError;
use byteorder::{BigEndian, ByteOrder};
use fabric::Geometry;
use sha2::{Digest, Sha256};

/// The bundle of the bytes, or their first fault: `Magic` where they don't begin with `PCHB`;
/// `Lengths` where there is no whole version; `Version`; `Lengths` where there is no whole geometry;
/// `Geometry`; `Lengths` where there aren't exactly as many bytes as both lengths demand; `Digest`.
/// Takes no memory: the parts are those of the bytes.
pub fn read_bundle(b: &[u8]) -> Result<Bundle<'_>, BundleError>
    ensures { GivesBundle b.now result }
{
    let version = read_version(b)?;
    let geometry = read_geometry(b, version)?;
    let Some(place) = trace_length_place(b) else {
        return Err(BundleError::Lengths);
    };
    if !has_its_digest(b) {
        return Err(BundleError::Digest);
    }
    let digest_place = b.len() - DIGEST_BYTES;
    Ok(Bundle {
        version,
        geometry,
        config: &b[HEAD_BYTES..place],
        trace: &b[place + LENGTH_BYTES..digest_place],
    })
}

/// The version, or the first fault up to it.
fn read_version(b: &[u8]) -> Result<u16, BundleError>
    ensures version { IfOk result (λ version. HasVersion b.now × (version ≡ version_in b.now)) }
    ensures fault { IfErr result (λ e. BundleOf b.now (Err e)) }
{
    if !b.starts_with(b"PCHB") {
        return Err(BundleError::Magic);
    }
    if b.len() < 6 {
        return Err(BundleError::Lengths);
    }
    let found = small_number_at(b, 4);
    if 1 <= found && found <= LAST_VERSION {
        Ok(found)
    } else {
        Err(BundleError::Version {
            found: u32::from(found),
        })
    }
}

/// The geometry behind the version, or the first fault up to it.
fn read_geometry(b: &[u8], version: u16) -> Result<Geometry, BundleError>
    requires start { HasVersion b.now }
    requires version { version ≡ version_in b.now }
    ensures head { IfOk result (λ g. HasHead b.now × (g ≡ geometry_in b.now)) }
    ensures fault { IfErr result (λ e. BundleOf b.now (Err e)) }
{
    if b.len() < 16 {
        return Err(BundleError::Lengths);
    }
    geometry_at(b, version).ok_or(BundleError::Geometry)
}

/// The geometry whose numbers stand behind the version, if they are within their limits.
fn geometry_at(b: &[u8], version: u16) -> Option<Geometry>
    requires whole { 16 ≤ length b.now }
    requires version { version ≡ version_in b.now }
    ensures some { IsSome result ↔ IsGeometry (geometry_in b.now) }
    ensures value { IfSome result (λ g. g ≡ geometry_in b.now) }
{
    let geometry = Geometry::new(
        u32::from(small_number_at(b, 6)),
        u32::from(small_number_at(b, 8)),
        u32::from(small_number_at(b, 10)),
        u32::from(small_number_at(b, 12)),
        u32::from(small_number_at(b, 14)),
    )?;
    Some(with_kind(geometry, version))
}

/// The geometry of cells of four inputs, with the kind that the version tells.
fn with_kind(geometry: Geometry, version: u16) -> Geometry
    requires { geometry.kind ≡ FourInputs }
    ensures { result ≡ of_kind (kind_of_version version) geometry }
{
    if version == SIX_INPUTS_VERSION {
        geometry.six()
    } else {
        geometry
    }
}

/// Where the trace's length stands, if there are exactly as many bytes as both lengths demand.
fn trace_length_place(b: &[u8]) -> Option<usize>
    ensures some { IsSome result ↔ HasItsLength b.now }
    ensures value { IfSome result (λ place. place ≡ 20 + config_length b.now) }
{
    let free = b
        .len()
        .checked_sub(HEAD_BYTES + LENGTH_BYTES + DIGEST_BYTES)?;
    let config = length_at(b, HEAD_BYTES - LENGTH_BYTES);
    if free < config {
        return None;
    }
    let place = HEAD_BYTES + config;
    if free - config == length_at(b, place) {
        Some(place)
    } else {
        None
    }
}

/// Whether the last bytes are the digest of all before.
fn has_its_digest(b: &[u8]) -> bool
    requires { 32 ≤ length b.now }
    ensures { IsTrue result ↔ HasItsDigest b.now }
{
    let (body, digest) = b.split_at(b.len() - DIGEST_BYTES);
    Sha256::digest(body).as_slice() == digest
}

/// The number of two bytes at a place.
fn small_number_at(b: &[u8], place: usize) -> u16
    requires { place + 2 ≤ length b.now }
    ensures { result ≡ number_at place 2 b.now }
{
    BigEndian::read_u16(&b[place..])
}

/// The number of four bytes at a place.
fn length_at(b: &[u8], place: usize) -> usize
    requires { place + 4 ≤ length b.now }
    ensures within { result < 2 ^ 32 }
    ensures value { result ≡ number_at place 4 b.now }
{
    BigEndian::read_u32(&b[place..]) as usize
}
