use crate::{print_bundle, read_bundle};
use fabric::Geometry;
use std::alloc::{AllocError, Global};
use std::test::Fail;

/// A bundle's parts, as bytes that stand behind one another.
struct Bytes<'a> {
    /// `PCHB`, the version, a geometry of ones, and the length of the configuration.
    head: [u8; 20],
    config: &'a [u8],
    trace: &'a [u8],
    /// What `sha256sum` answers for all bytes before.
    digest: [u8; 32],
}

/// The bundle of an inverter in a cell of four inputs.
const FOUR_INPUTS: Bytes<'static> = Bytes {
    head: [
        0x50, 0x43, 0x48, 0x42, 0, 1, 0, 1, 0, 1, 0, 1, 0, 1, 0, 1, 0, 0, 0, 0x10,
    ],
    config: &[0, 1, 0, 1, 0, 0, 0, 0, 0, 0, 0x55, 0x55, 0, 2, 0, 1],
    trace: b"1 -1 0 0
2 -2 -4 0 0
3 2 4 0 0
4 -3 4 0 0
5 3 -4 0 0
6 1 2 5 0 0
7 1 -2 -5 0 0
22 3 5 -6 0 0
23 -3 -5 -6 0 0
26 6 0 0
27 2 0 26 23 6 5 3 1 0
28 -2 0 26 22 7 4 2 1 0
29 0 27 28 0
",
    digest: [
        0x6c, 0x6b, 0xa5, 0x77, 0x0e, 0xa7, 0x3c, 0x3c, 0x31, 0xc4, 0xdb, 0x16, 0x38, 0x65, 0xad,
        0x02, 0x8a, 0xff, 0xb3, 0x62, 0x5a, 0x81, 0x74, 0xa7, 0xda, 0x44, 0x20, 0xc8, 0x0f, 0xfb,
        0xc8, 0x7b,
    ],
};

/// The bundle of an inverter in a cell of six inputs.
const SIX_INPUTS: Bytes<'static> = Bytes {
    head: [
        0x50, 0x43, 0x48, 0x42, 0, 3, 0, 1, 0, 1, 0, 1, 0, 1, 0, 1, 0, 0, 0, 0x1a,
    ],
    config: &[
        0, 1, 0, 1, 0, 0, 0, 0, 0, 0, 0, 0, 0, 0, 0x55, 0x55, 0x55, 0x55, 0x55, 0x55, 0x55, 0x55,
        0, 2, 0, 1,
    ],
    trace: b"1 -1 0 0
2 -2 -4 0 0
3 2 4 0 0
4 -3 4 0 0
5 3 -4 0 0
6 1 2 5 0 0
7 1 -2 -5 0 0
70 3 5 -6 0 0
71 -3 -5 -6 0 0
74 6 0 0
75 2 0 74 71 6 5 3 1 0
76 -2 0 74 70 7 4 2 1 0
77 0 75 76 0
",
    digest: [
        0x46, 0x5a, 0x41, 0xff, 0xf3, 0xf4, 0x68, 0xae, 0x72, 0x56, 0xed, 0x81, 0x2c, 0x83, 0x3e,
        0xdd, 0xe2, 0xc7, 0x7a, 0xe8, 0x74, 0x12, 0xe5, 0x31, 0x0d, 0x22, 0xeb, 0xc8, 0xcd, 0xcd,
        0x14, 0x93,
    ],
};

/// All bytes; both traces have 178.
fn joined(alloc: Global, parts: &Bytes<'_>) -> Result<Vec<u8>, AllocError> {
    let mut bytes = parts.head.to_vec(alloc)?;
    bytes.extend_from_slice(parts.config)?;
    bytes.extend_from_slice(&[0, 0, 0, 0xb2])?;
    bytes.extend_from_slice(parts.trace)?;
    bytes.extend_from_slice(&parts.digest)?;
    Ok(bytes)
}

/// Whether the bytes are read as these parts, and these parts are printed as the bytes.
fn is_read_and_printed(
    alloc: Global,
    parts: &Bytes<'_>,
    version: u16,
    g: Geometry,
) -> Result<bool, Fail> {
    let bytes = joined(alloc, parts)?;
    let Ok(bundle) = read_bundle(&bytes) else {
        return Ok(false);
    };
    let is_read = bundle.version == version
        && bundle.geometry == g
        && bundle.config == parts.config
        && bundle.trace == parts.trace;
    let printed = print_bundle(
        alloc,
        bundle.version,
        bundle.geometry,
        bundle.config,
        bundle.trace,
    )?;
    Ok(is_read && printed.as_slice() == bytes.as_slice())
}

#[test]
fn bundles_of_both_kinds_are_read_and_printed(rt: HostRuntime) -> Result<(), Fail> {
    let one = Geometry::new(1, 1, 1, 1, 1).ok_or("a geometry")?;
    assert!(rt; is_read_and_printed(rt.alloc(), &FOUR_INPUTS, 1, one)?);
    assert!(rt; is_read_and_printed(rt.alloc(), &SIX_INPUTS, 3, one.six())?);
    Ok(())
}
