ghost use Rattle.std.specs.Prelude.{◌≡◌, map, IfOk};
ghost use Rattle.std.specs.Option.{option_map};
ghost use Rattle.pch_lines.specs.Files.{files_of, out_of};
ghost use Rattle.pch_lines.specs.Commands.{form_seen, file_seen};

use blif_defs::MAX_BYTES;
use bundle_defs::MAX_BUNDLE_BYTES;
use fabric::Geometry;
use pch_base::NoMemory;
use sat_text_defs::{MAX_CNF_BYTES, MAX_TRACE_BYTES};
use std::alloc::Global;

/// A command with its words.
#[derive(Clone, Copy, Debug)]
pub enum Command<'a> {
    /// `check CNF TRACE`
    Check {
        cnf: &'a str,
        trace: &'a str,
    },
    /// `verify SPEC BUNDLE C R T I O WORKERS`, where `six` may stand in front
    Verify {
        spec: &'a str,
        bundle: &'a str,
        geometry: Geometry,
        workers: u32,
    },
    /// `cnf SPEC BUNDLE`
    Cnf {
        spec: &'a str,
        bundle: &'a str,
    },
    /// `compact BUNDLE OUT`
    Compact {
        bundle: &'a str,
        out: &'a str,
    },
    /// `place DESIGN C R T I O OUT`, where `six` may stand in front
    Place {
        design: &'a str,
        geometry: Geometry,
        out: &'a str,
    },
    /// `produce SPEC DESIGN C R T I O BUDGET OUT`, where `six` may stand in front
    Produce {
        spec: &'a str,
        design: &'a str,
        geometry: Geometry,
        budget: u32,
        out: &'a str,
    },
    /// `demo BITS OUT`
    Demo {
        bits: u32,
        out: &'a str,
    },
}

/// A file that is to be loaded.
#[derive(Clone, Copy, Debug)]
pub struct NamedFile<'a> {
    /// The name by which a store knows the file.
    pub name: &'a str,
    /// The most bytes that the file may have.
    pub limit: u64,
}

impl<'a> NamedFile<'a> {
    fn cnf(name: &'a str) -> NamedFile<'a>
        ensures name { result.name.now ≡ name.now }
        ensures limit { result.limit ≡ MAX_CNF_BYTES }
    {
        NamedFile {
            name,
            limit: u64::from(MAX_CNF_BYTES),
        }
    }

    fn trace(name: &'a str) -> NamedFile<'a>
        ensures name { result.name.now ≡ name.now }
        ensures limit { result.limit ≡ MAX_TRACE_BYTES }
    {
        NamedFile {
            name,
            limit: u64::from(MAX_TRACE_BYTES),
        }
    }

    fn design(name: &'a str) -> NamedFile<'a>
        ensures name { result.name.now ≡ name.now }
        ensures limit { result.limit ≡ MAX_BYTES }
    {
        NamedFile {
            name,
            limit: MAX_BYTES as u64,
        }
    }

    fn bundle(name: &'a str) -> NamedFile<'a>
        ensures name { result.name.now ≡ name.now }
        ensures limit { result.limit ≡ MAX_BUNDLE_BYTES }
    {
        NamedFile {
            name,
            limit: MAX_BUNDLE_BYTES,
        }
    }
}

impl<'a> Command<'a> {
    /// The files that the command loads, in their order.
    pub fn files(&self, alloc: Global) -> Result<Vec<NamedFile<'a>>, NoMemory>
        ensures { IfOk result (λ files. map file_seen files.items ≡ files_of (form_seen self.now)) }
    {
        match *self {
            Command::Check { cnf, trace } => {
                Ok(vec![in alloc; NamedFile::cnf(cnf), NamedFile::trace(trace)]?)
            }
            Command::Verify { spec, bundle, .. } => {
                Ok(vec![in alloc; NamedFile::design(spec), NamedFile::bundle(bundle)]?)
            }
            Command::Cnf { spec, bundle } => {
                Ok(vec![in alloc; NamedFile::design(spec), NamedFile::bundle(bundle)]?)
            }
            Command::Compact { bundle, .. } => Ok(vec![in alloc; NamedFile::bundle(bundle)]?),
            Command::Place { design, .. } => Ok(vec![in alloc; NamedFile::design(design)]?),
            Command::Produce { spec, design, .. } => {
                Ok(vec![in alloc; NamedFile::design(spec), NamedFile::design(design)]?)
            }
            Command::Demo { .. } => Ok(Vec::new(alloc)),
        }
    }

    /// The name of the file that the command saves, if it saves one.
    pub fn out(&self) -> Option<&'a str>
        ensures { option_map (λ name. name.now) result ≡ out_of (form_seen self.now) }
    {
        match *self {
            Command::Compact { out, .. }
            | Command::Place { out, .. }
            | Command::Produce { out, .. }
            | Command::Demo { out, .. } => Some(out),
            Command::Check { .. } | Command::Verify { .. } | Command::Cnf { .. } => None,
        }
    }
}
