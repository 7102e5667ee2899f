use netlist::SpecError;
use pch_io::LoadFail;
use run_script::ScriptError;

/// Why there is no script.
#[derive(Clone, Copy, Debug)]
pub enum NoScript {
    /// The store gave no bytes, or memory was wanting.
    Load(LoadFail),
    /// The text has this first fault, or memory was wanting.
    Read(ScriptError),
}

/// Why a file of a session can't be used.
#[derive(Clone, Copy, Debug)]
pub enum FileFault {
    /// The store gave no bytes, or memory was wanting.
    Load(LoadFail),
    /// The file is a specification with this first fault, or memory was wanting.
    Specification(SpecError),
}

/// The first file that can't be used, and why. Files are numbered from 0 in the order of the script.
#[derive(Clone, Copy, Debug)]
pub struct NotUsable {
    /// The number of the file.
    pub file: u32,
    /// Why it can't be used.
    pub fault: FileFault,
}
