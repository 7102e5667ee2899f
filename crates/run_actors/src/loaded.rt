//! The loaded files of a session.

ghost use Rattle.std.specs.Prelude.{◌≡◌, map, Decides};
ghost use Rattle.std.specs.Arc.{arc_value};
ghost use Rattle.session_defs.specs.Files.{DescribesNet, IsDelivery};
ghost use Rattle.run_actors.specs.Loading.{contents_of, IsOfKind, AreOfKinds, IsSpec, IsBundle};

use netlist::Net;
use run_script::{FileUse, Kind};
use std::sync::Arc;

/// What was loaded from a file of a session. `contents_of` gives the plain value that definitions
/// speak of.
#[derive(Drop)]
pub enum Loaded {
    /// The net that a specification describes.
    Spec(Arc<Net>),
    /// The bytes of a delivered bundle, whatever they are.
    Bundle(Vec<u8>),
}

/// Whether the file was loaded as what it is used as.
fn is_of_kind(kind: Kind, file: &Loaded) -> bool
    ensures { Decides result (IsOfKind kind (contents_of file.now)) }
{
    match (kind, file) {
        (Kind::Spec, Loaded::Spec(_)) => true,
        (Kind::Bundle, Loaded::Bundle(_)) => true,
        _ => false,
    }
}

/// Whether there is one loaded file for each use of one, and each is loaded as what it is used as.
pub fn are_loaded(uses: &[FileUse], files: &[Loaded]) -> bool
    ensures { Decides result (AreOfKinds uses.now (map contents_of files.now)) }
{
    if uses.len() != files.len() {
        return false;
    }
    for (i, file_use) in uses.iter().enumerate() {
        if !is_of_kind(file_use.kind, &files[i]) {
            return false;
        }
    }
    true
}

/// The net of a file that describes one.
pub(crate) fn net_in(files: &[Loaded], file: u32) -> &Arc<Net>
    requires { IsSpec (map contents_of files.now) file }
    ensures { DescribesNet (map contents_of files.now) file (arc_value result.now) }
{
    match &files[file as usize] {
        Loaded::Spec(net) => net,
        Loaded::Bundle(_) => unreachable!(),
    }
}

/// The bytes of a file that is a bundle.
pub(crate) fn bytes_in(files: &[Loaded], file: u32) -> &[u8]
    requires { IsBundle (map contents_of files.now) file }
    ensures { IsDelivery (map contents_of files.now) file result.now }
{
    match &files[file as usize] {
        Loaded::Bundle(bytes) => bytes,
        Loaded::Spec(_) => unreachable!(),
    }
}
