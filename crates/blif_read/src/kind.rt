//! What a line is, by its first word.
ghost use Rattle.std.specs.Prelude.{◌≡◌};
ghost use Rattle.blif_defs.specs.Grammar.{kind_of, after_end};

use blif_defs::{BlifError, LineKind};

/// What a line with this first word is.
pub(crate) fn kind_of(word: &[u8]) -> LineKind
    ensures { result ≡ kind_of word.now }
{
    if word == b".model".as_slice() {
        LineKind::Model
    } else if word == b".inputs".as_slice() {
        LineKind::Inputs
    } else if word == b".outputs".as_slice() {
        LineKind::Outputs
    } else if word == b".names".as_slice() {
        LineKind::Names
    } else if word == b".end".as_slice() {
        LineKind::End
    } else if word.first() == Some(&b'.') {
        LineKind::Other
    } else {
        LineKind::Row
    }
}

/// The fault of a line of this kind behind `.end`.
pub(crate) fn after_end(kind: LineKind, line: u32) -> BlifError
    ensures { result ≡ after_end kind line }
{
    match kind {
        LineKind::Model => BlifError::Unsupported { line },
        _ => BlifError::Syntax { line },
    }
}
