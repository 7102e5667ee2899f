//! The words of a line, where the comment and a carriage return at the end of the line don't count.
ghost use Rattle.std.specs.Prelude.{◌≡◌, OnOk};
ghost use Rattle.std.specs.List.{list_all};
ghost use Rattle.script_defs.specs.Lines.{is_plain, line_words};
ghost use Rattle.blif_read.specs.Views.{texts};

use blif_read::{push_words, without_comment, without_return};
use std::alloc::AllocError;

/// Whether each byte is a sign of ASCII that isn't a blank.
fn is_plain(word: &[u8]) -> bool
    ensures { result ≡ is_plain word.now }
{
    for b in word {
        if *b < 33 || 126 < *b {
            return false;
        }
    }
    true
}

/// Whether each word is plain.
pub(crate) fn are_plain(list: &[&[u8]]) -> bool
    ensures { result ≡ list_all is_plain (texts list.now) }
{
    for word in list {
        if !is_plain(word) {
            return false;
        }
    }
    true
}

/// Puts the words of the line in place of those that were there.
pub(crate) fn put_words<'a>(list: &mut Vec<&'a [u8]>, line: &'a [u8]) -> Result<(), AllocError>
    ensures { OnOk result (texts list.new.items ≡ line_words line.now) }
{
    list.clear();
    push_words(list, without_comment(without_return(line)))
}
