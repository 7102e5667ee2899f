ghost use Rattle.std.specs.Prelude.{◌≡◌, ◌==◌, ◌<◌, ◌≤◌, ◌++◌, ℕ, List, length, map, OnOk};
ghost use Rattle.std.specs.List.{list_all, position_or_len};
ghost use Rattle.blif_defs.specs.Words.{is_blank, is_sign, ends_with, is_sound, words};
ghost use Rattle.blif_defs.specs.Lines.{without_return, without_comment, trimmed, stripped};
ghost use Rattle.blif_read.specs.Views.{texts};

use std::alloc::AllocError;

fn is_blank(b: u8) -> bool
    ensures { result ≡ is_blank b }
{
    b == b' ' || b == b'\t'
}

/// Whether the last byte is `c`.
pub(crate) fn ends_with(c: u8, bytes: &[u8]) -> bool
    ensures { result ≡ ends_with c bytes.now }
{
    match bytes {
        [] => false,
        [.., last] => *last == c,
    }
}

/// Whether each byte is a sign and the last one isn't `\`.
fn is_sound(word: &[u8]) -> bool
    ensures { result ≡ is_sound word.now }
{
    for b in word {
        if *b < 33 || 126 < *b {
            return false;
        }
    }
    !ends_with(b'\\', word)
}

/// Whether each word is sound.
pub(crate) fn are_sound(list: &[&[u8]]) -> bool
    ensures { result ≡ list_all is_sound (texts list.now) }
{
    for word in list {
        if !is_sound(word) {
            return false;
        }
    }
    true
}

/// The line without the carriage return at its end.
pub fn without_return(line: &[u8]) -> &[u8]
    ensures { result.now ≡ without_return line.now }
{
    match line {
        [front @ .., b'\r'] => front,
        _ => line,
    }
}

/// The number of bytes before the first `c`, or of all where there is none.
pub fn len_before(c: u8, bytes: &[u8]) -> usize
    ensures len { result ≡ position_or_len (λ b. b == c) bytes.now }
    ensures within { result ≤ length bytes.now }
{
    for (i, b) in bytes.iter().enumerate() {
        if *b == c {
            return i;
        }
    }
    bytes.len()
}

/// The line up to its first `#`.
pub fn without_comment(line: &[u8]) -> &[u8]
    ensures { result.now ≡ without_comment line.now }
{
    &line[..len_before(b'#', line)]
}

/// The line without the blanks at its end.
fn trimmed(line: &[u8]) -> &[u8]
    ensures { result.now ≡ trimmed line.now }
{
    let mut rest = line;
    while let [front @ .., last] = rest {
        if !is_blank(*last) {
            return rest;
        }
        rest = front;
    }
    rest
}

/// What counts of a line, a `\` at its end included.
#[tactic(auto, unfolding(blif_defs::specs::Lines::stripped))]
pub(crate) fn stripped(line: &[u8]) -> &[u8]
    ensures { result.now ≡ stripped line.now }
{
    trimmed(without_comment(without_return(line)))
}

/// The number of bytes before the first blank, or of all where there is none.
fn word_len(line: &[u8]) -> usize
    ensures len { result ≡ position_or_len is_blank line.now }
    ensures within { result ≤ length line.now }
{
    for (i, b) in line.iter().enumerate() {
        if is_blank(*b) {
            return i;
        }
    }
    line.len()
}

/// Appends the words of the line: its longest runs of bytes that aren't blanks.
pub fn push_words<'a>(list: &mut Vec<&'a [u8]>, line: &'a [u8]) -> Result<(), AllocError>
    ensures { OnOk result (texts list.new.items ≡ texts list.old.items ++ words line.now) }
{
    let mut rest = line;
    while !rest.is_empty() {
        if is_blank(rest[0]) {
            let (_, after) = rest.split_at(1);
            rest = after;
        } else {
            let (word, after) = rest.split_at(word_len(rest));
            list.push(word)?;
            rest = after;
        }
    }
    Ok(())
}
