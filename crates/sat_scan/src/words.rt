ghost use Rattle.std.specs.Prelude.{◌≡◌, ◌+◌, ◌<◌, ◌≤◌, true, false, length};
ghost use Rattle.sat_text_defs.specs.Words.{separates};
ghost use Rattle.sat_text_defs.specs.Spellings.{is_byte, is_zero, is_sign};
ghost use Rattle.sat_scan.specs.Scan.{word_at, behind_word_at, tokens_from, IsAtWord};

/// Whether the byte separates words: a space, a tab, a carriage return or a line feed.
#[inline]
pub fn is_separator(b: u8) -> bool
    ensures { result ≡ separates b }
{
    b == b' ' || b == b'\t' || b == b'\r' || b == b'\n'
}

/// The first place from `from` on where a word of a trace begins, or the end of the text.
#[inline]
pub fn next_word(text: &[u8], from: usize) -> usize
    requires { from ≤ length text.now }
    ensures not_before { from ≤ result }
    ensures skipped { tokens_from from text.now ≡ tokens_from result text.now }
    ensures stands { IsAtWord result text.now }
{
    let mut at = from;
    while at < text.len() && is_separator(text[at]) {
        at += 1;
    }
    at
}

/// Whether the word at `at` is the digit 0 alone.
#[inline]
pub fn is_zero_at(text: &[u8], at: usize) -> bool
    requires { at ≤ length text.now }
    ensures value { result ≡ is_zero (word_at at text.now) }
    ensures within { result ≡ true → at < length text.now }
    ensures one_byte { result ≡ true → behind_word_at at text.now ≡ at + 1 }
{
    is_byte_at(text, at, b'0')
}

/// Whether the word at `at` is the sign `*` alone.
#[inline]
pub fn is_sign_at(text: &[u8], at: usize) -> bool
    requires { at ≤ length text.now }
    ensures value { result ≡ is_sign (word_at at text.now) }
    ensures within { result ≡ true → at < length text.now }
    ensures one_byte { result ≡ true → behind_word_at at text.now ≡ at + 1 }
{
    is_byte_at(text, at, b'*')
}

// Whether the word at `at` is this byte alone, which separates no words.
#[inline]
fn is_byte_at(text: &[u8], at: usize, byte: u8) -> bool
    requires within { at ≤ length text.now }
    requires inner { separates byte ≡ false }
    ensures value { result ≡ is_byte byte (word_at at text.now) }
    ensures within { result ≡ true → at < length text.now }
    ensures one_byte { result ≡ true → behind_word_at at text.now ≡ at + 1 }
{
    at < text.len() && text[at] == byte && (at + 1 == text.len() || is_separator(text[at + 1]))
}
