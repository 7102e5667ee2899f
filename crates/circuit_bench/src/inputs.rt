ghost use Rattle.std.specs.Prelude.{◌≡◌, ◌≤◌, length};

use pch_base::Bits;

/// Inputs that look random, made by a fixed rule: three shifts of a word, each xored into it.
#[derive(Debug, Drop)]
pub(crate) struct Inputs {
    word: u64,
}

impl Inputs {
    /// The inputs from the first on.
    pub(crate) fn new() -> Inputs {
        Inputs {
            word: 0x9e37_79b9_7f4a_7c15,
        }
    }

    /// The next word.
    fn next_word(&mut self) -> u64 {
        self.word ^= self.word << 13;
        self.word ^= self.word >> 7;
        self.word ^= self.word << 17;
        self.word
    }

    /// The next input of so many bits.
    pub(crate) fn next(&mut self, len: u32) -> Bits
        requires { len ≤ 64 }
        ensures { length result ≡ len }
    {
        low_bits(self.next_word(), len)
    }

    /// Makes the words the next ones, each with bits for sixty-four inputs.
    pub(crate) fn fill(&mut self, words: &mut [u64])
        ensures { length words.new ≡ length words.old }
    {
        for i in 0..words.len() {
            words[i] = self.next_word();
        }
    }
}

/// The `len` least significant bits of the word.
fn low_bits(word: u64, len: u32) -> Bits
    requires { len ≤ 64 }
    ensures { length result ≡ len }
{
    if len == 64 {
        return Bits::new(word, 64);
    }
    Bits::new(word % (1 << len), len)
}
