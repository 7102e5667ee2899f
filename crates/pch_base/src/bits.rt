ghost use Rattle.std.specs.Prelude.{◌≡◌, ℕ, ◌^◌, ◌<◌, ◌≤◌, List, length, slice_index, slice_set, if◌then◌else◌};
ghost use Rattle.clause_defs.specs.Clauses.{Has};
ghost use Rattle.pch_base.specs.BitLists.{bits_of, word_of};

use std::marker::Model;

/// A list of 0 to 64 bits, kept in a word: bit `i` of the word is element `i` of the list.
///
/// Contracts see it as the list of its bits, each the number 0 or 1.
#[derive(Clone, Copy, Debug)]
pub struct Bits {
    word: u64,
    len: u32,
}

impl Model for Bits {
    ghost use Rattle.std.specs.Prelude.{ℕ, ◌^◌, ◌<◌, ◌≤◌, List, length};
    ghost use Rattle.pch_base.specs.BitLists.{bits_of, word_of};
    ghost use Rattle.pch_base.specs.BitWords.{word_of-bits_of, length-bits_of};

    ghost Value = { List ℕ };

    ghost view = { λ b. bits_of b.len b.word };

    ghost invariant = { λ b. (b.len ≤ 64) × (b.word < 2 ^ b.len) };

    ghost inverse = { λ b. record { word = word_of b; len = length b } };

    ghost inverse_ok = { λ b h i. record {
      word = word_of-bits_of b.len b.word h.1 i;
      len = length-bits_of b.len b.word i;
    } };
}

impl PartialEq for Bits {
    ghost use Rattle.std.specs.Prelude.{nat_eq};
    ghost use Rattle.std.specs.Cmp.Lexicographic.{pointwise};
    ghost use Rattle.std.specs.Cmp.{partial_equiv_from_equiv};
    ghost use Rattle.std.proofs.lemmas.Cmp.{nat_list_eq_equiv};

    ghost eq = { pointwise nat_eq };

    ghost laws = { partial_equiv_from_equiv nat_list_eq_equiv };

    fn eq(&self, other: &Bits) -> bool {
        self.word() == other.word() && self.len() == other.len()
    }
}

impl Eq for Bits {
    ghost use Rattle.std.proofs.lemmas.Cmp.{nat_list_eq_equiv};

    ghost laws = { nat_list_eq_equiv };
}

impl Bits {
    /// The first `len` bits of the word.
    pub fn new(word: u64, len: u32) -> Bits
        requires short { len ≤ 64 }
        requires within { word < 2 ^ len }
        ensures { result ≡ bits_of len word }
    {
        Bits { word, len }
    }

    /// How many bits there are.
    pub fn len(self) -> u32
        ensures len { result ≡ length self }
        ensures short { result ≤ 64 }
        ensures bits { (b : ℕ) → Has self b → b ≤ 1 }
    {
        self.len
    }

    /// The word whose bits these are.
    pub fn word(self) -> u64
        ensures word { result ≡ word_of self }
        ensures within { result < 2 ^ length self }
        ensures bits { bits_of (length self) result ≡ self }
    {
        self.word
    }

    /// Whether bit `i` is 1.
    pub fn get(self, i: u32) -> bool
        requires { i < length self }
        ensures { slice_index self i ≡ (if result then 1 else 0) }
    {
        self.word >> i & 1 == 1
    }

    /// The same bits with `b` as bit `i`.
    pub fn with(self, i: u32, b: bool) -> Bits
        requires { i < length self }
        ensures { result ≡ slice_set self i (if b then 1 else 0) }
    {
        let mask = 1u64 << i;
        let word = if b {
            self.word | mask
        } else {
            self.word & !mask
        };
        Bits {
            word,
            len: self.len,
        }
    }
}
