ghost use Rattle.std.specs.Prelude.{◌≡◌, ◌≢◌, ◌+◌, ◌*◌, ◌≤◌, ◌≤ℤ◌, pos, neg_ℤ};
ghost use Rattle.clause_defs.specs.Literals.{Literal, IsLiteral, code, negation};
ghost use Rattle.pch_base.specs.Lits.{value_of};

use clause_defs::MAX_VARIABLE;
use std::marker::Model;

/// A literal: a variable from 1 to [`MAX_VARIABLE`], or its negation.
///
/// Contracts see it as the record `Literal` of its variable and its sign. Literals are ordered by
/// their codes, so by variable, the negative one of a variable first.
#[derive(Clone, Copy, Debug, PartialEq, Eq, PartialOrd, Ord)]
pub struct Lit {
    number: u32,
}

impl Model for Lit {
    ghost use Rattle.clause_defs.specs.Literals.{Literal, IsLiteral, code};
    ghost use Rattle.pch_base.specs.Lits.{literal_of};
    ghost use Rattle.pch_base.specs.LitCodes.{code-literal_of};

    ghost Value = { Literal };

    ghost view = { λ l. literal_of l.number };

    ghost invariant = { λ l. IsLiteral (literal_of l.number) };

    ghost inverse = { λ l. record { number = code l } };

    ghost inverse_ok = { λ l h i. record { number = code-literal_of l.number i } };
}

impl Lit {
    /// The literal that a text writes as this number: a variable, or the negative of one.
    pub fn new(v: i32) -> Lit
        requires not_zero { v ≢ pos 0 }
        requires low { neg_ℤ (pos MAX_VARIABLE) ≤ℤ v }
        requires high { v ≤ℤ pos MAX_VARIABLE }
        ensures value { value_of result ≡ v }
        ensures within_limits { IsLiteral result }
    {
        Lit::from_parts(v.unsigned_abs(), v > 0)
    }

    /// The literal with this variable and this sign.
    pub fn from_parts(variable: u32, positive: bool) -> Lit
        requires low { 1 ≤ variable }
        requires high { variable ≤ MAX_VARIABLE }
        ensures parts { result ≡ record { variable = variable; positive = positive } }
    {
        Lit {
            number: 2 * variable + u32::from(positive),
        }
    }

    /// The number that a text writes for the literal.
    pub fn value(self) -> i32
        ensures value { result ≡ value_of self }
    {
        let variable = self.variable() as i32;
        if self.is_positive() {
            variable
        } else {
            -variable
        }
    }

    /// The same variable with the other sign.
    pub fn negated(self) -> Lit
        ensures { result ≡ negation self }
    {
        Lit {
            number: self.number ^ 1,
        }
    }

    /// The literal's variable.
    pub fn variable(self) -> u32
        ensures variable { result ≡ self.variable }
        ensures within_limits { IsLiteral self }
    {
        self.number / 2
    }

    /// Whether the literal is its variable, and not the negation of it.
    pub fn is_positive(self) -> bool
        ensures { result ≡ self.positive }
    {
        self.number % 2 == 1
    }

    /// The literal's number in the order: twice its variable, plus one where it is positive.
    pub fn code(self) -> u32
        ensures code { result ≡ code self }
        ensures bound { result ≤ 2 * MAX_VARIABLE + 1 }
        ensures within_limits { IsLiteral self }
    {
        self.number
    }
}
