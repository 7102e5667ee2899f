ghost use Rattle.std.specs.Prelude.{◌≡◌, ℕ, ◌↔◌, ◌⊎◌, List, Some, Ok, Err};
ghost use Rattle.clause_defs.specs.Formulas.{Formula};
ghost use Rattle.clause_defs.specs.Literals.{Literal};
ghost use Rattle.sat_text_defs.specs.declared.errors.CnfError.{CnfError};
ghost use Rattle.sat_text_defs.specs.CnfReading.{cnf_in};
ghost use Rattle.sat_text_defs.specs.CnfText.{CnfText, CnfTextFault, IsFormula};
ghost use Rattle.sat_text_defs.specs.Spellings.{literal_in};
ghost use Rattle.sat_text_defs.specs.Words.{SpellsLiteral};

/// The literal that is computed of a word is the one that the word spells.
pub fn literal_words_are_spelled()
    ensures { (w : List ℕ) (l : Literal) → (literal_in w ≡ Some l) ↔ SpellsLiteral w l }
{}

/// The CNF of a text has at most as many variables and clauses as a CNF may have, and its clauses are over
/// these variables.
pub fn formula_of_a_text_keeps_the_limits()
    ensures { (text : List ℕ) (f : Formula) → CnfText text f → IsFormula f }
{}

/// The CNF that is computed of a text is the one whose text it is.
pub fn cnf_of_a_text_is_computed()
    ensures { (text : List ℕ) (f : Formula) → (cnf_in text ≡ Ok f) ↔ CnfText text f }
{}

/// The fault that is computed of a text is the one that the text has: too many bytes, the first token
/// that can't stand where it does or is out of range, an end inside the header or a clause, or else
/// another number of clauses than the header says.
pub fn fault_of_a_text_is_computed()
    ensures { (text : List ℕ) (e : CnfError) → (cnf_in text ≡ Err e) ↔ CnfTextFault text e }
{}

/// A text has one CNF, or else one fault.
pub fn text_has_one_cnf_or_fault()
    ensures some { (text : List ℕ)
        → ((f : Formula) × CnfText text f) ⊎ ((e : CnfError) × CnfTextFault text e) }
    ensures one_cnf { (text : List ℕ) (f g : Formula) → CnfText text f → CnfText text g → f ≡ g }
    ensures one_fault { (text : List ℕ) (d e : CnfError)
        → CnfTextFault text d → CnfTextFault text e → d ≡ e }
    ensures not_both { (text : List ℕ) (f : Formula) (e : CnfError)
        → CnfText text f → CnfTextFault text e → ⊥ }
{}
