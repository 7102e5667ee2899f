ghost use Rattle.std.specs.Prelude.{◌≡◌, ◌≤◌, ℕ, List, length, Result, Ok, Err};
ghost use Rattle.blif_defs.specs.declared.error.BlifError.{BlifError};
ghost use Rattle.blif_defs.specs.declared.error.BlifError.TheVariants.{NoMemory};
ghost use Rattle.blif_defs.specs.Values.{BlifValue, IsBlif};
ghost use Rattle.blif_defs.specs.Grammar.{reading};
ghost use Rattle.blif_defs.specs.Printing.{blif_text};
ghost use Rattle.blif_defs.specs.Texts.{BlifText, BlifFault, BlifOf};
ghost use Rattle.blif_laws.specs.Meaning.{IsSaid};

use blif_defs::MAX_BYTES;

/// `reading` answers the value of each text that has one, and no other value.
pub fn value_is_read()
    ensures read { (text : List ℕ) (m : BlifValue) → BlifText text m → reading text ≡ Ok m }
    ensures only { (text : List ℕ) (m : BlifValue) → reading text ≡ Ok m → BlifText text m }
{}

/// `reading` answers the first fault of each text that has no value, and no other fault.
pub fn first_fault_is_read()
    ensures read { (text : List ℕ) (fault : BlifError) → BlifFault text fault
        → reading text ≡ Err fault }
    ensures only { (text : List ℕ) (fault : BlifError) → reading text ≡ Err fault
        → BlifFault text fault }
{}

/// Each text has one value or one first fault, and never both. That memory was wanting is the fault
/// of no text.
pub fn text_has_one_value_or_fault()
    ensures exists { (text : List ℕ) → (read : Result BlifValue BlifError) × BlifOf text read }
    ensures unique { (text : List ℕ) (a b : Result BlifValue BlifError) → BlifOf text a
        → BlifOf text b → a ≡ b }
    ensures memory { (text : List ℕ) → BlifFault text NoMemory → ⊥ }
{}

/// The value of a text is a design within the limits.
pub fn value_is_design()
    ensures { (text : List ℕ) (m : BlifValue) → BlifText text m → IsBlif m }
{}

/// The inputs and outputs of a design are the names of the lines for them, and its covers are those
/// that the lines of names and rows spell, each in the order of the text.
pub fn value_is_what_lines_say()
    ensures { (text : List ℕ) (m : BlifValue) → BlifText text m → IsSaid text m }
{}

/// The printed text of a design within the limits has that design as its value, where it isn't too
/// long.
pub fn printed_text_is_read()
    ensures { (m : BlifValue) → IsBlif m → length (blif_text m) ≤ MAX_BYTES
        → BlifText (blif_text m) m }
{}
