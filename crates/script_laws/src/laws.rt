ghost use Rattle.std.specs.Prelude.{◌≡◌, ℕ, List, Result, Ok, Err};
ghost use Rattle.fabric_defs.specs.declared.kind.CellKind.TheVariants.{FourInputs};
ghost use Rattle.script_defs.specs.declared.error.ScriptError.{ScriptError};
ghost use Rattle.script_defs.specs.declared.error.ScriptError.TheVariants.{NoMemory};
ghost use Rattle.script_defs.specs.Scripts.{ScriptValue, IsScript};
ghost use Rattle.script_defs.specs.Reading.{reading};
ghost use Rattle.script_defs.specs.Texts.{ScriptText, ScriptFault, ScriptOf};

/// `reading` answers the value of each text that has one, and no other value.
pub fn value_is_read()
    ensures read { (text : List ℕ) (s : ScriptValue) → ScriptText text s → reading text ≡ Ok s }
    ensures only { (text : List ℕ) (s : ScriptValue) → reading text ≡ Ok s → ScriptText text s }
{}

/// `reading` answers the first fault of each text that has no value, and no other fault.
pub fn first_fault_is_read()
    ensures read { (text : List ℕ) (fault : ScriptError) → ScriptFault text fault
        → reading text ≡ Err fault }
    ensures only { (text : List ℕ) (fault : ScriptError) → reading text ≡ Err fault
        → ScriptFault text fault }
{}

/// Each text has one value or one first fault, and never both. That memory was wanting is the fault
/// of no text.
pub fn text_has_one_value_or_fault()
    ensures exists { (text : List ℕ) → (read : Result ScriptValue ScriptError) × ScriptOf text read }
    ensures unique { (text : List ℕ) (a b : Result ScriptValue ScriptError) → ScriptOf text a
        → ScriptOf text b → a ≡ b }
    ensures memory { (text : List ℕ) → ScriptFault text NoMemory → ⊥ }
{}

/// The value of a text is a script within the limits, whose cells have four inputs.
pub fn value_is_script()
    ensures script { (text : List ℕ) (s : ScriptValue) → ScriptText text s → IsScript s }
    ensures kind { (text : List ℕ) (s : ScriptValue) → ScriptText text s
        → s.geometry.kind ≡ FourInputs }
{}
