ghost use Rattle.std.specs.Prelude.{ℕ, List, All};
ghost use Rattle.std.specs.Str.{IsUtf8};
ghost use Rattle.script_defs.specs.declared.command.FileUse.{FileUse};
ghost use Rattle.script_defs.specs.Scripts.{ScriptValue};
ghost use Rattle.script_defs.specs.Texts.{ScriptText};

/// The names of a script's files are words of ASCII, and so the UTF-8 of a text.
pub fn script_names_are_texts()
    ensures { (text : List ℕ) (s : ScriptValue) → ScriptText text s
        → All (λ (u : FileUse). IsUtf8 u.name) s.files }
{}
