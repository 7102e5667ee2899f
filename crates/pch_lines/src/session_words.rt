//! From words to the session that they run.

ghost use Rattle.std.specs.Prelude.{◌≡◌};
ghost use Rattle.std.specs.Option.{option_map};
ghost use Rattle.pch_lines.specs.Words.{words_in};
ghost use Rattle.pch_lines.specs.Sessions.{session_seen, run_form, session_form};

use fabric_defs::CellKind;

/// The words of a session: `run SCRIPT`, where `six` may stand in front.
#[derive(Clone, Copy, Debug)]
pub struct SessionWords<'a> {
    /// The kind of the cells of the session's fabric.
    pub kind: CellKind,
    /// The name of the script.
    pub script: &'a str,
}

/// The session that these words run, if they have the form. Behind the word `six` the cells of its
/// fabric have six inputs.
pub fn session_of(words: &[String]) -> Option<SessionWords<'_>>
    ensures { option_map session_seen result ≡ session_form (words_in words.now) }
{
    match words {
        [] => None,
        [first, rest @ ..] if first.as_str() == "six" => run_of(CellKind::SixInputs, rest),
        _ => run_of(CellKind::FourInputs, words),
    }
}

/// `run` with the name of a script, on cells of this kind.
fn run_of(kind: CellKind, words: &[String]) -> Option<SessionWords<'_>>
    ensures { option_map session_seen result ≡ run_form kind (words_in words.now) }
{
    let [word, script] = words else {
        return None;
    };
    if word.as_str() == "run" {
        Some(SessionWords {
            kind,
            script: script.as_str(),
        })
    } else {
        None
    }
}
