//! From words to the command that they have the form of.

ghost use Rattle.std.specs.Prelude.{◌≡◌, ◌≤◌, None, Some, MatchOption, IfSome};
ghost use Rattle.pch_lines.specs.Words.{words_in, form_of, plain_form, file_form, fabric_form, form_on, verify_form, count_in, fabric_in, verify_with, place_form, place_with, produce_form, produce_with, demo_with};
ghost use Rattle.pch_lines.specs.Commands.{form_seen, IsWithinLimits};

use crate::command::Command;
use demo_texts::MAX_BITS;
use fabric::Geometry;
use fabric_defs::{CellKind, MAX_SIDE, MAX_TRACKS};
use miter_size::MAX_BUDGET;
use pch_base::read_number;
use script_defs::MAX_WORKERS;

/// The command of these words, if they have one of the forms. Behind the word `six` stands a command
/// that names a fabric, whose cells have six inputs then.
pub fn command_of(words: &[String]) -> Option<Command<'_>>
    ensures command { MatchOption result (form_of (words_in words.now) ≡ None)
        (λ c. form_of (words_in words.now) ≡ Some (form_seen c)) }
    ensures limits { IfSome result IsWithinLimits }
{
    match words {
        [] => None,
        [first, rest @ ..] if first.as_str() == "six" => fabric_command(CellKind::SixInputs, rest),
        _ => plain_command(words),
    }
}

/// The command of words of which the first isn't `six`.
fn plain_command(words: &[String]) -> Option<Command<'_>>
    ensures command { MatchOption result (plain_form (words_in words.now) ≡ None)
        (λ c. plain_form (words_in words.now) ≡ Some (form_seen c)) }
    ensures limits { IfSome result IsWithinLimits }
{
    match words {
        [word, first, second] => file_command(word.as_str(), first.as_str(), second.as_str()),
        _ => fabric_command(CellKind::FourInputs, words),
    }
}

/// The command of a word and two words more.
fn file_command<'a>(word: &str, first: &'a str, second: &'a str) -> Option<Command<'a>>
    ensures command { MatchOption result (file_form word.now first.now second.now ≡ None)
        (λ c. file_form word.now first.now second.now ≡ Some (form_seen c)) }
    ensures limits { IfSome result IsWithinLimits }
{
    match word {
        "check" => Some(Command::Check {
            cnf: first,
            trace: second,
        }),
        "cnf" => Some(Command::Cnf {
            spec: first,
            bundle: second,
        }),
        "compact" => Some(Command::Compact {
            bundle: first,
            out: second,
        }),
        "demo" => demo_of(count_of(first, MAX_BITS), second),
        _ => None,
    }
}

/// `demo` with this name, where the number of bits is there.
fn demo_of(bits: Option<u32>, out: &str) -> Option<Command<'_>>
    requires { IfSome bits (λ n. (1 ≤ n) × (n ≤ MAX_BITS)) }
    ensures command { MatchOption result (demo_with bits out.now ≡ None)
        (λ c. demo_with bits out.now ≡ Some (form_seen c)) }
    ensures limits { IfSome result IsWithinLimits }
{
    Some(Command::Demo { bits: bits?, out })
}

/// The command that names a fabric, whose cells have this kind.
fn fabric_command(kind: CellKind, words: &[String]) -> Option<Command<'_>>
    ensures command { MatchOption result (fabric_form kind (words_in words.now) ≡ None)
        (λ c. fabric_form kind (words_in words.now) ≡ Some (form_seen c)) }
    ensures limits { IfSome result IsWithinLimits }
{
    let [word, first, second, more @ ..] = words else {
        return None;
    };
    command_on(kind, word.as_str(), first.as_str(), second.as_str(), more)
}

/// The command of a word that names a fabric, of two words more, and of the rest.
fn command_on<'a>(
    kind: CellKind,
    word: &str,
    first: &'a str,
    second: &'a str,
    more: &'a [String],
) -> Option<Command<'a>>
    ensures command { MatchOption result
        (form_on kind word.now first.now second.now (words_in more.now) ≡ None)
        (λ c. form_on kind word.now first.now second.now (words_in more.now) ≡ Some (form_seen c)) }
    ensures limits { IfSome result IsWithinLimits }
{
    if word == "verify" {
        verify_command(kind, first, second, more)
    } else if word == "place" {
        place_command(kind, first, second, more)
    } else if word == "produce" {
        produce_command(kind, first, second, more)
    } else {
        None
    }
}

/// `verify` with two files and the words behind them.
fn verify_command<'a>(
    kind: CellKind,
    spec: &'a str,
    bundle: &'a str,
    words: &[String],
) -> Option<Command<'a>>
    ensures command { MatchOption result
        (verify_form kind spec.now bundle.now (words_in words.now) ≡ None)
        (λ c. verify_form kind spec.now bundle.now (words_in words.now) ≡ Some (form_seen c)) }
    ensures limits { IfSome result IsWithinLimits }
{
    let [c, r, t, i, o, workers] = words else {
        return None;
    };
    let geometry = fabric_of(
        kind,
        c.as_str(),
        r.as_str(),
        t.as_str(),
        i.as_str(),
        o.as_str(),
    );
    let workers = count_of(workers.as_str(), MAX_WORKERS);
    verify_of(spec, bundle, geometry, workers)
}

/// `verify` with these words, where the fabric and the number of workers are there.
fn verify_of<'a>(
    spec: &'a str,
    bundle: &'a str,
    geometry: Option<Geometry>,
    workers: Option<u32>,
) -> Option<Command<'a>>
    requires { IfSome workers (λ n. (1 ≤ n) × (n ≤ MAX_WORKERS)) }
    ensures command { MatchOption result (verify_with spec.now bundle.now geometry workers ≡ None)
        (λ c. verify_with spec.now bundle.now geometry workers ≡ Some (form_seen c)) }
    ensures limits { IfSome result IsWithinLimits }
{
    Some(Command::Verify {
        spec,
        bundle,
        geometry: geometry?,
        workers: workers?,
    })
}

/// `place` with a file, the first number of its fabric and the words behind them.
fn place_command<'a>(
    kind: CellKind,
    design: &'a str,
    c: &str,
    words: &'a [String],
) -> Option<Command<'a>>
    ensures command { MatchOption result
        (place_form kind design.now c.now (words_in words.now) ≡ None)
        (λ found. place_form kind design.now c.now (words_in words.now) ≡ Some (form_seen found)) }
    ensures limits { IfSome result IsWithinLimits }
{
    let [r, t, i, o, out] = words else {
        return None;
    };
    let geometry = fabric_of(kind, c, r.as_str(), t.as_str(), i.as_str(), o.as_str());
    place_of(design, geometry, out.as_str())
}

/// `place` with these names, where the fabric is there.
fn place_of<'a>(design: &'a str, geometry: Option<Geometry>, out: &'a str) -> Option<Command<'a>>
    ensures command { MatchOption result (place_with design.now geometry out.now ≡ None)
        (λ c. place_with design.now geometry out.now ≡ Some (form_seen c)) }
    ensures limits { IfSome result IsWithinLimits }
{
    Some(Command::Place {
        design,
        geometry: geometry?,
        out,
    })
}

/// `produce` with two files and the words behind them.
fn produce_command<'a>(
    kind: CellKind,
    spec: &'a str,
    design: &'a str,
    words: &'a [String],
) -> Option<Command<'a>>
    ensures command { MatchOption result
        (produce_form kind spec.now design.now (words_in words.now) ≡ None)
        (λ c. produce_form kind spec.now design.now (words_in words.now) ≡ Some (form_seen c)) }
    ensures limits { IfSome result IsWithinLimits }
{
    let [c, r, t, i, o, budget, out] = words else {
        return None;
    };
    let geometry = fabric_of(
        kind,
        c.as_str(),
        r.as_str(),
        t.as_str(),
        i.as_str(),
        o.as_str(),
    );
    let budget = count_of(budget.as_str(), MAX_BUDGET);
    produce_of(spec, design, geometry, budget, out.as_str())
}

/// `produce` with these names, where the fabric and the budget are there.
fn produce_of<'a>(
    spec: &'a str,
    design: &'a str,
    geometry: Option<Geometry>,
    budget: Option<u32>,
    out: &'a str,
) -> Option<Command<'a>>
    requires { IfSome budget (λ n. (1 ≤ n) × (n ≤ MAX_BUDGET)) }
    ensures command { MatchOption result
        (produce_with spec.now design.now geometry budget out.now ≡ None)
        (λ c. produce_with spec.now design.now geometry budget out.now ≡ Some (form_seen c)) }
    ensures limits { IfSome result IsWithinLimits }
{
    Some(Command::Produce {
        spec,
        design,
        geometry: geometry?,
        budget: budget?,
        out,
    })
}

/// The fabric whose columns, rows, tracks, input pads and output pads the words say, with cells of this
/// kind.
fn fabric_of(kind: CellKind, c: &str, r: &str, t: &str, i: &str, o: &str) -> Option<Geometry>
    ensures { result ≡ fabric_in kind c.now r.now t.now i.now o.now }
{
    let geometry = Geometry::new(
        count_of(c, MAX_SIDE)?,
        count_of(r, MAX_SIDE)?,
        count_of(t, MAX_TRACKS)?,
        count_of(i, MAX_SIDE)?,
        count_of(o, MAX_SIDE)?,
    )?;
    match kind {
        CellKind::FourInputs => Some(geometry),
        CellKind::SixInputs => Some(geometry.six()),
    }
}

/// The number from 1 to the limit that the word spells.
fn count_of(word: &str, limit: u32) -> Option<u32>
    ensures number { result ≡ count_in limit word.now }
    ensures within { IfSome result (λ n. (1 ≤ n) × (n ≤ limit)) }
{
    match read_number(word.as_bytes(), u64::from(limit)) {
        Some(n) if n >= 1 => Some(n as u32),
        _ => None,
    }
}
