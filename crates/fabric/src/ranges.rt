//! Words that are judged from the left on: what comes in are a geometry and as many words as it
//! wants, what goes out is the first word that is out of its range, if there is one. The words of
//! tables may be any, and are passed over.

ghost use Rattle.std.specs.Prelude.{◌≡◌, ◌≤◌, ◌<◌, ◌+◌, ◌^◌, length, IfErr, OnOk};
ghost use Rattle.fabric_defs.specs.Layout.{word_count, column_place};
ghost use Rattle.fabric.specs.Ranges.{AreAtMost, NamesFirstAbove, AreInRange, NamesFirst};

use crate::geometry::Geometry;
use fabric_defs::ConfigError;

/// Names the first of `count` words, from place `at` on, that is greater than `most`.
fn judge_words(words: &[u16], at: usize, count: u32, most: u32) -> Result<(), ConfigError>
    requires within { at + count ≤ length words.now }
    requires short { length words.now < 2 ^ 31 }
    ensures ok { OnOk result (AreAtMost most words.now at (at + count)) }
    ensures err { IfErr result (NamesFirstAbove most words.now at (at + count)) }
{
    for place in at..at + count as usize {
        if u32::from(words[place]) > most {
            return Err(ConfigError::Selector {
                at: 2 * place as u32,
            });
        }
    }
    Ok(())
}

/// Names the first word out of its range of a column and the channel after it.
fn judge_column(g: Geometry, words: &[u16], column: u32) -> Result<(), ConfigError>
    requires column { column < g.columns }
    requires whole { length words.now ≡ word_count g }
    requires short { length words.now < 2 ^ 31 }
    requires before { AreInRange g words.now (column_place g column) }
    ensures ok { OnOk result (AreInRange g words.now (column_place g (column + 1))) }
    ensures err { IfErr result (NamesFirst g words.now) }
{
    for row in 0..g.r() {
        judge_words(words, g.cell_place(column, row), g.pins(), g.t())?;
    }
    judge_words(words, g.channel_place(column), g.t(), g.r() + 1)
}

/// Names the first word out of its range.
pub(crate) fn judge(g: Geometry, words: &[u16]) -> Result<(), ConfigError>
    requires whole { length words.now ≡ word_count g }
    requires short { length words.now < 2 ^ 31 }
    ensures ok { OnOk result (AreInRange g words.now (word_count g)) }
    ensures err { IfErr result (NamesFirst g words.now) }
{
    judge_words(words, 0, g.t(), g.i())?;
    for column in 0..g.c() {
        judge_column(g, words, column)?;
    }
    judge_words(words, g.output_place(), g.o(), g.t())
}
