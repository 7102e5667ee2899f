ghost use Rattle.std.specs.Prelude.{◌*◌, ℕ, ◌≤◌, List, length};
ghost use Rattle.clause_defs.specs.Traces.{Entry, IsTrace};
ghost use Rattle.net_defs.specs.Networks.{Network};
ghost use Rattle.net_defs.specs.Nets.{IsNet};
ghost use Rattle.fabric_defs.specs.Configurations.{ConfigValue, IsConfig};
ghost use Rattle.cell_defs.specs.Cells.{CellsValue, AreCells};
ghost use Rattle.miter_defs.specs.Miters.{Miter};
ghost use Rattle.log_defs.specs.Logs.{LogValue};
ghost use Rattle.sat_text_defs.specs.declared.limits.TheConstants.{MAX_TRACE_BYTES};
ghost use Rattle.sat_text_defs.specs.Printed.{trace_text};
ghost use Rattle.miter_size.specs.declared.limits.TheConstants.{MAX_MITER_WORDS, MAX_WORD_BYTES};
ghost use Rattle.miter_size.specs.Sizes.{OriginalWords, TraceWords, IsMiterLog, HasShortTrace, BundleFits};

/// The clauses of a miter have few words in a trace.
pub fn miter_has_few_words()
    ensures { (net : Network) (cells : CellsValue) → IsNet net → AreCells cells
        → OriginalWords (Miter net cells).clauses ≤ MAX_MITER_WORDS }
{}

/// The printed text of a trace has at most eleven bytes for each of its words.
pub fn words_are_short()
    ensures { (t : List Entry) → IsTrace t
        → length (trace_text t) ≤ MAX_WORD_BYTES * TraceWords t }
{}

/// The trace of a log over a miter is within the limits of traces: its indices, and the length of
/// its printed text.
pub fn trace_fits()
    ensures { (net : Network) (config : ConfigValue) (log : LogValue) → IsMiterLog net config log
        → HasShortTrace log }
{}

/// A bundle of a configuration and of a trace that isn't too long is within the limits of bundles:
/// the lengths of its parts, and the length of its file.
pub fn bundle_fits()
    ensures { (version : ℕ) (config : ConfigValue) (trace : List ℕ) → IsConfig config
        → length trace ≤ MAX_TRACE_BYTES → BundleFits version config trace }
{}
