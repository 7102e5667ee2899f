use eval_lanes::Ones;
use pch_base::Bits;
use verify_defs::Refusal;

/// What a command was answered. `at` is the number of the entry that it made, or of the entries after
/// which the answer is so. `reply_of` gives the plain value that definitions speak of.
#[derive(Debug, Drop)]
pub enum Reply {
    /// The specification is agreed.
    Agreed { at: u32 },
    /// The configuration of the bundle is installed.
    Installed { at: u32 },
    /// Nothing runs in the slot from here on.
    Evicted { at: u32 },
    /// The journal had its limit.
    Full { at: u32 },
    /// No specification was agreed for the slot.
    Unagreed { at: u32 },
    /// The bundle was refused.
    Refused { refusal: Refusal, at: u32 },
    /// The bundle was accepted for the specification after `checked` entries, which wasn't agreed any
    /// more.
    Stale { checked: u32, at: u32 },
    /// The outputs, and the bit of the probed cell.
    Out { outputs: Bits, probe: bool, at: u32 },
    /// Nothing ran in the slot.
    Vacant { at: u32 },
    /// The specification has `want` inputs, and another number of bits was given.
    Width { want: u32, at: u32 },
    /// The counts of ones; the first `outputs` are those of the specification.
    Ones { counts: Ones, outputs: u32, at: u32 },
}
