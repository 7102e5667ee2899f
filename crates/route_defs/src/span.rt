/// The channels on which a signal is live: those from `first` on and before `end`. A signal that
/// nothing uses has the end 0.
#[derive(Clone, Copy, Debug, PartialEq, Eq)]
pub struct Span {
    /// The first channel on which it is live.
    pub first: u32,
    /// One more than the last channel on which it is live.
    pub end: u32,
}
