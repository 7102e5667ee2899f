/// How a derived clause stands in the search.
#[derive(Clone, Copy, Debug, PartialEq, Eq)]
pub enum Standing {
    /// It was put into the trail when it was derived, and may be forgotten.
    Learned,
    /// It isn't in the trail. The log keeps it, under its index.
    Forgotten,
    /// A conflict gave it again, and it was put back into the trail; it isn't forgotten again.
    Back,
}
