use crate::items::Items;
use crate::reply::Reply;
use script_defs::Line;

/// What a session has done: its journal, and the replies of each lane. `transcript_of` gives the plain
/// record that definitions speak of.
#[derive(Debug, Drop)]
pub struct Transcript {
    /// The entries of the journal, of which the first has the number 1.
    pub journal: Items<Line>,
    /// The replies of each lane, one for each of its commands.
    pub lanes: Items<Items<Reply>>,
}
