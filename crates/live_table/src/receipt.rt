use crate::front::Front;

/// What is handed out for an entry.
#[derive(Drop)]
pub struct Receipt {
    /// The number of the entry, counted from 1.
    pub at: u32,
    /// Stands for the journal that ends with the entry.
    pub front: Front,
}
