use crate::clauses::Clauses;

/// A list of clauses over the variables 1 to `variables`.
#[derive(Debug, Drop)]
pub struct Cnf {
    pub variables: u32,
    pub clauses: Clauses,
}
