//! The fact that a search by clause learning keeps of its levels: each level below the present one was
//! left with every live clause settled, that is with a true literal or two literals without a value.
//!
//! So a clause that a conflict teaches isn't live, and the search gets on. `specs/Levels` has the
//! definitions, and the functions here, which do nothing, have the laws as their contracts.
#![tactic(auto)]

mod laws;
