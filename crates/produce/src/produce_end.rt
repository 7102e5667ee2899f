use net_defs::InterfaceError;
use pch_base::Bits;
use proof_log::Log;
use route_defs::Resource;

/// Why nothing was produced.
#[derive(Debug, Drop)]
pub enum ProduceEnd {
    /// The first name of the specification or the design that has no partner.
    Interface(InterfaceError),
    /// The first resource of the fabric of which more is needed than is there.
    Unroutable {
        resource: Resource,
        place: u32,
        need: u32,
        have: u32,
    },
    /// Where the inputs of the specification have the bits `x`, the design has other outputs.
    Differs {
        x: Bits,
    },
    /// The next clause is over the budget: `used` words are the log's, and `need` are the clause's.
    Spent {
        used: u32,
        need: u32,
        log: Log,
    },
    /// Memory was wanting.
    NoMemory,
}
