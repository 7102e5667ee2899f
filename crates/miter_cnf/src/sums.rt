//! Where the rows of each node and the cells of the cone begin: sums of counts, from the front.

ghost use Rattle.std.specs.Prelude.{◌≡◌, ◌+◌, ◌^◌, ◌<◌, length, map, sum, IfOk};
ghost use Rattle.std.specs.List.{count_by};
ghost use Rattle.net_defs.specs.Networks.{Node};
ghost use Rattle.fabric_defs.specs.Numbered.{list_of};
ghost use Rattle.miter_cnf.specs.Numbered.{sum_before, flags_before};

use netlist::Net;
use std::alloc::{AllocError, Global};

/// How many rows each node has.
pub(crate) fn row_counts(alloc: Global, net: &Net) -> Result<Vec<u32>, AllocError>
    ensures { IfOk result (λ counts. counts.items
        ≡ map (λ (node : Node). length node.rows) net.now.nodes) }
{
    let mut counts = Vec::with_capacity(alloc, net.nodes() as usize)?;
    for v in 0..net.nodes() {
        counts.push(net.node_rows(v).len() as u32)?;
    }
    Ok(counts)
}

/// For each count the sum of those before it, from `first` on.
pub(crate) fn sums_before(alloc: Global, first: u32, counts: &[u32]) -> Result<Vec<u32>, AllocError>
    requires { first + sum counts.now < 2 ^ 32 }
    ensures { IfOk result (λ sums. sums.items
        ≡ list_of (length counts.now) (sum_before first counts.now)) }
{
    let mut sums = Vec::with_capacity(alloc, counts.len())?;
    let mut next = first;
    for count in counts {
        sums.push(next)?;
        next += *count;
    }
    Ok(sums)
}

/// For each flag how many before it are true, from `first` on.
pub(crate) fn flags_before(
    alloc: Global,
    first: u32,
    flags: &[bool],
) -> Result<Vec<u32>, AllocError>
    requires { first + count_by (λ b. b) flags.now < 2 ^ 32 }
    ensures { IfOk result (λ numbers. numbers.items
        ≡ list_of (length flags.now) (flags_before first flags.now)) }
{
    let mut numbers = Vec::with_capacity(alloc, flags.len())?;
    let mut next = first;
    for flag in flags {
        numbers.push(next)?;
        next += u32::from(*flag);
    }
    Ok(numbers)
}

/// How many flags are true.
pub(crate) fn count_flags(flags: &[bool]) -> usize
    ensures { result ≡ count_by (λ b. b) flags.now }
{
    flags.iter().filter(|flag| **flag).count()
}
