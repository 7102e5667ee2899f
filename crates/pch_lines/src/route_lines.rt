//! The line that says of what a fabric has too little.

ghost use Rattle.std.specs.Prelude.{◌≡◌, IfOk};
ghost use Rattle.pch_lines.specs.RouteLines.{resource_word as word_of, unroutable_line};

use crate::line::Line;
use pch_base::NoMemory;
use route_defs::{Demand, Resource};
use std::alloc::Global;

/// The word of a resource.
fn resource_word(resource: Resource) -> &'static str
    ensures { result.now ≡ word_of resource }
{
    match resource {
        Resource::InputPads => "input-pads",
        Resource::OutputPads => "output-pads",
        Resource::Columns => "columns",
        Resource::Cells => "cells",
        Resource::Tracks => "tracks",
    }
}

/// The line of a demand that is over.
pub fn unroutable_line(alloc: Global, demand: Demand) -> Result<Vec<u8>, NoMemory>
    ensures { IfOk result (λ text. text.items ≡ unroutable_line demand) }
{
    Line::new(alloc, "unroutable")?
        .word(resource_word(demand.resource))?
        .number(demand.place)?
        .number(demand.need)?
        .number(demand.have)?
        .end()
}
