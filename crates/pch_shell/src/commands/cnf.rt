//! `cnf SPEC BUNDLE`: the miter of a specification and the configuration of a bundle is printed.

ghost use Rattle.std.specs.Prelude.{◌≡◌, ◌≢◌, IfOk, codes};
ghost use Rattle.verify_defs.specs.declared.miter_error.MiterError.{MiterError};
ghost use Rattle.pch_lines.specs.Lines.{and_word};
ghost use Rattle.pch_lines.specs.FaultLines.{miter_error_line};
ghost use Rattle.pch_shell.specs.Outcomes.{bad_input};
ghost use Rattle.pch_shell.specs.Cnf.{CnfDue};

use crate::commands::verifying::bad_spec;
use crate::ending::Ending;
use netlist::read_specification;
use pch_base::NoMemory;
use pch_lines::{Line, miter_error_line};
use sat_text::print_cnf;
use std::alloc::Global;
use verify::{MiterError, delivered_miter};

/// Reads and builds the specification, and prints its miter with the bundle's configuration.
pub fn run(
    alloc: Global,
    spec: &str,
    bundle: &str,
    spec_bytes: Vec<u8>,
    bundle_bytes: Vec<u8>,
) -> Result<Ending, NoMemory>
    ensures { IfOk result (CnfDue spec.now bundle.now spec_bytes.items bundle_bytes.items) }
{
    let net = match read_specification(alloc, &spec_bytes) {
        Ok(net) => net,
        Err(error) => return bad_spec(alloc, spec, error),
    };
    drop(spec_bytes);
    let miter = match delivered_miter(alloc, &net, &bundle_bytes) {
        Ok(miter) => miter,
        Err(error) => return bad_bundle(alloc, bundle, error),
    };
    drop(bundle_bytes);
    Ok(Ending::done(print_cnf(alloc, &miter)?))
}

/// The bundle gives no miter.
fn bad_bundle(alloc: Global, name: &str, error: MiterError) -> Result<Ending, NoMemory>
    ensures ending { IfOk result (λ e.
        e ≡ bad_input (miter_error_line (and_word (codes "bundle") name.now) error)) }
    ensures fault { IfOk result (λ _. error ≢ MiterError.NoMemory) }
{
    let front = Line::new(alloc, "bundle")?.word(name)?;
    Ok(Ending::bad_input(miter_error_line(front, error)?))
}
