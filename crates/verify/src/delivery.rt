//! The miter of a bundle, whatever its trace is: for whoever wants to refute it.

ghost use Rattle.std.specs.Prelude.{◌≡◌, IfOk, IfErr};
ghost use Rattle.net_defs.specs.Networks.{Network};
ghost use Rattle.sat_values.specs.CnfFormula.{formula_of};
ghost use Rattle.verify_defs.specs.Deliveries.{HasConfig, IsDeliveredMiter, LacksMiter};

use bundle::read_bundle;
use extract::extract;
use fabric::Config;
use fabric_bytes::read_config;
use miter_cnf::{fits_pads, miter_clauses};
use netlist::Net;
use sat_text::Cnf;
use std::alloc::Global;
use verify_defs::MiterError;

/// The miter of a net and the configuration of a bundle, where the net fits the pads of the bundle's
/// fabric; else the first test that fails, or `NoMemory`. The bundle's trace isn't looked at.
pub fn delivered_miter(alloc: Global, net: &Net, bytes: &[u8]) -> Result<Cnf, MiterError>
    ensures miter { IfOk result (λ f. IsDeliveredMiter net.now bytes.now (formula_of f)) }
    ensures fault { IfErr result (LacksMiter net.now bytes.now) }
{
    let config = match config_of(alloc, bytes) {
        Ok(config) => config,
        Err(error) => return Err(error),
    };
    if !fits_pads(net, config.geometry()) {
        return Err(MiterError::Pads);
    }
    let cells = extract(alloc, &config)?;
    Ok(miter_clauses(alloc, net, &cells)?)
}

/// The configuration of a bundle, for the bundle's own fabric.
fn config_of(alloc: Global, bytes: &[u8]) -> Result<Config, MiterError>
    ensures config { IfOk result (HasConfig bytes.now) }
    ensures fault { IfErr result (λ e. (net : Network) → LacksMiter net bytes.now e) }
{
    let bundle = match read_bundle(bytes) {
        Ok(bundle) => bundle,
        Err(fault) => return Err(MiterError::Bundle(fault)),
    };
    Ok(read_config(alloc, bundle.geometry, bundle.config)?)
}
