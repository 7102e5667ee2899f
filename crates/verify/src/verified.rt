ghost use Rattle.std.specs.Prelude.{◌≡◌};
ghost use Rattle.std.specs.Arc.{arc_value};
ghost use Rattle.miter_defs.specs.Equality.{Equal};

use fabric::Config;
use netlist::Net;
use std::marker::Model;
use std::sync::Arc;

/// A net and a configuration that are equal: for every input of the net, the first output pads of the
/// configured fabric have the outputs of the net. Contracts see the record of both.
///
/// Only `verify` makes one.
#[derive(Drop)]
pub struct Verified {
    pub(crate) net: Arc<Net>,
    pub(crate) config: Arc<Config>,
}

impl Model for Verified {
    ghost use Rattle.std.specs.Arc.{arc_value};
    ghost use Rattle.miter_defs.specs.Equality.{Equal};
    ghost use Rattle.verify.specs.Checked.{Checked};

    ghost Value = { Checked };

    ghost view = { λ v. record { net = arc_value v.net; config = arc_value v.config } };

    ghost invariant = { λ v. Equal (arc_value v.net) (arc_value v.config) };
}

impl Verified {
    /// The net.
    pub fn net(&self) -> &Arc<Net>
        ensures net { arc_value result.now ≡ self.now.net }
        ensures equal { Equal self.now.net self.now.config }
    {
        &self.net
    }

    /// The configuration.
    pub fn config(&self) -> &Arc<Config>
        ensures config { arc_value result.now ≡ self.now.config }
        ensures equal { Equal self.now.net self.now.config }
    {
        &self.config
    }

    /// The net and the configuration, given up.
    pub fn into_parts(self) -> (Arc<Net>, Arc<Config>)
        ensures net { arc_value result.0 ≡ self.net }
        ensures config { arc_value result.1 ≡ self.config }
        ensures equal { Equal self.net self.config }
    {
        (self.net, self.config)
    }
}
