//! What texts are held to.

use device_list::Devices;
use rehearse_terms::Shell;
use std::marker::Model;

/// What texts are held to.
#[derive(Drop)]
pub struct Rules<'a> {
    /// The device list, if there is one.
    pub devices: Option<&'a Devices>,
    /// The shell that the call names, if it names one.
    pub shell: Option<Shell>,
    /// Whether a warning is a fault.
    pub strict: bool,
}

impl<'a> Model for Rules<'a> {
    ghost use Rattle.hushcheck.specs.Rules as spec;
    ghost use Rattle.std.specs.Prelude.{option_map};

    ghost Value = { spec.Rules };

    ghost view = { λ r. record {
      devices = option_map (λ d. d.now) r.devices;
      shell = r.shell;
      strict = r.strict;
    } };
}
