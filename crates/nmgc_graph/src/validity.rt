//! Whether a mutator can give a command.
//!
//! A script keeps to the registers and serials that exist. A caller that gets commands from elsewhere has to check them.
ghost use Rattle.std.specs.Prelude.{◌↔◌, IsTrue};

use crate::World;
use nmgc_world_spec::Command;

impl World {
    ghost use Rattle.nmgc_world_spec.specs.Known.{CanApply};

    /// Returns whether `apply` takes a command: the mutator and the command's registers exist, and there is a serial for one
    /// more object. Takes no memory, and the time of `Command::has_registers`.
    pub fn can_apply(&self, mutator: u8, command: &Command) -> bool
        ensures { IsTrue result ↔ CanApply self.now mutator command.now }
    {
        mutator < self.mutators() && command.has_registers() && self.serial(mutator) < u32::MAX
    }
}
