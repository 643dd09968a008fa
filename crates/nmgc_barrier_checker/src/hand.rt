//! A value that goes from mutator to mutator past all objects, as through a channel. The heap takes it as a command of the
//! first mutator. If the first isn't scanned in a cycle with later roots and the second is, no scan will find the value.
ghost use Rattle.std.specs.Prelude.{◌≡◌, ◌↔◌, IfOk, IsTrue};
ghost use Rattle.nmgc_barrier_checker.specs.{Cycles.Hands, Dues.given_names};

use crate::due::owable_names;
use nmgc_graph::World;
use nmgc_graph::opened::names_among;
use nmgc_limits::REGISTERS;
use nmgc_lists::NoMemory;
use nmgc_world_spec::{Command, Name, Operand, Value};

/// A value of the mutator `giver` that goes into the register `dest` of the mutator `taker`, perhaps the same.
#[derive(Clone, Copy, Debug, PartialEq, Eq)]
pub struct Hand {
    pub giver: u8,
    pub value: Operand,
    pub taker: u8,
    pub dest: u8,
}

/// Whether a world can hand the value over: both mutators and both registers exist, and the giver has a serial left.
pub(crate) fn can_hand(world: &World, hand: Hand) -> bool
    ensures { IsTrue result ↔ Hands world.now hand }
{
    let show = Command::Show { value: hand.value };
    let shows = world.can_apply(hand.giver, &show);
    shows && hand.taker < world.mutators() && hand.dest < REGISTERS
}

/// Returns the names that come due if this value is handed over. There are none unless the taker is scanned and the giver
/// isn't.
pub(crate) fn given_names(
    is_scanned: bool,
    is_taker_scanned: bool,
    snapshot: &World,
    value: Value,
) -> Result<Vec<Name>, NoMemory>
    ensures { IfOk result (λ names. names.items ≡ given_names is_scanned is_taker_scanned snapshot.now value) }
{
    if is_scanned || !is_taker_scanned {
        return Ok(Vec::new(snapshot.alloc()));
    }
    let names = names_among(snapshot.alloc(), &[value])?;
    owable_names(snapshot, names.as_slice())
}
