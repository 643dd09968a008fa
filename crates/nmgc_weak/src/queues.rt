//! Finalisers join the queues of their makers.
ghost use Rattle.std.specs.Prelude.{map};
ghost use Rattle.nmgc_weak.specs.Queues.{HaveRoom, HaveJoined};

use crate::weaks::Death;
use nmgc_heap_spec::MutatorRoots;
use nmgc_object::words::NIL_WORD;

/// Appends the finaliser of each death to the queue of the weak pointer's maker, unless the finaliser is nil, in the order of
/// the deaths. Requires that each of these makers is a mutator and its queue has room. Only queues change. Takes no memory.
pub fn queue_finalisers<M: MutatorRoots>(deaths: &[Death], mutators: &mut [M])
    requires { HaveRoom deaths.now (map M.queue mutators.old) }
    ensures { HaveJoined M.queue M.with_queue deaths.now mutators.old mutators.new }
{
    for death in deaths {
        if death.finaliser != NIL_WORD {
            mutators[usize::from(death.weak.maker)]
                .queue_mut()
                .add(death.finaliser);
        }
    }
}
