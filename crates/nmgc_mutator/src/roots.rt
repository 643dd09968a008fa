//! The parts of a mutator that a stop reads and changes, lent in place.
ghost use Rattle.std.specs.{Prelude.length, Prelude.refl, List.refill};
ghost use Rattle.nmgc_heap_spec.specs.Emptied.{emptied};
ghost use Rattle.nmgc_mutator.specs.{AtStop.cleared, laws.Refilled.refill_all};

use crate::mutator::Mutator;
use nmgc_heap_spec::MutatorRoots;
use nmgc_object::{Address, FinQueue, Nursery};

impl MutatorRoots for Mutator {
    ghost registers = { λ m. m.registers };

    ghost queue = { λ m. m.queue };

    ghost nursery = { λ m. m.nursery };

    ghost recorded = { λ m. m.recorded.items };

    ghost young_weaks = { λ m. m.young_weaks.items };

    ghost with_registers = { λ m words. record m { registers = refill (length m.registers) m.registers words } };

    ghost with_queue = { λ m q. record m { queue = q } };

    ghost after_stop = { λ m. record m { nursery = emptied m.nursery; recorded = cleared m.recorded; young_weaks = cleared m.young_weaks; finalised = cleared m.finalised } };

    fn registers(&self) -> &[u64] {
        self.registers.items()
    }

    fn registers_mut(&mut self) -> &mut [u64] {
        self.registers.items_mut()
    }

    fn queue(&self) -> &FinQueue {
        &self.queue
    }

    fn queue_mut(&mut self) -> &mut FinQueue {
        &mut self.queue
    }

    fn nursery(&self) -> Nursery {
        self.nursery
    }

    fn recorded(&self) -> &[Address] {
        self.recorded.items()
    }

    fn young_weaks(&self) -> &[Address] {
        self.young_weaks.items()
    }

    fn forget_round(&mut self) {
        self.nursery.top = self.nursery.base;
        self.recorded.clear();
        self.young_weaks.clear();
        self.finalised.clear();
    }

    ghost own_registers = { λ m words e. refill_all m.registers words e };

    ghost own_queue = { λ m q. refl };

    ghost same_queue = { λ m. refl };

    ghost last_queue = { λ m first last. refl };

    ghost registers_apart = { λ m words. refl };

    ghost queue_apart = { λ m q. refl };

    ghost registers_nursery = { λ m words. refl };

    ghost queue_nursery = { λ m q. refl };

    ghost registers_recorded = { λ m words. refl };

    ghost registers_young = { λ m words. refl };

    ghost queue_recorded = { λ m q. refl };

    ghost queue_young = { λ m q. refl };

    ghost registers_stay = { λ m. refl };

    ghost queue_stays = { λ m. refl };

    ghost nursery_empties = { λ m. refl };

    ghost none_recorded = { λ m. refl };

    ghost none_young = { λ m. refl };
}
