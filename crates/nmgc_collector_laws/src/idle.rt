//! The laws of a round and its stop while no cycle marks. Each contract is the law. A body calls the laws that it needs.
ghost use Rattle.nmgc_collector_laws.specs.Turn.{RestOpens, SlicesAreGathered, RoundIsHistory, RootsAreLeft, BirthsAreInOrder, RoundIsRemembered, RoundListsFinalised, RoundIsStopped, SettledIsAtRest};

use nmgc_round::laws::{
    events_are_a_history, histories_have_the_rows, old_stacks_are_listed, replies_are_named,
};

/// Proves that a round can open from a heap at rest, with the heap's world. At rest means that no cycle is marking, that
/// words, blocks and mutators represent a world, and that nurseries and lists for the stop are empty.
pub fn a_heap_at_rest_opens_a_round()
    ensures { RestOpens }
{}

/// Proves that once each mutator has done its slice from its own seat, the seats together have all parts of the round. A seat
/// is a mutator's access to the round. Each part has its mutator's commands and replies. Requires that the round could open,
/// and that the mutators began at rest (`SlicesAreDone`).
pub fn slices_are_gathered()
    ensures { SlicesAreGathered }
{}

/// Proves that the commands of a finished round have a legal order. In it, each mutator's commands are in the order in which
/// it did them, with the replies that it got. The world after the round is the world after the commands in this order.
pub fn a_round_is_a_history()
    ensures { RoundIsHistory }
{
    events_are_a_history();
    histories_have_the_rows();
    replies_are_named();
}

/// Proves that after a finished round its mutators' registers, queues and serials (`HaveWorked`) represent the world's roots.
pub fn roots_are_represented()
    ensures { RootsAreLeft }
{}

/// Proves that after a finished round the new objects lie in the used parts of the nurseries, in the order of names.
pub fn new_objects_are_in_order()
    ensures { BirthsAreInOrder }
{}

/// Proves that in a finished round the mutators recorded all fields that refer to new objects and belong to tracked older
/// objects, except slots of g. They recorded only specified fields of tracked older objects. The weak pointers that they
/// noted are new, and include all new weak pointers that are alive.
pub fn promotion_fields_are_recorded()
    ensures { RoundIsRemembered }
{
    events_are_a_history();
    old_stacks_are_listed();
}

/// Proves that after a finished round the lists of finalised weak pointers are complete. They have the address of each weak
/// pointer that lies in a segment, was alive before the round and isn't alive now. They have no address in a nursery.
pub fn finalised_are_listed()
    ensures { RoundListsFinalised }
{
    events_are_a_history();
    old_stacks_are_listed();
}

/// Proves that a finished round leaves a heap at a stop (`IsStopped`), with all that the stop's promotion needs. Requires
/// sound segments, and that the reserve is free or all nurseries are empty. As the round began, the places in segments have
/// to be exactly the blocks in use, and the worlds that the collector uses have to be earlier worlds (`AreEarlier`).
pub fn a_round_leaves_a_heap_at_a_stop()
    ensures { RoundIsStopped }
{
    events_are_a_history();
    roots_are_represented();
    new_objects_are_in_order();
    promotion_fields_are_recorded();
}

/// Proves that a promotion (`IsSettled`) leaves the heap at rest, if the collector uses no earlier world afterwards. Requires
/// that the mutators' nurseries and lists were emptied, and that their registers and queues were forwarded (`AreForwarded`).
pub fn a_promotion_leaves_a_heap_at_rest()
    ensures { SettledIsAtRest }
{}
