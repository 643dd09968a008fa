//! The laws of words that represent a world.
//!
//! Each function does nothing; its contract is the law, for all layouts, worlds, places and words. A place is an object's
//! address and name. A tracked name may still be used. A specified object has a tracked name, or lies in its maker's nursery.
//! Words beside g, the shared array, belong to no object. Three premises go without words: the world is closed (`IsWorld`),
//! earlier worlds are earlier (`AreEarlier`), and known nodes have the headers of the world's nodes (`HaveHeaders`). A round
//! knows its objects by their first nodes, whose permanent fields may still be read. Known nodes are a predicate, and no
//! clause ranges over predicates. So a type parameter represents it (`KnownNodes`), picked by `Brand`.
ghost use Rattle.nmgc_heap_spec.specs.Commands.{StepIsOne, StepChangesField, TrackedAreKnown, StepTracks, StepTracksNoMore, ClosingTracks, StepLeavesHeap, WorldIsEarlier, StepKeepsEarlier, ClosingKeepsEarlier, StepKeepsHeaders, ClosingKeepsHeaders};
ghost use Rattle.nmgc_heap_spec.specs.{Samples.SnapshotStands, Samples.WordsAreDetermined, Samples.NoSecondPlace, Written.HeaderIsShape, Written.NodeIsWritten, Written.WorldIsWritten, Written.PartsAreWritten};
ghost use Rattle.nmgc_heap_spec.specs.Statements.{OnePlace, OneMeaning, MeaningIsSet, MeaningIsField, FieldHasMeaning, OneNode, OneWorld, OneWording, SameHeap, FieldChange, NodeChange, UnbornStore, Birth, Move, MoveOfRoots, Remembrance, Agreement, DropOfPlaces, DropOfRoots, Addition, AdditionOfRoots};

use std::marker::Brand;

/// The known nodes: the nodes by which a round knows its objects.
pub trait KnownNodes {
    ghost use Rattle.nmgc_world_spec.specs.{declared.value.Name.Name, declared.node.Node.Node};

    ghost knows: { Name → Node → Type 0 };
}

/// Between rounds no node is known.
impl KnownNodes for Brand {
    ghost use Rattle.nmgc_heap_spec.specs.Represents.{NoNode};

    ghost knows = { NoNode };
}

/// Proves that, if words represent a world, a name has at most one place, and a field word at most one meaning. A word with a
/// meaning isn't 0, which is the word of an unset field.
pub fn words_have_one_meaning<K: KnownNodes>()
    ensures place { OnePlace K.knows }
    ensures word { OneMeaning K.knows }
    ensures set { MeaningIsSet K.knows }
{}

/// Proves that a word that means a value is the word of a field with this value, and conversely. The first part supposes that
/// words represent a world in a layout within the limits (`IsLayout`), and that the value isn't a number of 2^62 or more
/// (`IsSmall`). The field is then valid. The second part holds for any field and any places.
pub fn meanings_are_fields<K: KnownNodes>()
    ensures word { MeaningIsField K.knows }
    ensures field { FieldHasMeaning }
{}

/// Proves that words determine the tracked part of the world. If the same words represent two worlds at the same places, a
/// name tracked in both has the same header and the same specified fields in both. Clause `reach` is for a stop, with no
/// place in a nursery and no earlier world in use. If both worlds also have the same words for their roots, and equal lists
/// of weak pointers, they have the same wide reach, with the same headers and specified fields.
pub fn words_determine_the_world<K: KnownNodes, L: KnownNodes>()
    ensures node { OneNode K.knows L.knows }
    ensures reach { OneWorld K.knows L.knows }
{}

/// Proves that, if two lists of words represent the same world at the same places, they agree at the name word of each place.
/// If a place's name is tracked with each list's earlier worlds, they also agree at its header and specified fields.
pub fn the_world_determines_words<K: KnownNodes, L: KnownNodes>()
    ensures { OneWording K.knows L.knows }
{}

/// Proves that words that represent a world also represent another world with the same heap (`IsSameHeap`). Both worlds have
/// the same node for each place's name. Each name tracked in the other world is tracked in the first, with the same node.
pub fn words_stay_if_no_node_changes<K: KnownNodes>()
    ensures { SameHeap K.knows }
{}

/// Proves that words still represent the world after a field of a tracked object changes, and the field's word with it.
/// `ChangesField` has the premises: the new word is as the new node specifies, no other node changes, and no further name
/// becomes tracked. Proves also that a command's change of a world's node is in at most one field, which may change
/// (`MayChange`). Other fields stay, or become unspecified, as a thunk's free variables do when it gets its result.
pub fn fields_may_change<K: KnownNodes>()
    ensures words { FieldChange K.knows }
    ensures commands { NodeChange }
{}

/// Proves that words still represent the world after a store to an unspecified word (`IsUnborn`). Such a word isn't a place's
/// name word, isn't beside g, and isn't in an object that is tracked or lies in its maker's nursery.
pub fn unspecified_words_may_change<K: KnownNodes>()
    ensures { UnbornStore K.knows }
{}

/// Proves that words represent the world with one new object after the object's header is written. `IsBorn` has the premises.
/// Header and name are valid, and name and fields were written before. The object lies well (`LiesWell`), apart from every
/// name, header and specified object. No node had its name. No other node changes, and no other name becomes tracked. Each
/// node known afterwards (`L`) was known before (`K`), or is the new object's first node.
pub fn objects_may_be_made<K: KnownNodes, L: KnownNodes>()
    ensures { Birth K.knows L.knows }
{}

/// Proves that words still represent the world after nursery objects move into segments and all pointers follow. Forwarded
/// registers and queues then represent its roots. `Moves` and `StillSpoken` have the premises. In short, each tracked nursery
/// object moves once, to an address at which no object lay, and earlier worlds that are used afterwards had no nursery
/// object. After the move no node is known.
pub fn objects_may_move<K: KnownNodes>()
    ensures words { Move K.knows }
    ensures roots { MoveOfRoots K.knows }
{}

/// Proves that words still represent the world after the earlier worlds in use and the known nodes change as `Remembers`
/// allows. Each earlier world used afterwards was used before, or is the present world. Each node known afterwards (`L`) was
/// known before (`K`), or is a node of the present world.
pub fn worlds_may_be_remembered<K: KnownNodes, L: KnownNodes>()
    ensures { Remembrance K.knows L.knows }
{}

/// Proves that words still represent the world after places of untracked names are dropped, and that registers and queues
/// still represent its roots. `DropsPlaces` has the premise: free variables of a tracked object in an earlier world, and
/// permanent fields of its known nodes, refer only to tracked names. Clause `rest`: if words represent a world, other words
/// that agree with them at every name, in every specified object and beside g represent it too (`AgreeWhereKnown`).
pub fn places_may_be_dropped<K: KnownNodes>()
    ensures words { DropOfPlaces K.knows }
    ensures roots { DropOfRoots K.knows }
    ensures rest { Agreement K.knows }
{}

/// Proves that words still represent the world after places are added. `AddsPlaces` has the premises. All places are in use
/// and differ in name and address, and none lies inside a specified object. An object in its maker's nursery lies there as
/// `Represents` requires. With any added places, registers and queues still represent the roots.
pub fn places_may_be_added<K: KnownNodes>()
    ensures words { Addition K.knows }
    ensures roots { AdditionOfRoots }
{}

/// Proves that a command that can be applied changes no node, or one node in one field (`ChangesAt`), or makes one node with
/// the mutator's next name. A change of a tracked object's field fulfils `ChangesField`, the premise of `fields_may_change`,
/// if the object has a place and the field's new word is as the new node specifies.
pub fn command_is_one_change()
    ensures step { StepIsOne }
    ensures field { StepChangesField }
{}

/// Proves that, after a command that can be applied, a name is tracked only if it was before or is the mutator's next name.
/// After a closing, and after a command that makes no object, no further name is tracked. All tracked names are names of the
/// world. After a command that changes no node, the heap is the same (`IsSameHeap`).
pub fn only_new_objects_become_tracked()
    ensures known { TrackedAreKnown }
    ensures step { StepTracks }
    ensures no_more { StepTracksNoMore }
    ensures closing { ClosingTracks }
    ensures heap { StepLeavesHeap }
{}

/// Proves that commands that can be applied, and closings, change no header. After them, an earlier world (`IsEarlier`) is
/// still an earlier world. A world is an earlier world of itself. Known nodes still have the headers of the world's nodes
/// (`HaveHeaders`), if the world has the names of all known nodes.
pub fn headers_stay<K: KnownNodes>()
    ensures itself { WorldIsEarlier }
    ensures step { StepKeepsEarlier }
    ensures closing { ClosingKeepsEarlier }
    ensures step_known { StepKeepsHeaders K.knows }
    ensures closing_known { ClosingKeepsHeaders K.knows }
{}

/// Proves that a node's header has the node's kind, tag and number of fields, and gives the number of words of the node's
/// object. If a node is within the limits of a script and isn't g's, its header is valid and its object fits into a segment.
/// In a world within the limits, g's header is valid too. If words represent a world, each place's name lies where
/// `nmgc_object` puts it. The same holds of the header and the specified fields of each tracked object.
pub fn objects_have_words<K: KnownNodes>()
    ensures shape { HeaderIsShape }
    ensures node { NodeIsWritten }
    ensures world { WorldIsWritten }
    ensures parts { PartsAreWritten K.knows }
{}

/// Proves that the definitions can be met: certain words represent a small world, and certain registers and an empty queue
/// represent its roots. In this world a variable holds the only reference to an object.
pub fn a_small_world_has_words()
    ensures { SnapshotStands }
{}

/// Proves that words that represent the world of `a_small_world_has_words` at the same places have the header, name and
/// pointer of its variable. If the first object's name also has a place at another address, no words represent any world.
pub fn wrong_words_fail<K: KnownNodes>()
    ensures words { WordsAreDetermined K.knows }
    ensures places { NoSecondPlace K.knows }
{}
