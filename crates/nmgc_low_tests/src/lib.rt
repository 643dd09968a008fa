//! Tests of lists, input and output, worlds, the marking machine, scripts, words, segments, rings and watched barriers: the
//! module `of_CRATE` has the tests of a crate.
#![tactic(auto)]

// A layout in one line.
#[cfg(test)]
macro_rules! layout {
    (segments: $segments:expr, words: $words:expr, nursery: $nursery:expr, mutators: $mutators:expr) => {
        Layout { segments: $segments, words: $words, nursery: $nursery, mutators: $mutators }
    };
}

// A name in a constant.
#[cfg(test)]
macro_rules! name {
    ($maker:expr, $serial:expr) => {
        Name { maker: $maker, serial: $serial }
    };
}

#[cfg(test)]
mod of_alloc;
#[cfg(test)]
mod of_barrier_checker;
#[cfg(test)]
mod of_commands;
#[cfg(test)]
mod of_core;
#[cfg(test)]
mod of_graph;
#[cfg(test)]
mod of_heap_spec;
#[cfg(test)]
mod of_io;
#[cfg(test)]
mod of_limits;
#[cfg(test)]
mod of_lists;
#[cfg(test)]
mod of_object;
#[cfg(test)]
mod of_script;
#[cfg(test)]
mod of_segment;
#[cfg(test)]
mod of_updrem;
#[cfg(test)]
mod of_world_laws;
