//! Tests of rounds, mutators, promotion, reports, marking by one and by several markers, sweeping and weak pointers: the
//! module `of_CRATE` has the tests of a crate.
#![tactic(auto)]

// A layout in one line.
#[cfg(test)]
macro_rules! layout {
    (segments: $segments:expr, words: $words:expr, nursery: $nursery:expr, mutators: $mutators:expr) => {
        Layout { segments: $segments, words: $words, nursery: $nursery, mutators: $mutators }
    };
}

// A name in a constant.
#[cfg(test)]
macro_rules! name {
    ($maker:expr, $serial:expr) => {
        Name { maker: $maker, serial: $serial }
    };
}

#[cfg(test)]
mod of_collector_laws;
#[cfg(test)]
mod of_journal;
#[cfg(test)]
mod of_mark;
#[cfg(test)]
mod of_minor;
#[cfg(test)]
mod of_mutator;
#[cfg(test)]
mod of_pmark;
#[cfg(test)]
mod of_round;
#[cfg(test)]
mod of_run_laws;
#[cfg(test)]
mod of_stop_spec;
#[cfg(test)]
mod of_sweep;
#[cfg(test)]
mod of_weak;
