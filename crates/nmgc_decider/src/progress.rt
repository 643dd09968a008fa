//! A gate that prints how many commands were tried, for runs that take long.
//!
//! It lets each thread pass at once. Only mutator 0 prints, so lines don't mix. Easy to get wrong: a command that waits for room is
//! tried again, so there may be more tries than commands.
use nmgc_round::Gate;

/// The number of tries of mutator 0 from one line to the next.
pub const TRIES_A_LINE: u64 = 1 << 22;

/// A gate that prints a line for each `TRIES_A_LINE` tries of mutator 0.
#[derive(Drop)]
pub struct Progress<'a, L> {
    /// The stream of the lines, as `&rt.stderr()`.
    pub log: &'a L,
    /// The program's name, with which each line begins.
    pub name: &'a str,
    /// The greatest number of commands of mutator 0.
    pub most: u64,
}

impl<'a, L: Print + Sync> Gate for Progress<'a, L> {
    fn pass(&self, who: u8, turn: u64) {
        if who == 0 && turn % TRIES_A_LINE == 0 {
            drop(println!(self.log;
                "{}: {turn} tries of mutator 0, which gives at most {} commands",
                self.name, self.most
            ));
        }
    }
}
