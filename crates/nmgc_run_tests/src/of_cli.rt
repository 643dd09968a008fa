//! The top call over memory. The program's output for scripts, images and other arguments is in `examples`; here are the
//! tests that files can't express.
//!
//! - `faults`: scripts that are cut, and sources and sinks that fail. The longest scripts are in `examples/compare`.
//! - `marks`: two markers under a gate. `lines`: command lines, and the numbers of statuses. `running`: shared code.
//!
//! Tables are checked by one function each, whose proof sees no row of them.
mod faults;
mod lines;
mod marks;
mod running;
