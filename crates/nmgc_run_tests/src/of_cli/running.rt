//! Code that the tests of the top call share: the end of a run, and arguments.
use nmgc_cli::Ended;
use nmgc_io::MemorySink;
use std::alloc::{AllocError, Global};

// The result of a run: its end, and the bytes in the sink.
pub struct Run {
    pub ended: Ended,
    pub sink: MemorySink,
}

// Written by hand, so that each drop calls this function.
impl Drop for Run {
    fn drop(self) {
        let Run { ended, sink } = self;
        drop(ended);
        drop(sink);
    }
}

// Returns the arguments as a list of strings.
pub fn all_arguments(alloc: Global, arguments: &[&str]) -> Result<Vec<String>, AllocError> {
    let mut all = Vec::new(alloc);
    for argument in arguments {
        all.push(String::from_str(alloc, argument)?)?;
    }
    Ok(all)
}
