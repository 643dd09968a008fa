//! A command line in memory.
ghost use Rattle.std.specs.Prelude.{None};

use nmgc_arguments::CommandLine;
use std::env::FillError;

/// The words of a command line, the program's name among them.
#[derive(Drop)]
pub(crate) struct Words<'a> {
    pub(crate) words: &'a [&'a [u8]],
}

impl<'a> CommandLine for Words<'a> {
    ghost arguments = { λ _. None };

    fn argument(&self, place: usize, buf: &mut [u8]) -> Result<usize, FillError> {
        let Some(word) = self.words.get(place) else {
            return Err(FillError::NotPresent);
        };
        if word.len() > buf.len() {
            return Err(FillError::TooLong);
        }
        buf[..word.len()].copy_from_slice(word);
        Ok(word.len())
    }
}
