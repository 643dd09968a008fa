//! Command lines, and the numbers of statuses.
ghost use Rattle.std.specs.Prelude.{None};

use nmgc_cli::{CommandLine, Status, arguments_of};
use std::env::FillError;
use std::test::Fail;

// A command line in memory.
#[derive(Drop)]
struct Line<'a> {
    arguments: &'a [&'a [u8]],
}

impl<'a> CommandLine for Line<'a> {
    ghost arguments = { λ _. None };

    fn argument(&self, place: usize, buf: &mut [u8]) -> Result<usize, FillError> {
        let Some(argument) = self.arguments.get(place) else {
            return Err(FillError::NotPresent);
        };
        if argument.len() > buf.len() {
            return Err(FillError::TooLong);
        }
        buf[..argument.len()].copy_from_slice(argument);
        Ok(argument.len())
    }
}

#[test]
fn all_arguments_are_passed_on(rt: HostRuntime) -> Result<(), Fail> {
    let (long, longer) = ([b'x'; 256], [b'y'; 257]);
    let arguments: [&[u8]; 6] = [b"nmgc", b"run", b"\xff", &long, &longer, b""];
    let long = str::from_utf8(&long).ok().ok_or("no text")?;
    let passed = arguments_of(
        rt.alloc(),
        &Line {
            arguments: &arguments,
        },
    )?;
    let mut places = passed.iter();
    for want in ["run", "", long, "", ""] {
        assert!(rt; places.next().ok_or("an argument is missing")?.as_str() == want);
    }
    assert!(rt; places.next().is_none());
    Ok(())
}

#[test]
fn statuses_have_numbers(rt: HostRuntime) {
    let rows: [(Status, u8); 9] = [
        (Status::Done, 0),
        (Status::Usage, 2),
        (Status::ReadFault, 3),
        (Status::WriteFault, 4),
        (Status::BadScript, 5),
        (Status::TooLong, 5),
        (Status::HeapFull, 6),
        (Status::NoMemory, 7),
        (Status::BadImage, 9),
    ];
    for (status, number) in rows {
        assert!(rt; status.number() == number);
    }
}
