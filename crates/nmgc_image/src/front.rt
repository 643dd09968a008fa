//! The lines of a text up to the first that may not come next. Plain lines, which are nearly all node lines of constructors,
//! are read in one pass. All other lines are read by their tokens.
ghost use Rattle.std.specs.Prelude.{◌≡◌, IfOk};
ghost use Rattle.nmgc_image.specs.{Known.test_of, Plain.IsPlain, Reading.Advances, Reading.AreRead};

use crate::LineFault;
use crate::image::Entry;
use crate::known::Known;
use crate::plain::Cursor;
use crate::reader::Reader;
use crate::text::{Lines, next_line};
use nmgc_io::cut_tokens;
use nmgc_lists::NoMemory;
use std::alloc::Global;

/// Reads the lines of a text up to the first that may not come next, or to the end. Returns their content; `lines` is then at
/// that point. Requires that `lines` is at line 1. Takes time proportional to the lines read, beside the look-ups of names.
pub(crate) fn read_lines(
    alloc: Global,
    known: &Known,
    lines: &mut Lines,
) -> Result<Reader, NoMemory>
    requires { lines.old.number ≡ 1 }
    ensures { IfOk result (λ reader. AreRead (test_of known.now) lines.old.rest.now reader lines.new.number lines.new.rest.now) }
{
    let mut reader = Reader::new(alloc);
    let mut tokens = Vec::new(alloc);
    'line: loop {
        match take_next(alloc, known, lines, &mut tokens, &mut reader) {
            Ok(()) => {}
            Err(LineFault::Bad) => return Ok(reader),
            Err(LineFault::NoMemory) => return Err(NoMemory),
        }
    }
}

// Takes the next line. `Bad` means that the line may not come next or that there is none; `lines` and `reader` stay then.
fn take_next<'a>(
    alloc: Global,
    known: &Known,
    lines: &mut Lines<'a>,
    tokens: &mut Vec<&'a [u8]>,
    reader: &mut Reader,
) -> Result<(), LineFault>
    ensures { Advances (test_of known.now) result reader.old reader.new lines.old lines.new }
{
    let mut cursor = Cursor::new(lines.rest);
    match cursor.entry(alloc) {
        Ok(entry) => take_plain(known, lines, reader, entry, cursor.rest),
        Err(LineFault::NoMemory) => Err(LineFault::NoMemory),
        Err(LineFault::Bad) => take_by_tokens(alloc, known, lines, tokens, reader),
    }
}

// Takes `entry`, the object of the next line, and goes on to `after`, the text behind that line. `Bad` as for `take_next`.
fn take_plain<'a>(
    known: &Known,
    lines: &mut Lines<'a>,
    reader: &mut Reader,
    entry: Entry,
    after: &'a [u8],
) -> Result<(), LineFault>
    requires { IsPlain lines.old.rest.now entry after.now }
    ensures { Advances (test_of known.now) result reader.old reader.new lines.old lines.new }
{
    reader.take_object(known, entry)?;
    lines.pass(after);
    Ok(())
}

// Takes the next line by its tokens, which it collects in `tokens`. `Bad` as for `take_next`.
fn take_by_tokens<'a>(
    alloc: Global,
    known: &Known,
    lines: &mut Lines<'a>,
    tokens: &mut Vec<&'a [u8]>,
    reader: &mut Reader,
) -> Result<(), LineFault>
    ensures { Advances (test_of known.now) result reader.old reader.new lines.old lines.new }
{
    let Some((line, after)) = next_line(lines.rest) else {
        return Err(LineFault::Bad);
    };
    cut_tokens(tokens, line)?;
    reader.take_line(alloc, known, tokens)?;
    lines.pass(after);
    Ok(())
}
