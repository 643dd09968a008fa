//! The texts of refusals.
ghost use Rattle.std.specs.Prelude.{◌≡◌, IfOk, codes};
ghost use Rattle.nmgc_journal.specs.Text.{count_line};
ghost use Rattle.nmgc_cli.specs.{Parts.IsBad, Output.refusal_text, Output.cause_text, Parts.bad_line};

use crate::answer::Refusal;
use nmgc_io::push_number;
use nmgc_lists::NoMemory;
use nmgc_script::Cause;
use std::alloc::Global;

/// Returns the text of a refusal. Requires that the refusal reports no bad line: then its text is fixed. Takes no memory.
pub fn message(refusal: Refusal) -> &'static [u8]
    requires { IsBad refusal → ⊥ }
    ensures { result.now ≡ refusal_text refusal }
{
    match refusal {
        Refusal::Usage =>
            b"usage: nmgc run | nmgc bench N | nmgc upgrade | nmgc image | nmgc retain NAME | nmgc marks N | nmgc live [-k|-t]\n",
        Refusal::ReadFault => b"read fault\n",
        Refusal::TooLong => b"too long\n",
        Refusal::Bad { .. } | Refusal::BadImage { .. } => unreachable!(),
        Refusal::NoMemory => b"no memory\n",
    }
}

/// Returns the text of a script's first bad line: its number, counted from 1, and its cause.
pub fn bad_line(alloc: Global, line: u32, cause: Cause) -> Result<Vec<u8>, NoMemory>
    ensures { IfOk result (λ text. text.items ≡ bad_line line cause) }
{
    let mut text = Vec::from_slice(alloc, b"bad line ")?;
    push_number(&mut text, u64::from(line))?;
    text.push(b' ')?;
    text.extend_from_slice(cause_text(cause))?;
    text.push(b'\n')?;
    Ok(text)
}

/// Returns the text of an image's first bad line: its number, counted from 1.
pub fn bad_image_line(alloc: Global, line: u32) -> Result<Vec<u8>, NoMemory>
    ensures { IfOk result (λ text. text.items ≡ count_line (codes "bad image line ") line) }
{
    let mut text = Vec::from_slice(alloc, b"bad image line ")?;
    push_number(&mut text, u64::from(line))?;
    text.push(b'\n')?;
    Ok(text)
}

/// Returns the token of a cause.
pub fn cause_text(cause: Cause) -> &'static [u8]
    ensures { result.now ≡ cause_text cause }
{
    match cause {
        Cause::Version => b"version",
        Cause::Heap => b"heap",
        Cause::Thread => b"thread",
        Cause::Total => b"total",
        Cause::Command => b"command",
        Cause::Arity => b"arity",
        Cause::Operand => b"operand",
        Cause::Size => b"size",
    }
}
