//! Printing: the plain spelling of a script.
//!
//! It has no line that is passed over, and each line ends with a line feed. So a script has one plain spelling. There is one
//! space before each token except the first. Easy to get wrong: no space ends the line of a thunk without free variables, or of a `rec` without fields.
ghost use Rattle.std.specs.Prelude.{◌≡◌, ◌∷◌, [], ◌++◌, decimal, map, IfOk, OnOk};
ghost use Rattle.nmgc_commands.specs.Packed.{command_of};
ghost use Rattle.nmgc_io.specs.{Spaced.after_spaces, Text.ended, Text.spaced};
ghost use Rattle.nmgc_script.specs.Printing.{word_text};
ghost use Rattle.nmgc_script.specs.Spelling.{FitsScript, Spells, command_words, heap_words, operand_word, section_lines};
ghost use Rattle.nmgc_script.specs.Parts.{section_words, version_words};
ghost use Rattle.nmgc_script.specs.Parts.{plain, program_lines};

use crate::verbs::Verb;
use crate::{Config, Script};
use nmgc_commands::{Form, PackedCommand};
use nmgc_io::push_number;
use nmgc_lists::{List, NoMemory};
use nmgc_world_spec::Operand;
use std::alloc::Global;

/// A token of a line, except the line's first token.
#[derive(Clone, Copy, Debug, PartialEq, Eq)]
pub enum Word {
    Register(u8),
    Tag(u8),
    Short(u32),
    Number(u64),
    Operand(Operand),
}

use Word::{Number, Operand as Value, Register, Short, Tag};

/// Returns the plain spelling of a script. Requires a script within the limits. `parse` reads the text back if it has at most
/// 2^31 bytes and memory suffices, but no clause bounds its length.
pub fn print(alloc: Global, script: &Script) -> Result<Vec<u8>, NoMemory>
    requires { FitsScript script.now }
    ensures text { IfOk result (λ bytes. bytes.items ≡ plain script.now) }
    ensures back { IfOk result (λ bytes. Spells bytes.items script.now) }
{
    let mut out = Vec::new(alloc);
    push_version_line(&mut out, script.version)?;
    push_heap_line(&mut out, &script.config)?;
    push_sections(&mut out, script.threads.items())?;
    Ok(out)
}

// Appends the line that names a version.
fn push_version_line(out: &mut Vec<u8>, version: u8) -> Result<(), NoMemory>
    ensures { OnOk result (out.new.items ≡ out.old.items ++ (spaced (version_words version) ++ 10 ∷ [])) }
{
    push_line(out, b"nmgc", &[Word::Number(version as u64)])?;
    out.push(b'\n')?;
    Ok(())
}

// Appends the text of a token.
fn push_word(out: &mut Vec<u8>, word: Word) -> Result<(), NoMemory>
    ensures { OnOk result (out.new.items ≡ out.old.items ++ word_text word) }
{
    match word {
        Word::Tag(tag) => push_number(out, tag as u64),
        Word::Short(number) => push_number(out, number as u64),
        Word::Number(number) => push_number(out, number),
        Word::Register(register) => push_register(out, register),
        Word::Operand(Operand::Register(register)) => push_register(out, register),
        Word::Operand(Operand::Shared) => {
            out.push(b'g')?;
            Ok(())
        }
    }
}

// Appends the token of a register.
fn push_register(out: &mut Vec<u8>, register: u8) -> Result<(), NoMemory>
    ensures { OnOk result (out.new.items ≡ out.old.items ++ 114 ∷ decimal register) }
{
    out.push(b'r')?;
    push_number(out, register as u64)
}

// Appends tokens, each behind a space.
fn push_words(out: &mut Vec<u8>, words: &[Word]) -> Result<(), NoMemory>
    ensures { OnOk result (out.new.items ≡ out.old.items ++ after_spaces (map word_text words.now)) }
{
    for word in words {
        out.push(b' ')?;
        push_word(out, *word)?;
    }
    Ok(())
}

// Appends operands, each behind a space.
fn push_operands(out: &mut Vec<u8>, operands: &[Operand]) -> Result<(), NoMemory>
    ensures { OnOk result (out.new.items ≡ out.old.items ++ after_spaces (map operand_word operands.now)) }
{
    for operand in operands {
        out.push(b' ')?;
        push_word(out, Word::Operand(*operand))?;
    }
    Ok(())
}

// Appends a line that is a name and tokens, without its line feed.
fn push_line(out: &mut Vec<u8>, name: &[u8], words: &[Word]) -> Result<(), NoMemory>
    ensures { OnOk result (out.new.items ≡ out.old.items ++ spaced (name.now ∷ map word_text words.now)) }
{
    out.extend_from_slice(name)?;
    push_words(out, words)
}

// Appends a line that is a name, tokens and operands, without its line feed.
fn push_long_line(
    out: &mut Vec<u8>,
    name: &[u8],
    words: &[Word],
    operands: &[Operand],
) -> Result<(), NoMemory>
    ensures { OnOk result (out.new.items ≡ out.old.items ++ spaced (name.now ∷ map word_text words.now ++ map operand_word operands.now)) }
{
    push_line(out, name, words)?;
    push_operands(out, operands)
}

// A match on a form, which appends its verb's name and then its fields, each as a token of the given kind. The three groups
// are commands of such fields alone, commands with operands after such fields, and commands without fields.
macro_rules! printed {
    (
        $out:ident, $packed:ident,
        $($verb:ident { $($field:ident: $word:ident),* })*;
        $($form:ident as $long:ident { $($front:ident: $shape:ident),* } then $operands:ident)*;
        $($alone:ident)*
    ) => {
        match $packed {
            $(Form::$verb { $($field),* } => {
                push_line($out, Verb::$verb.name(), &[$($word(*$field)),*])
            })*
            $(Form::$form { $($front),*, $operands } => {
                push_long_line($out, Verb::$long.name(), &[$($shape(*$front)),*], $operands.items())
            })*
            $(Form::$alone => push_line($out, Verb::$alone.name(), &[]),)*
        }
    };
}

// Appends the line of a command, without its line feed.
fn push_command(out: &mut Vec<u8>, command: &PackedCommand) -> Result<(), NoMemory>
    ensures { OnOk result (out.new.items ≡ out.old.items ++ spaced (command_words command.now)) }
{
    push_form(out, command.form())
}

// Appends the line of a command of this form, without its line feed.
fn push_form(out: &mut Vec<u8>, form: &Form) -> Result<(), NoMemory>
    ensures { OnOk result (out.new.items ≡ out.old.items ++ spaced (command_words (command_of form.now))) }
{
    printed!(out, form,
        Num { dest: Register, number: Number }
        Nil { dest: Register }
        Mov { dest: Register, value: Value }
        Var { dest: Register, value: Value }
        Arr { dest: Register, count: Short, value: Value }
        Weak { dest: Register, key: Value, value: Value, finaliser: Value }
        Stack { dest: Register, size: Short }
        Get { dest: Register, object: Value, index: Short }
        Tag { dest: Register, object: Value }
        Set { object: Value, index: Short, value: Value }
        Cas { object: Value, index: Short, expected: Value, value: Value }
        Update { object: Value, value: Value }
        Force { dest: Register, object: Value }
        Push { object: Value, value: Value }
        Pop { dest: Register, object: Value }
        Deref { dest: Register, object: Value }
        Finalise { dest: Register, object: Value }
        NextFin { dest: Register }
        Show { value: Value }
        Same { left: Value, right: Value };
        Con as Con { dest: Register, tag: Tag } then fields
        LongCon as Con { dest: Register, tag: Tag } then fields
        Rec as Rec { dest: Register } then fields
        LongRec as Rec { dest: Register } then fields
        Thunk as Thunk { dest: Register } then free
        LongThunk as Thunk { dest: Register } then free;
        Yield Collect Full
    )
}

// Appends the lines of a program.
fn push_program(out: &mut Vec<u8>, program: &[PackedCommand]) -> Result<(), NoMemory>
    ensures { OnOk result (out.new.items ≡ out.old.items ++ ended (program_lines program.now)) }
{
    for command in program {
        push_command(out, command)?;
        out.push(b'\n')?;
    }
    Ok(())
}

// Appends the line that begins the section of `thread`.
fn push_section_line(out: &mut Vec<u8>, thread: usize) -> Result<(), NoMemory>
    ensures { OnOk result (out.new.items ≡ out.old.items ++ (spaced (section_words thread) ++ 10 ∷ [])) }
{
    push_line(out, b"thread", &[Word::Number(thread as u64)])?;
    out.push(b'\n')?;
    Ok(())
}

// Appends the sections of all programs, numbered from 0.
fn push_sections(out: &mut Vec<u8>, threads: &[List<PackedCommand>]) -> Result<(), NoMemory>
    ensures { OnOk result (out.new.items ≡ out.old.items ++ ended (section_lines 0 threads.now)) }
{
    for (thread, program) in threads.iter().enumerate() {
        push_section_line(out, thread)?;
        push_program(out, program.items())?;
    }
    Ok(())
}

// Appends the heap line.
fn push_heap_line(out: &mut Vec<u8>, config: &Config) -> Result<(), NoMemory>
    ensures { OnOk result (out.new.items ≡ out.old.items ++ (spaced (heap_words config.now) ++ 10 ∷ [])) }
{
    push_line(
        out,
        b"heap",
        &[
            Word::Short(config.segments),
            Word::Short(config.words),
            Word::Short(config.nursery),
            Word::Short(config.slice),
            Word::Short(config.quota),
            Word::Short(config.trigger),
        ],
    )?;
    out.push(b'\n')?;
    Ok(())
}
