//! The text of an image. It is appended line by line, so no line is built separately and no piece is moved.
ghost use Rattle.std.specs.Prelude.{◌≡◌, ◌∷◌, [], ◌++◌, length, map, IfOk, OnOk};
ghost use Rattle.nmgc_journal.specs.Text.{value_text};
ghost use Rattle.nmgc_world_spec.specs.World.{World as WorldOf};
ghost use Rattle.nmgc_io.specs.{Spaced.after_spaces, Text.spaced};
ghost use Rattle.nmgc_image.specs.{declared.image.Image.Image as ImageOf, Left.IsLeftAs, Printing.printed};
ghost use Rattle.nmgc_image.specs.Image.{Spells, mutator_words, register_words, queue_words, node_words, entry_words, mutator_lines, Shows};
ghost use Rattle.nmgc_image.specs.Printing.{image_text, first_words, own_lines};

use crate::heap_image::{mutators_of, push_objects_at};
use crate::image::{Entry, Held, Image, ImageMutator};
use crate::places::places_of;
use nmgc_io::push_number;
use nmgc_journal::{Report, push_name, push_value};
use nmgc_lists::NoMemory;
use nmgc_world_spec::{Node, Parts, Value};
use std::alloc::Global;

/// Returns the text of the image that shows the heap of a report: the mutators' registers and queues, and the objects in the
/// wide reach. The image shows each world that the heap represents. Requires a heap as a stop of a run leaves it. Takes time
/// proportional to heap and text, for a sort of the objects by name and, with weak pointers, for a look-up of a name for each
/// block in use. Takes memory for the text, a byte for each word of the heap, 24 bytes for each object, registers and queues.
pub fn write_image(alloc: Global, report: &Report) -> Result<Vec<u8>, NoMemory>
    requires { (w : WorldOf) × IsLeftAs report.now w }
    ensures { IfOk result (λ text. (w : WorldOf) → IsLeftAs report.now w → (image : ImageOf) × Shows w image × Spells text.items image) }
{
    let places = places_of(alloc, report)?;
    let mutators = mutators_of(alloc, &report.words, report.mutators.items())?;
    let mut out = Vec::new(alloc);
    push_start(&mut out, mutators.items())?;
    push_objects_at(alloc, &mut out, &report.words, places)?;
    push_text(&mut out, b"end\n")?;
    Ok(out)
}

/// Returns the text of any image. Takes memory only for the text, which grows by doubling, and time proportional to the text.
pub fn image_text(alloc: Global, image: &Image) -> Result<Vec<u8>, NoMemory>
    ensures { IfOk result (λ text. text.items ≡ image_text image.now) }
{
    let mut out = Vec::new(alloc);
    push_first(&mut out, image.mutators.items().len())?;
    push_mutators(&mut out, image.mutators.items())?;
    push_nodes(&mut out, image.nodes.items())?;
    push_text(&mut out, b"end\n")?;
    Ok(out)
}

// Appends `text` to `out`.
fn push_text(out: &mut Vec<u8>, text: &[u8]) -> Result<(), NoMemory>
    ensures { OnOk result (out.new.items ≡ out.old.items ++ text.now) }
{
    out.extend_from_slice(text)?;
    Ok(())
}

// Appends the lines before the node lines: the first line and the lines of the mutators.
fn push_start(out: &mut Vec<u8>, mutators: &[ImageMutator]) -> Result<(), NoMemory>
    ensures { OnOk result (out.new.items ≡ (out.old.items ++ (spaced (first_words (length mutators.now)) ++ 10 ∷ [])) ++ printed (mutator_lines 0 mutators.now)) }
{
    push_first(out, mutators.len())?;
    push_mutators(out, mutators)
}

// Appends the first line, with the number of mutators.
fn push_first(out: &mut Vec<u8>, mutators: usize) -> Result<(), NoMemory>
    ensures { OnOk result (out.new.items ≡ out.old.items ++ (spaced (first_words mutators) ++ 10 ∷ [])) }
{
    push_text(out, b"image 1 ")?;
    push_number(out, mutators as u64)?;
    push_text(out, b"\n")
}

// Appends the lines of the mutators.
fn push_mutators(out: &mut Vec<u8>, mutators: &[ImageMutator]) -> Result<(), NoMemory>
    ensures { OnOk result (out.new.items ≡ out.old.items ++ printed (mutator_lines 0 mutators.now)) }
{
    for (number, own) in mutators.iter().enumerate() {
        push_mutator(out, number, own.serial)?;
        push_own(out, own)?;
    }
    Ok(())
}

// Appends the line that begins mutator `number`.
fn push_mutator(out: &mut Vec<u8>, number: usize, serial: u32) -> Result<(), NoMemory>
    ensures { OnOk result (out.new.items ≡ out.old.items ++ (spaced (mutator_words number serial) ++ 10 ∷ [])) }
{
    push_text(out, b"mutator ")?;
    push_number(out, number as u64)?;
    push_text(out, b" serial ")?;
    push_number(out, u64::from(serial))?;
    push_text(out, b"\n")
}

// Appends the lines of a mutator's registers and queue.
fn push_own(out: &mut Vec<u8>, own: &ImageMutator) -> Result<(), NoMemory>
    ensures { OnOk result (out.new.items ≡ out.old.items ++ printed (own_lines own.now)) }
{
    push_registers(out, own.registers.items())?;
    push_queue(out, own.queue.items())
}

fn push_registers(out: &mut Vec<u8>, registers: &[Held]) -> Result<(), NoMemory>
    ensures { OnOk result (out.new.items ≡ out.old.items ++ printed (map register_words registers.now)) }
{
    for held in registers {
        push_register(out, *held)?;
    }
    Ok(())
}

fn push_register(out: &mut Vec<u8>, held: Held) -> Result<(), NoMemory>
    ensures { OnOk result (out.new.items ≡ out.old.items ++ (spaced (register_words held) ++ 10 ∷ [])) }
{
    push_text(out, b"register ")?;
    push_number(out, u64::from(held.register))?;
    push_text(out, b" ")?;
    push_value(out, held.value)?;
    push_text(out, b"\n")
}

fn push_queue(out: &mut Vec<u8>, queue: &[Value]) -> Result<(), NoMemory>
    ensures { OnOk result (out.new.items ≡ out.old.items ++ printed (map queue_words queue.now)) }
{
    for value in queue {
        push_queued(out, *value)?;
    }
    Ok(())
}

// Appends the line of an entry of a queue.
fn push_queued(out: &mut Vec<u8>, value: Value) -> Result<(), NoMemory>
    ensures { OnOk result (out.new.items ≡ out.old.items ++ (spaced (queue_words value) ++ 10 ∷ [])) }
{
    push_text(out, b"queue ")?;
    push_value(out, value)?;
    push_text(out, b"\n")
}

// Appends the node lines of the objects.
fn push_nodes(out: &mut Vec<u8>, nodes: &[Entry]) -> Result<(), NoMemory>
    ensures { OnOk result (out.new.items ≡ out.old.items ++ printed (map entry_words nodes.now)) }
{
    for entry in nodes {
        push_entry(out, entry)?;
    }
    Ok(())
}

/// Appends the node line of an object.
pub(crate) fn push_entry(out: &mut Vec<u8>, entry: &Entry) -> Result<(), NoMemory>
    ensures { OnOk result (out.new.items ≡ out.old.items ++ (spaced (entry_words entry.now) ++ 10 ∷ [])) }
{
    push_text(out, b"node ")?;
    push_name(out, entry.name)?;
    push_node(out, &entry.node)?;
    push_text(out, b"\n")
}

// Appends the tokens of a node, each behind a space.
fn push_node(out: &mut Vec<u8>, node: &Node) -> Result<(), NoMemory>
    ensures { OnOk result (out.new.items ≡ out.old.items ++ after_spaces (node_words node.now)) }
{
    match node {
        Node::Con { tag, values } => {
            push_text(out, b" con ")?;
            push_number(out, u64::from(*tag))?;
            push_values(out, values.items())
        }
        Node::Var { value } => {
            push_text(out, b" var ")?;
            push_value(out, *value)
        }
        Node::Arr { values } => {
            push_text(out, b" arr")?;
            push_values(out, values.items())
        }
        Node::Thunk { free, result } => push_thunk(out, free.items(), *result),
        Node::Weak { parts: None } => push_text(out, b" weak dead"),
        Node::Weak { parts: Some(parts) } => push_parts(out, *parts),
        Node::Stack { size, values } => {
            push_text(out, b" stack ")?;
            push_number(out, u64::from(*size))?;
            push_values(out, values.items())
        }
    }
}

// Appends the tokens of a thunk, each behind a space.
fn push_thunk(out: &mut Vec<u8>, free: &[Value], computed: Option<Value>) -> Result<(), NoMemory>
    ensures { OnOk result (out.new.items ≡ out.old.items ++ after_spaces (node_words (Node.Thunk free.now computed))) }
{
    match computed {
        Some(value) => {
            push_text(out, b" thunk result ")?;
            push_value(out, value)
        }
        None => {
            push_text(out, b" thunk free")?;
            push_values(out, free)
        }
    }
}

// Appends the tokens of a weak pointer that is alive, each behind a space.
fn push_parts(out: &mut Vec<u8>, parts: Parts) -> Result<(), NoMemory>
    ensures { OnOk result (out.new.items ≡ out.old.items ++ after_spaces (node_words (Node.Weak (Some parts)))) }
{
    push_text(out, b" weak ")?;
    push_value(out, parts.key)?;
    push_text(out, b" ")?;
    push_value(out, parts.value)?;
    push_text(out, b" ")?;
    push_value(out, parts.finaliser)
}

// Appends values, each behind a space.
fn push_values(out: &mut Vec<u8>, values: &[Value]) -> Result<(), NoMemory>
    ensures { OnOk result (out.new.items ≡ out.old.items ++ after_spaces (map value_text values.now)) }
{
    for value in values {
        out.push(b' ')?;
        push_value(out, *value)?;
    }
    Ok(())
}
