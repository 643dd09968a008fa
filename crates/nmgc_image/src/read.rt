//! Images read from their text.
ghost use Rattle.std.specs.Prelude.{◌≡◌, ◌↔◌, ℕ, ◌≤◌, ◌^◌, Bool, List, [], length, true, IfErr, IfOk, IsTrue, MatchResult};
ghost use Rattle.nmgc_world_spec.specs.declared.value.Name.{Name as NameOf};
ghost use Rattle.nmgc_image.specs.{Results.IsFaultOf, Known.test_of, Reading.AreRead, Reading.IsAnswer, Reading.image_of, Reading.FindsDeclared, Image.Spells, Image.cut, declared.image.Image.Image as Spelled};

use crate::ImageFault;
use crate::declared::names_in;
use crate::front::read_lines;
use crate::image::Image;
use crate::known::{Known, are_mentions_known};
use crate::reader::{Reader, all_mutators};
use crate::text::Lines;
use std::alloc::Global;

/// The most bytes of an image that the program reads.
pub const MAX_IMAGE_BYTES: usize = 2_147_483_648;

const _: () = prove!(MAX_IMAGE_BYTES <= 1 << 31);

/// Returns the image that a text spells. Otherwise `Bad` reports the first bad line, numbered from 1, or the line after the
/// last if the text ends too early. `specs/Faults` defines bad lines without this code. Requires at most 2^31 bytes, so that
/// lines can be counted in 32 bits.
/// Takes time proportional to the text, and for a look-up of each name that it mentions. A look-up is one step if the serials
/// of the name's maker are consecutive, and otherwise a binary search. If a name without a node line is mentioned before any
/// other bad line, the text is read twice, with the memory of both readings. The names of node lines behind a bad line are
/// sorted. Takes memory for the image, and 8 bytes for each node line.
pub fn read_image(alloc: Global, bytes: &[u8]) -> Result<Image, ImageFault>
    requires { length bytes.now ≤ 2 ^ 31 }
    // The bytes spell the image that is read.
    ensures found { IfOk result (λ image. Spells bytes.now image) }
    // An image that the bytes spell is read, unless memory runs out.
    ensures only { (image : Spelled) → Spells bytes.now image → MatchResult result (λ read. image ≡ read) (λ fault. fault ≡ ImageFault.NoMemory) }
    // If the bytes spell no image, the fault is the first bad line.
    ensures fault { IfErr result (λ fault. IsFaultOf bytes.now fault) }
{
    read(alloc, bytes)
}

// Returns the image that a text spells, or the text's first bad line. Reads the text again only if a name isn't declared.
fn read(alloc: Global, bytes: &[u8]) -> Result<Image, ImageFault>
    requires { length bytes.now ≤ 2 ^ 31 }
    ensures { IsAnswer bytes.now result }
{
    let mut lines = Lines::new(bytes);
    let every = Known::Every;
    let reader = read_lines(alloc, &every, &mut lines)?;
    let declared = names_in(alloc, reader.nodes.items(), lines.rest)?;
    let known = Known::Of(declared);
    if are_mentions_known(&known, &reader) {
        return answer(reader, &lines);
    }
    read_again(alloc, &known, bytes)
}

// Returns the image that a text spells, or its first bad line. Requires that `known` is the set of the names with node lines.
fn read_again(alloc: Global, known: &Known, bytes: &[u8]) -> Result<Image, ImageFault>
    requires small { length bytes.now ≤ 2 ^ 31 }
    requires agrees { FindsDeclared (test_of known.now) (cut bytes.now).lines }
    ensures { IsAnswer bytes.now result }
{
    let mut lines = Lines::new(bytes);
    let reader = read_lines(alloc, known, &mut lines)?;
    answer(reader, &lines)
}

// Returns the image whose lines `reader` took, or the bad line at which `lines` stopped if the text wasn't read whole.
fn answer(reader: Reader, lines: &Lines) -> Result<Image, ImageFault>
    ensures { (bytes : List ℕ) (d : NameOf → Bool) → FindsDeclared d (cut bytes).lines → AreRead d bytes reader lines.now.number lines.now.rest.now →
        IsAnswer bytes result }
{
    if !is_whole(&reader, lines.rest) {
        return Err(ImageFault::Bad { line: lines.number });
    }
    image_of(reader)
}

// Whether the text was read whole: its end line was taken, and nothing comes after that.
fn is_whole(reader: &Reader, rest: &[u8]) -> bool
    ensures { IsTrue result ↔ ((reader.now.ended ≡ true) × (rest.now ≡ [])) }
{
    reader.ended && rest.is_empty()
}

// Returns the image that has the mutators and objects of the lines taken.
fn image_of(reader: Reader) -> Result<Image, ImageFault>
    ensures ok { IfOk result (λ image. image ≡ image_of reader) }
    ensures err { IfErr result (λ fault. fault ≡ ImageFault.NoMemory) }
{
    let mutators = all_mutators(reader.done, reader.current)?;
    Ok(Image {
        mutators,
        nodes: reader.nodes,
    })
}
