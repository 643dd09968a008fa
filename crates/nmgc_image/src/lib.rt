//! Images of heaps: how a heap is written as text, and read back from it.
//!
//! An image shows the mutators' registers and queues, and the objects in their wide reach with their fields. It has names in
//! place of addresses. Its text has a line for each mutator, register that isn't nil, queue entry and object. Every image has
//! one spelling, and a text spells at most one image. So two heaps have the same image exactly if they have the same text.
//!
//! - `image`: the image. `specs/Image.antt` defines images, `specs/Image.antt` their text, `specs/Image.antt` bad lines.
//! - `read`: reading. `front`: the lines up to the first bad line. `text`: lines. `nodes`: node lines, by their tokens.
//!   `plain`: constructors' node lines, in one pass. `declared`: which names have node lines; `known`: which names count as
//!   declared meanwhile. `reader`: the content of the lines read, and the next line. `fault`: why an image can't be read.
//! - `laws`: laws of images.
//! - `write`: the text of an image, and of the image that shows a report's heap. `heap_image`: its mutators and node lines.
//!   `places`, `search`: the addresses of its objects. `objects`: objects read from words.
#![tactic(auto)]

mod declared;
pub mod fault;
mod front;
mod heap_image;
pub mod image;
mod known;
pub mod laws;
mod nodes;
mod objects;
mod places;
mod plain;
mod read;
mod reader;
mod search;
mod text;
mod write;

pub use fault::ImageFault;
pub(crate) use fault::LineFault;
pub use image::{Entry, Held, Image, ImageMutator};
pub use read::{MAX_IMAGE_BYTES, read_image};
pub use write::{image_text, write_image};
