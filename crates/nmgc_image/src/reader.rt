//! The part of an image read so far, and the next line. A line has one of six kinds, by its first token. Whether it is
//! allowed, and its effect, depend only on the part read and on the names in `known`. So a text spells at most one image.
ghost use Rattle.std.specs.Prelude.{◌≡◌, ◌++◌, ◌==◌, ◌&&◌, map, length, not, slice_get, IfOk, OnOk};
ghost use Rattle.std.specs.{List.list_all, Option.option_to_list, Option.option_copied};
ghost use Rattle.nmgc_world_spec.specs.World.{held_by};
ghost use Rattle.nmgc_image.specs.Known.{test_of};
ghost use Rattle.nmgc_image.specs.Reading.{Takes, begins, object_at, is_declared, begun, is_open, is_full, first_at, new_own, mutator_at, is_above, is_nil, with_register, with_entry, register_at, queue_at, is_before, is_after, is_shared, is_below, is_owned, can_follow, next_at, end_at, line_at, start};

use crate::LineFault;
use crate::image::{Entry, Held, ImageMutator};
use crate::known::{Known, is_known, is_node_known, is_value_known};
use crate::nodes::{entry, number, value};
use nmgc_limits::{MAKERS, REGISTERS, SHARED_MAKER, SHARED_SLOTS};
use nmgc_lists::{List, NoMemory};
use nmgc_world_spec::{Name, Node, Value};
use std::alloc::Global;
use std::mem;

/// The lines taken: the announced number of mutators, those that are done, the current one, the objects, whether `end` came.
#[derive(Drop)]
pub(crate) struct Reader {
    pub(crate) expected: u8,
    pub(crate) done: List<ImageMutator>,
    pub(crate) current: Option<ImageMutator>,
    pub(crate) nodes: List<Entry>,
    pub(crate) ended: bool,
}

impl Reader {
    /// Returns a reader that has taken no line yet. Takes no memory.
    pub(crate) fn new(alloc: Global) -> Self
        ensures { result ≡ start }
    {
        Reader {
            expected: 0,
            done: List::new(alloc),
            current: None,
            nodes: List::new(alloc),
            ended: false,
        }
    }

    /// Takes the next line, by its tokens. `Bad` means that this line may not come next; the reader is unchanged then.
    #[tactic(auto, unfolding(crate::specs::Reading::line_at))]
    pub(crate) fn take_line(
        &mut self,
        alloc: Global,
        known: &Known,
        words: &[&[u8]],
    ) -> Result<(), LineFault>
        ensures { Takes result self.old self.new (line_at (test_of known.now) self.old (map (λ w. w.now) words.now)) }
    {
        let [word, rest @ ..] = words else {
            return Err(LineFault::Bad);
        };
        if *word == b"image".as_slice() {
            return self.take_first(rest);
        }
        if *word == b"mutator".as_slice() {
            return self.take_mutator(alloc, rest);
        }
        if *word == b"register".as_slice() {
            return self.take_register(known, rest);
        }
        if *word == b"queue".as_slice() {
            return self.take_queue_entry(known, rest);
        }
        if *word == b"node".as_slice() {
            return self.take_node(alloc, known, rest);
        }
        if *word == b"end".as_slice() {
            return self.take_end(known, rest);
        }
        Err(LineFault::Bad)
    }

    // Returns the number of mutators that have begun.
    fn count(&self) -> usize
        ensures { result ≡ length (begun self.now) }
    {
        self.done.items().len() + usize::from(self.current.is_some())
    }

    // Whether no object and no end line has come yet. Only then may a mutator, a register or a queue entry come next.
    fn is_open(&self) -> bool
        ensures { result ≡ is_open self.now }
    {
        self.nodes.items().is_empty() && !self.ended
    }

    // Whether all announced mutators have begun, and the end line hasn't come. False before the first line.
    fn is_full(&self) -> bool
        ensures { result ≡ is_full self.now }
    {
        self.expected > 0 && self.count() == self.expected as usize && !self.ended
    }

    // Takes the first line, by the tokens after `image`: version 1, and the number of mutators, from 1 to `MAKERS`.
    #[tactic(auto, unfolding(crate::specs::Reading::first_at))]
    fn take_first(&mut self, words: &[&[u8]]) -> Result<(), LineFault>
        ensures { Takes result self.old self.new (first_at self.old (map (λ w. w.now) words.now)) }
    {
        let [version, count] = words else {
            return Err(LineFault::Bad);
        };
        if *version != b"1".as_slice() || self.expected != 0 {
            return Err(LineFault::Bad);
        }
        let expected = number(count, u64::from(MAKERS))? as u8;
        if expected == 0 {
            return Err(LineFault::Bad);
        }
        self.expected = expected;
        Ok(())
    }

    // Takes the line that begins the next mutator, by the tokens after `mutator`: its number and its serial.
    #[tactic(auto, unfolding(crate::specs::Reading::mutator_at))]
    fn take_mutator(&mut self, alloc: Global, words: &[&[u8]]) -> Result<(), LineFault>
        ensures { Takes result self.old self.new (mutator_at self.old (map (λ w. w.now) words.now)) }
    {
        let [number_word, word, serial_word] = words else {
            return Err(LineFault::Bad);
        };
        if *word != b"serial".as_slice()
            || !self.is_open()
            || self.count() >= self.expected as usize
        {
            return Err(LineFault::Bad);
        }
        let mutator = number(number_word, u64::from(MAKERS))?;
        let serial = number(serial_word, u64::from(u32::MAX))? as u32;
        if mutator as usize != self.count() {
            return Err(LineFault::Bad);
        }
        self.begin(ImageMutator {
            serial,
            registers: List::new(alloc),
            queue: List::new(alloc),
        })?;
        Ok(())
    }

    // Makes `own` the current mutator. The mutator that was current until now, if any, is done.
    fn begin(&mut self, own: ImageMutator) -> Result<(), NoMemory>
        ensures { OnOk result (self.new ≡ begins self.old own) }
    {
        let Some(last) = mem::replace(&mut self.current, Some(own)) else {
            return Ok(());
        };
        self.done.push(last)?;
        Ok(())
    }

    // Takes a line with the current mutator's next register, by the tokens after `register`: its number and its value.
    #[tactic(auto, unfolding(crate::specs::Reading::register_at))]
    fn take_register(&mut self, known: &Known, words: &[&[u8]]) -> Result<(), LineFault>
        ensures { Takes result self.old self.new (register_at (test_of known.now) self.old (map (λ w. w.now) words.now)) }
    {
        let [register, word] = words else {
            return Err(LineFault::Bad);
        };
        if !self.is_open() {
            return Err(LineFault::Bad);
        }
        let Some(own) = &self.current else {
            return Err(LineFault::Bad);
        };
        let register = number(register, u64::from(REGISTERS) - 1)? as u8;
        let value = value(word)?;
        if !can_hold(own, register, value) || !is_value_known(known, value) {
            return Err(LineFault::Bad);
        }
        let Some(own) = mem::replace(&mut self.current, None) else {
            return Err(LineFault::Bad);
        };
        self.current = Some(with_register(own, Held { register, value })?);
        Ok(())
    }

    // Takes a line with the next entry of the current mutator's queue, by the tokens after `queue`: the value.
    #[tactic(auto, unfolding(crate::specs::Reading::queue_at))]
    fn take_queue_entry(&mut self, known: &Known, words: &[&[u8]]) -> Result<(), LineFault>
        ensures { Takes result self.old self.new (queue_at (test_of known.now) self.old (map (λ w. w.now) words.now)) }
    {
        let [word] = words else {
            return Err(LineFault::Bad);
        };
        if !self.is_open() {
            return Err(LineFault::Bad);
        }
        let Some(_) = &self.current else {
            return Err(LineFault::Bad);
        };
        let value = value(word)?;
        if !is_value_known(known, value) {
            return Err(LineFault::Bad);
        }
        let Some(own) = mem::replace(&mut self.current, None) else {
            return Err(LineFault::Bad);
        };
        self.current = Some(with_queue_entry(own, value)?);
        Ok(())
    }

    // Takes a node line, by the tokens after `node`: the name and the node of the next object.
    #[tactic(auto, unfolding(crate::specs::Reading::next_at))]
    fn take_node(&mut self, alloc: Global, known: &Known, words: &[&[u8]]) -> Result<(), LineFault>
        ensures { Takes result self.old self.new (next_at (test_of known.now) self.old (map (λ w. w.now) words.now)) }
    {
        let entry = entry(alloc, words)?;
        self.take_object(known, entry)
    }

    /// Adds an object if it may come next. Otherwise returns `Bad`, and the reader stays as it is.
    pub(crate) fn take_object(&mut self, known: &Known, entry: Entry) -> Result<(), LineFault>
        ensures { Takes result self.old self.new (object_at (test_of known.now) self.old entry) }
    {
        if !self.can_take(known, &entry) {
            return Err(LineFault::Bad);
        }
        self.nodes.push(entry)?;
        Ok(())
    }

    // Takes the end line, if it is the first, has no token after `end`, all mutators have begun, and g counts as declared.
    #[tactic(auto, unfolding(crate::specs::Reading::end_at))]
    fn take_end(&mut self, known: &Known, words: &[&[u8]]) -> Result<(), LineFault>
        ensures { Takes result self.old self.new (end_at (test_of known.now) self.old (map (λ w. w.now) words.now)) }
    {
        let [] = words else {
            return Err(LineFault::Bad);
        };
        if !self.is_full() || !is_known(known, Name::SHARED) {
            return Err(LineFault::Bad);
        }
        self.ended = true;
        Ok(())
    }

    // Whether an object may come next: after all mutators and before the end line, in order of names, with the right owner
    // and known names.
    fn can_take(&self, known: &Known, entry: &Entry) -> bool
        ensures { result ≡ can_follow (test_of known.now) self.now entry.now }
    {
        self.is_full()
            && is_after(self.nodes.items(), entry.name)
            && self.is_owned(entry)
            && is_node_known(known, &entry.node)
    }

    // Whether an object is the shared array, under its name g, or was made by one of the mutators.
    fn is_owned(&self, entry: &Entry) -> bool
        ensures { result ≡ is_owned (begun self.now) entry.now }
    {
        if entry.name.maker == SHARED_MAKER && entry.name.serial == 0 {
            return is_shared(&entry.node);
        }
        match self.mutator(entry.name.maker as usize) {
            Some(own) => entry.name.serial < own.serial,
            None => false,
        }
    }

    // Returns the mutator of this number, or `None` exactly if it hasn't begun.
    fn mutator(&self, number: usize) -> Option<&ImageMutator>
        ensures { option_copied result ≡ slice_get (begun self.now) number }
    {
        let done = self.done.items();
        if number == done.len() {
            return self.current.as_ref();
        }
        done.get(number)
    }
}

// Returns all mutators that have begun: those that are done and then the current mutator, if there is one.
pub(crate) fn all_mutators(
    done: List<ImageMutator>,
    current: Option<ImageMutator>,
) -> Result<List<ImageMutator>, NoMemory>
    ensures { IfOk result (λ all. all ≡ done ++ option_to_list current) }
{
    let mut all = done;
    if let Some(own) = current {
        all.push(own)?;
    }
    Ok(all)
}

// Whether a mutator may have this register next: not nil, above its registers so far, and before its queue.
fn can_hold(own: &ImageMutator, register: u8, value: Value) -> bool
    ensures { result ≡ ((length own.now.queue == 0) && is_above own.now.registers register && not (is_nil value)) }
{
    own.queue.items().is_empty()
        && is_above(own.registers.items(), register)
        && !matches!(value, Value::Nil)
}

// Whether a register comes after the last of these registers. True if there are none.
fn is_above(registers: &[Held], register: u8) -> bool
    ensures { result ≡ is_above registers.now register }
{
    match registers {
        [] => true,
        [.., last] => last.register < register,
    }
}

// Returns the mutator with `held` as its last register.
fn with_register(own: ImageMutator, held: Held) -> Result<ImageMutator, NoMemory>
    ensures { IfOk result (λ more. more ≡ with_register own held) }
{
    let ImageMutator {
        serial,
        mut registers,
        queue,
    } = own;
    registers.push(held)?;
    Ok(ImageMutator {
        serial,
        registers,
        queue,
    })
}

// Returns the mutator with `value` as the last entry of its queue.
fn with_queue_entry(own: ImageMutator, value: Value) -> Result<ImageMutator, NoMemory>
    ensures { IfOk result (λ more. more ≡ with_entry own value) }
{
    let ImageMutator {
        serial,
        registers,
        mut queue,
    } = own;
    queue.push(value)?;
    Ok(ImageMutator {
        serial,
        registers,
        queue,
    })
}

// Whether a name comes after the name of the last of these objects. True if there are none.
fn is_after(nodes: &[Entry], name: Name) -> bool
    ensures { result ≡ is_after nodes.now name }
{
    match nodes {
        [] => true,
        [.., last] => is_before(last.name, name),
    }
}

/// Whether the name `a` is before the name `b`: by their makers, and for the same maker by their serials.
pub(crate) fn is_before(a: Name, b: Name) -> bool
    ensures { result ≡ is_before a b }
{
    a.maker < b.maker || (a.maker == b.maker && a.serial < b.serial)
}

// Whether a node is an array with the number of slots of g.
fn is_shared(node: &Node) -> bool
    ensures { result ≡ is_shared node.now }
{
    match node {
        Node::Arr { values } => values.items().len() == SHARED_SLOTS as usize,
        _ => false,
    }
}
