//! The reply that a command would get.
//!
//! A world that has stepped can't step back. A caller that wants a reply before anything changes asks here. For example, an
//! event of the marking machine contains its command's reply, and happens only if the world gives this reply. Replies to
//! reads, changes and `same` come from the very functions that `apply` uses.
ghost use Rattle.std.specs.Prelude.{◌≡◌, ◌<◌, length};

use crate::World;
use crate::change::{change_reply, value_reply};
use nmgc_world_spec::{Change, Command, Name, Reply, Value};

impl World {
    ghost use Rattle.nmgc_world_spec.specs.{Known.HasRegisters, World.step, World.change_object, World.next_name, World.state_of, Written.asked, Written.change_asked};

    /// Returns the reply that `apply` would give with enough memory. Takes no memory, and constant time.
    pub fn reply(&self, mutator: u8, command: &Command) -> Reply
        requires mutator { mutator < length self.now.mutators }
        requires registers { HasRegisters command.now }
        ensures { result ≡ (step self.now mutator command.now).1 }
    {
        match command {
            Command::Num { .. }
            | Command::Nil { .. }
            | Command::Mov { .. }
            | Command::Yield
            | Command::Collect
            | Command::Full => Reply::Fine,
            Command::Con { .. }
            | Command::Var { .. }
            | Command::Arr { .. }
            | Command::Rec { .. }
            | Command::Thunk { .. }
            | Command::Weak { .. }
            | Command::Stack { .. } => Reply::Given(Value::Ref(self.next_name(mutator))),
            Command::Get {
                dest: _,
                object,
                index,
            } => self.field(self.value(mutator, *object), *index),
            Command::Tag { dest: _, object } => self.tag_of(self.value(mutator, *object)),
            Command::Force { dest: _, object } => self.result_of(self.value(mutator, *object)),
            Command::Deref { dest: _, object } => self.weak_value(self.value(mutator, *object)),
            Command::Set { .. }
            | Command::Cas { .. }
            | Command::Update { .. }
            | Command::Push { .. }
            | Command::Pop { .. }
            | Command::Finalise { .. } => self.asked_reply(mutator, command),
            Command::NextFin { dest: _ } => {
                value_reply(Reply::Nothing, self.queue(mutator).first().copied())
            }
            Command::Show { value } => Reply::Given(self.value(mutator, *value)),
            Command::Same { left, right } => self.compare(mutator, *left, *right),
        }
    }

    // Returns the name that the next object of a mutator gets.
    fn next_name(&self, mutator: u8) -> Name
        requires { mutator < length self.now.mutators }
        ensures { result ≡ next_name (state_of self.now mutator) mutator }
    {
        Name {
            maker: mutator,
            serial: self.serial(mutator),
        }
    }

    // Returns the reply to the change that a command asks for, and `Fine` if it asks for none.
    fn asked_reply(&self, mutator: u8, command: &Command) -> Reply
        requires mutator { mutator < length self.now.mutators }
        requires registers { HasRegisters command.now }
        ensures { result ≡ (change_asked self.now (asked self.now mutator command.now)).1 }
    {
        match self.asked_change(mutator, command) {
            Some((object, change)) => self.object_reply(object, change),
            None => Reply::Fine,
        }
    }

    // Returns the reply to a change of the object that a value refers to, or `NoPointer` if there is no such object.
    fn object_reply(&self, object: Value, change: Change) -> Reply
        ensures { result ≡ (change_object self.now object change).1 }
    {
        match object {
            Value::Ref(name) => match self.node(name) {
                Some(node) => change_reply(node, name.maker, change),
                None => Reply::NoPointer,
            },
            _ => Reply::NoPointer,
        }
    }
}
