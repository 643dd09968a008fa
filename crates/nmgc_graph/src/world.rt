//! The world of the reference heap.
//!
//! A world is a finite map from names to nodes that only grows, with the registers, the finaliser queue and the next serial
//! of each mutator. Its invariant is that it is closed: every reference in a register, a queue or a node names a node of the
//! map. The collector is judged by this model: a reply of a run is right if the world gives the same reply.
//!
//! Each change of a mutator's state, or of a node, is a function of its own, to which a method of the world lends only that
//! part. No name ever leaves the map. So a world stays closed if each reference that is written names a node of the map.
//!
//! Easy to get wrong: after `NoMemory` nothing may have changed. So all memory is taken before a register is written.
ghost use Rattle.std.specs.Prelude.{replicate, Some, None, [], ◌≡◌, ◌-◌, ◌<◌, ◌≤◌, ◌^◌, length, map, IfOk, IfSome, IsSome, OnOk, OnErr, slice_get, option_copied, All};
ghost use Rattle.nmgc_world_spec.specs.{World.new_mutator, World.value_of, World.next_name, World.changed, World.field_read, World.tag_read, World.result_read, World.value_read, Known.IsOperand, Known.IsRegister, Pieces.with_new, Pieces.holding, Pieces.with_finaliser, Pieces.with_nth, declared.node.Node.Node as NodeAt, Pieces.given_or};

use crate::change::{are_same, change_in_place, read_field, read_result, read_tag, read_value};
use nmgc_limits::{MAKERS, REGISTERS, SHARED_MAKER, SHARED_SLOTS};
use nmgc_lists::{List, NoMemory, Queue};
use nmgc_world_spec::{Change, Command, MutatorState, Name, Node, Operand, Parts, Reply, Value};
use std::alloc::Global;
use std::marker::Model;

/// A world: every object ever made, and the state of each mutator.
pub struct World {
    pub(crate) alloc: Global,
    pub(crate) shared: Node,
    pub(crate) mutators: List<MutatorState>,
}

// Written by hand, so that each drop of a world calls this. A derived drop is written out, and proved, at each drop.
impl Drop for World {
    fn drop(self) {
        let World {
            alloc: _,
            shared,
            mutators,
        } = self;
        drop(shared);
        drop(mutators);
    }
}

impl Model for World {
    ghost use Rattle.nmgc_world_spec.specs.{World.World as Shown, Known.IsWorld};

    ghost Value = { Shown };

    ghost view = { λ w. record { shared = w.shared; mutators = w.mutators } };

    ghost invariant = { λ w. IsWorld (record { shared = w.shared; mutators = w.mutators }) };
}

impl World {
    ghost use Rattle.nmgc_world_spec.specs.{World.node_of, World.new_world, World.serial_of, World.step, World.value_for, World.born, World.with_register, World.keeping, World.object_of, World.change_into, World.change_object, World.next_finaliser, Known.IsKnown, Known.IsKnownReply, Known.IsKnownChange, Known.AreKnown, Known.IsNodeOf, Known.IsWorld, Known.Grows};
    ghost use Rattle.nmgc_world_spec.specs.Known.{HasRegisters};
    ghost use Rattle.nmgc_world_spec.specs.{Pieces.values_for, Pieces.read_object, Written.asked, Written.change_asked, Pieces.change_node, Pieces.same_reply};

    /// Makes the world of 1 to `MAKERS` mutators that have made nothing: registers and g's slots are nil, queues are empty.
    pub fn new(alloc: Global, mutators: u8) -> Result<Self, NoMemory>
        requires some { 1 ≤ mutators }
        requires few { mutators ≤ MAKERS }
        ensures { IfOk result (λ w. w ≡ new_world mutators) }
    {
        let shared = Node::Arr {
            values: copies(alloc, Value::Nil, SHARED_SLOTS as usize)?,
        };
        let mutators = new_mutators(alloc, mutators)?;
        Ok(World {
            alloc,
            shared,
            mutators,
        })
    }

    /// Does a command of a mutator as `step` defines it, and returns the reply. Requires that `can_apply` is true. A refusal,
    /// or `NoMemory`, changes nothing. The world stays closed, no name leaves it, and no serial falls.
    pub fn apply(&mut self, mutator: u8, command: &Command) -> Result<Reply, NoMemory>
        requires mutator { mutator < length self.old.mutators }
        requires registers { HasRegisters command.now }
        requires serial { serial_of self.old mutator < 2 ^ 32 - 1 }
        ensures step { IfOk result (λ reply. step self.old mutator command.now ≡ (self.new, reply)) }
        ensures err { OnErr result (self.new ≡ self.old) }
        ensures closed { IsWorld self.new }
        ensures grows { Grows self.old self.new mutator }
    {
        let answer = self.do_command(mutator, command);
        // Note [Lines that do nothing] in `nmgc_alloc`: this gives the prover that the world is closed, as every world is.
        let _ = &self.mutators;
        answer
    }

    // Does a command of a mutator, and returns the reply. After `NoMemory` the world is unchanged.
    fn do_command(&mut self, mutator: u8, command: &Command) -> Result<Reply, NoMemory>
        requires mutator { mutator < length self.old.mutators }
        requires registers { HasRegisters command.now }
        requires serial { serial_of self.old mutator < 2 ^ 32 - 1 }
        ensures step { IfOk result (λ reply. step self.old mutator command.now ≡ (self.new, reply)) }
        ensures err { OnErr result (self.new ≡ self.old) }
    {
        match command {
            Command::Num { dest, number } => Ok(self.set_register(
                mutator,
                *dest,
                Value::Number(*number),
            )),
            Command::Nil { dest } => Ok(self.set_register(mutator, *dest, Value::Nil)),
            Command::Mov { dest, value } => Ok(self.set_register_from(mutator, *dest, *value)),
            Command::Con { dest, tag, fields } => {
                self.make_con(mutator, *dest, *tag, fields.items())
            }
            Command::Var { dest, value } => self.make_var(mutator, *dest, *value),
            Command::Arr { dest, count, value } => self.make_arr(mutator, *dest, *count, *value),
            Command::Rec { dest, fields } => self.make_rec(mutator, *dest, fields.items()),
            Command::Thunk { dest, free } => self.make_thunk(mutator, *dest, free.items()),
            Command::Weak {
                dest,
                key,
                value,
                finaliser,
            } => self.make_weak(mutator, *dest, *key, *value, *finaliser),
            Command::Stack { dest, size } => self.make_stack(mutator, *dest, *size),
            Command::Get {
                dest,
                object,
                index,
            } => Ok(self.keep_reply(
                mutator,
                *dest,
                self.field(self.value(mutator, *object), *index),
            )),
            Command::Tag { dest, object } => {
                Ok(self.keep_reply(mutator, *dest, self.tag_of(self.value(mutator, *object))))
            }
            Command::Force { dest, object } => {
                Ok(self.keep_reply(mutator, *dest, self.result_of(self.value(mutator, *object))))
            }
            Command::Deref { dest, object } => {
                Ok(self.keep_reply(
                    mutator,
                    *dest,
                    self.weak_value(self.value(mutator, *object)),
                ))
            }
            Command::Set { .. }
            | Command::Cas { .. }
            | Command::Update { .. }
            | Command::Push { .. } => self.change(mutator, command),
            Command::Pop { dest, object: _ } | Command::Finalise { dest, object: _ } => {
                self.change_into(mutator, *dest, command)
            }
            Command::NextFin { dest } => Ok(self.next_finaliser(mutator, *dest)),
            Command::Show { value } => Ok(Reply::Given(self.value(mutator, *value))),
            Command::Same { left, right } => Ok(self.compare(mutator, *left, *right)),
            Command::Yield | Command::Collect | Command::Full => Ok(Reply::Fine),
        }
    }

    // Makes a constructor, puts its reference into `dest`, and replies with its name.
    fn make_con(
        &mut self,
        mutator: u8,
        dest: u8,
        tag: u8,
        fields: &[Operand],
    ) -> Result<Reply, NoMemory>
        requires mutator { mutator < length self.old.mutators }
        requires serial { serial_of self.old mutator < 2 ^ 32 - 1 }
        requires dest { IsRegister dest }
        requires fields { All IsOperand fields.now }
        ensures born { IfOk result (λ reply. born self.old mutator dest (Node.Con tag (values_for self.old mutator fields.now)) ≡ (self.new, reply)) }
        ensures err { OnErr result (self.new ≡ self.old) }
    {
        let values = self.values(mutator, fields)?;
        self.add(mutator, dest, Node::Con { tag, values })
    }

    // Makes a variable, puts its reference into `dest`, and replies with its name.
    fn make_var(&mut self, mutator: u8, dest: u8, value: Operand) -> Result<Reply, NoMemory>
        requires mutator { mutator < length self.old.mutators }
        requires serial { serial_of self.old mutator < 2 ^ 32 - 1 }
        requires dest { IsRegister dest }
        requires value { IsOperand value }
        ensures born { IfOk result (λ reply. born self.old mutator dest (Node.Var (value_for self.old mutator value)) ≡ (self.new, reply)) }
        ensures err { OnErr result (self.new ≡ self.old) }
    {
        let value = self.value(mutator, value);
        self.add(mutator, dest, Node::Var { value })
    }

    // Makes an array of `count` copies of a value, puts its reference into `dest`, and replies with its name.
    fn make_arr(
        &mut self,
        mutator: u8,
        dest: u8,
        count: u32,
        value: Operand,
    ) -> Result<Reply, NoMemory>
        requires mutator { mutator < length self.old.mutators }
        requires serial { serial_of self.old mutator < 2 ^ 32 - 1 }
        requires dest { IsRegister dest }
        requires value { IsOperand value }
        ensures born { IfOk result (λ reply. born self.old mutator dest (Node.Arr (replicate count (value_for self.old mutator value))) ≡ (self.new, reply)) }
        ensures err { OnErr result (self.new ≡ self.old) }
    {
        let value = self.value(mutator, value);
        let values = copies(self.alloc, value, count as usize)?;
        self.add(mutator, dest, Node::Arr { values })
    }

    // Makes an array of the operands' values, puts its reference into `dest`, and replies with its name.
    fn make_rec(&mut self, mutator: u8, dest: u8, fields: &[Operand]) -> Result<Reply, NoMemory>
        requires mutator { mutator < length self.old.mutators }
        requires serial { serial_of self.old mutator < 2 ^ 32 - 1 }
        requires dest { IsRegister dest }
        requires fields { All IsOperand fields.now }
        ensures born { IfOk result (λ reply. born self.old mutator dest (Node.Arr (values_for self.old mutator fields.now)) ≡ (self.new, reply)) }
        ensures err { OnErr result (self.new ≡ self.old) }
    {
        let values = self.values(mutator, fields)?;
        self.add(mutator, dest, Node::Arr { values })
    }

    // Makes a thunk without a result, puts its reference into `dest`, and replies with its name.
    fn make_thunk(&mut self, mutator: u8, dest: u8, free: &[Operand]) -> Result<Reply, NoMemory>
        requires mutator { mutator < length self.old.mutators }
        requires serial { serial_of self.old mutator < 2 ^ 32 - 1 }
        requires dest { IsRegister dest }
        requires free { All IsOperand free.now }
        ensures born { IfOk result (λ reply. born self.old mutator dest (Node.Thunk (values_for self.old mutator free.now) None) ≡ (self.new, reply)) }
        ensures err { OnErr result (self.new ≡ self.old) }
    {
        let free = self.values(mutator, free)?;
        self.add(mutator, dest, Node::Thunk { free, result: None })
    }

    // Makes a weak pointer that is alive, puts its reference into `dest`, and replies with its name.
    fn make_weak(
        &mut self,
        mutator: u8,
        dest: u8,
        key: Operand,
        value: Operand,
        finaliser: Operand,
    ) -> Result<Reply, NoMemory>
        requires mutator { mutator < length self.old.mutators }
        requires serial { serial_of self.old mutator < 2 ^ 32 - 1 }
        requires dest { IsRegister dest }
        requires operands { IsOperand key × IsOperand value × IsOperand finaliser }
        ensures born { IfOk result (λ reply. born self.old mutator dest (Node.Weak (Some (record {
          key = value_for self.old mutator key;
          value = value_for self.old mutator value;
          finaliser = value_for self.old mutator finaliser;
        }))) ≡ (self.new, reply)) }
        ensures err { OnErr result (self.new ≡ self.old) }
    {
        let parts = Parts {
            key: self.value(mutator, key),
            value: self.value(mutator, value),
            finaliser: self.value(mutator, finaliser),
        };
        self.add(mutator, dest, Node::Weak { parts: Some(parts) })
    }

    // Makes an empty stack for at most `size` values, puts its reference into `dest`, and replies with its name.
    fn make_stack(&mut self, mutator: u8, dest: u8, size: u32) -> Result<Reply, NoMemory>
        requires mutator { mutator < length self.old.mutators }
        requires serial { serial_of self.old mutator < 2 ^ 32 - 1 }
        requires dest { IsRegister dest }
        ensures born { IfOk result (λ reply. born self.old mutator dest (Node.Stack size []) ≡ (self.new, reply)) }
        ensures err { OnErr result (self.new ≡ self.old) }
    {
        let values = List::new(self.alloc);
        self.add(mutator, dest, Node::Stack { size, values })
    }

    /// Returns the reply to `get` of a value's target: field `index`, or a refusal. Takes no memory, and constant time.
    pub fn field(&self, object: Value, index: u32) -> Reply
        ensures reply { result ≡ read_object (object_of self.now object) (λ node. field_read node index) }
        ensures known { IsKnownReply self.now result }
    {
        match self.object(object) {
            Some(node) => read_field(node, index),
            None => Reply::NoPointer,
        }
    }

    /// Returns the reply to `tag` of a value's target: a constructor's tag, or a refusal. Takes no memory, and constant time.
    pub fn tag_of(&self, object: Value) -> Reply
        ensures reply { result ≡ read_object (object_of self.now object) tag_read }
        ensures known { IsKnownReply self.now result }
    {
        match self.object(object) {
            Some(node) => read_tag(node),
            None => Reply::NoPointer,
        }
    }

    /// Returns the reply to `force` of a value's target: a thunk's result, or a refusal. Takes no memory, and constant time.
    pub fn result_of(&self, object: Value) -> Reply
        ensures reply { result ≡ read_object (object_of self.now object) result_read }
        ensures known { IsKnownReply self.now result }
    {
        match self.object(object) {
            Some(node) => read_result(node),
            None => Reply::NoPointer,
        }
    }

    /// Returns the reply to `deref` of a value's target: the value of a weak pointer that is alive, or a refusal. Takes no
    /// memory, and constant time.
    pub fn weak_value(&self, object: Value) -> Reply
        ensures reply { result ≡ read_object (object_of self.now object) value_read }
        ensures known { IsKnownReply self.now result }
    {
        match self.object(object) {
            Some(node) => read_value(node),
            None => Reply::NoPointer,
        }
    }

    // Does the change that a command asks for, and returns the reply. If the command asks for no change, the reply is `Fine`.
    fn change(&mut self, mutator: u8, command: &Command) -> Result<Reply, NoMemory>
        requires mutator { mutator < length self.old.mutators }
        requires registers { HasRegisters command.now }
        ensures ok { IfOk result (λ reply. change_asked self.old (asked self.old mutator command.now) ≡ (self.new, reply)) }
        ensures reply { IfOk result (IsKnownReply self.new) }
        ensures err { OnErr result (self.new ≡ self.old) }
    {
        match self.asked_change(mutator, command) {
            Some((object, change)) => self.change_object(object, change),
            None => Ok(Reply::Fine),
        }
    }

    // Does the change that a command asks for, and returns the reply. If the reply gives a value, `register` gets the value.
    fn change_into(
        &mut self,
        mutator: u8,
        register: u8,
        command: &Command,
    ) -> Result<Reply, NoMemory>
        requires mutator { mutator < length self.old.mutators }
        requires register { IsRegister register }
        requires registers { HasRegisters command.now }
        ensures ok { IfOk result (λ reply. change_into mutator register (change_asked self.old (asked self.old mutator command.now)) ≡ (self.new, reply)) }
        ensures err { OnErr result (self.new ≡ self.old) }
    {
        let reply = self.change(mutator, command)?;
        Ok(self.keep_reply(mutator, register, reply))
    }

    /// Returns the value of a command's object operand, and the change that the command asks of this object. Returns `None`
    /// exactly if the command asks for no change. The marking machine and the barrier checker use it to find the references
    /// that a command removes. Takes no memory, and constant time.
    pub fn asked_change(&self, mutator: u8, command: &Command) -> Option<(Value, Change)>
        requires mutator { mutator < length self.now.mutators }
        requires registers { HasRegisters command.now }
        ensures asked { result ≡ asked self.now mutator command.now }
        ensures object { IfSome result (λ asked. IsKnown self.now asked.0) }
        ensures change { IfSome result (λ asked. IsKnownChange self.now asked.1) }
    {
        let (object, change) = match command {
            Command::Set {
                object,
                index,
                value,
            } => (
                object,
                Change::Set {
                    index: *index,
                    value: self.value(mutator, *value),
                },
            ),
            Command::Cas {
                object,
                index,
                expected,
                value,
            } => (
                object,
                Change::Exchange {
                    index: *index,
                    expected: self.value(mutator, *expected),
                    value: self.value(mutator, *value),
                },
            ),
            Command::Update { object, value } => (
                object,
                Change::Update {
                    value: self.value(mutator, *value),
                },
            ),
            Command::Push { object, value } => (
                object,
                Change::Push {
                    mutator,
                    value: self.value(mutator, *value),
                },
            ),
            Command::Pop { dest: _, object } => (object, Change::Pop { mutator }),
            Command::Finalise { dest: _, object } => (object, Change::Finalise),
            _ => return None,
        };
        Some((self.value(mutator, *object), change))
    }

    /// Returns the value that an operand has for a mutator. Takes no memory, and constant time.
    pub fn value(&self, mutator: u8, operand: Operand) -> Value
        requires mutator { mutator < length self.now.mutators }
        requires operand { IsOperand operand }
        ensures value { result ≡ value_for self.now mutator operand }
        ensures known { IsKnown self.now result }
    {
        value_at(
            self.mutators.items()[mutator as usize].registers.items(),
            operand,
        )
    }

    // Returns the values that operands have for a mutator, in order.
    fn values(&self, mutator: u8, operands: &[Operand]) -> Result<List<Value>, NoMemory>
        requires mutator { mutator < length self.now.mutators }
        requires operands { All IsOperand operands.now }
        ensures values { IfOk result (λ values. values ≡ values_for self.now mutator operands.now) }
        ensures known { IfOk result (AreKnown self.now) }
    {
        values_at(
            self.alloc,
            self.mutators.items()[mutator as usize].registers.items(),
            operands,
        )
    }

    /// Returns the object that a value refers to, or `None` exactly if there is none. Takes no memory, and constant time.
    pub fn object(&self, value: Value) -> Option<&Node>
        ensures object { option_copied result ≡ object_of self.now value }
        ensures node { IfSome (option_copied result) (IsNodeOf self.now) }
    {
        let _ = &self.mutators;
        match value {
            Value::Ref(name) => self.node(name),
            _ => None,
        }
    }

    /// Returns the node of a name, or `None` exactly if the name isn't in the map. Takes constant time.
    pub fn node(&self, name: Name) -> Option<&Node>
        ensures { option_copied result ≡ node_of self.now name }
    {
        if name.maker == SHARED_MAKER {
            return if name.serial == 0 {
                Some(&self.shared)
            } else {
                None
            };
        }
        let state = self.mutators.items().get(name.maker as usize)?;
        state.nodes.items().get(name.serial as usize)
    }

    /// Writes a known value into a register of a mutator, and replies `Fine`. Takes no memory, and constant time.
    pub fn set_register(&mut self, mutator: u8, register: u8, value: Value) -> Reply
        requires mutator { mutator < length self.old.mutators }
        requires register { IsRegister register }
        requires known { IsKnown self.old value }
        ensures world { self.new ≡ with_register self.old mutator register value }
        ensures reply { result ≡ Reply.Fine }
    {
        write_register(
            &mut self.mutators.items_mut()[mutator as usize],
            register,
            value,
        );
        Reply::Fine
    }

    // Writes an operand's value into a register, and replies `Fine`.
    fn set_register_from(&mut self, mutator: u8, register: u8, operand: Operand) -> Reply
        requires mutator { mutator < length self.old.mutators }
        requires register { IsRegister register }
        requires operand { IsOperand operand }
        ensures world { self.new ≡ with_register self.old mutator register (value_for self.old mutator operand) }
        ensures reply { result ≡ Reply.Fine }
    {
        let value = self.value(mutator, operand);
        self.set_register(mutator, register, value)
    }

    /// Returns the reply to `same`: `Yes` if two operands have the same value, else `No`. Takes no memory, and constant time.
    pub fn compare(&self, mutator: u8, left: Operand, right: Operand) -> Reply
        requires mutator { mutator < length self.now.mutators }
        requires left { IsOperand left }
        requires right { IsOperand right }
        ensures { result ≡ same_reply (value_for self.now mutator left) (value_for self.now mutator right) }
    {
        if are_same(self.value(mutator, left), self.value(mutator, right)) {
            Reply::Yes
        } else {
            Reply::No
        }
    }

    // Writes the value that a reply gives, if any, into a register, and returns the same reply.
    fn keep_reply(&mut self, mutator: u8, register: u8, reply: Reply) -> Reply
        requires mutator { mutator < length self.old.mutators }
        requires register { IsRegister register }
        requires known { IsKnownReply self.old reply }
        ensures world { self.new ≡ keeping self.old mutator register reply }
        ensures reply { result ≡ reply }
    {
        if let Reply::Given(value) = reply {
            self.set_register(mutator, register, value);
        }
        reply
    }

    // Adds a new node of a mutator, puts a reference to the node into a register, and replies with the node's name.
    fn add(&mut self, mutator: u8, register: u8, made: Node) -> Result<Reply, NoMemory>
        requires mutator { mutator < length self.old.mutators }
        requires register { IsRegister register }
        requires serial { serial_of self.old mutator < 2 ^ 32 - 1 }
        requires node { IsNodeOf self.old made }
        ensures ok { IfOk result (λ reply. born self.old mutator register made ≡ (self.new, reply)) }
        ensures err { OnErr result (self.new ≡ self.old) }
    {
        let state = &mut self.mutators.items_mut()[mutator as usize];
        let name = add_node(state, mutator, register, made)?;
        Ok(Reply::Given(Value::Ref(name)))
    }

    // Makes a change to the object that a value refers to, unless the change is refused. Returns the reply, which is
    // `NoPointer` if the value refers to no object.
    fn change_object(&mut self, object: Value, change: Change) -> Result<Reply, NoMemory>
        requires object { IsKnown self.old object }
        requires known { IsKnownChange self.old change }
        ensures ok { IfOk result (λ reply. change_object self.old object change ≡ (self.new, reply)) }
        ensures reply { IfOk result (IsKnownReply self.new) }
        ensures err { OnErr result (self.new ≡ self.old) }
    {
        let _ = &self.mutators;
        match object {
            Value::Ref(name) => self.change_node(name, change),
            _ => Ok(Reply::NoPointer),
        }
    }

    // Makes a change, unless refused, of a name's node, and returns the reply. The world has to have the name.
    fn change_node(&mut self, name: Name, change: Change) -> Result<Reply, NoMemory>
        requires there { IsSome (node_of self.old name) }
        requires known { IsKnownChange self.old change }
        ensures ok { IfOk result (λ reply. change_node self.old name (node_of self.old name) change ≡ (self.new, reply)) }
        ensures reply { IfOk result (IsKnownReply self.new) }
        ensures err { OnErr result (self.new ≡ self.old) }
    {
        if name.maker == SHARED_MAKER {
            return change_in_place(&mut self.shared, SHARED_MAKER, change);
        }
        change_nth(
            &mut self.mutators.items_mut()[name.maker as usize],
            name,
            change,
        )
    }

    // Moves the first finaliser of a mutator's queue, if any, into a register, and returns the reply to `nextfin`.
    fn next_finaliser(&mut self, mutator: u8, register: u8) -> Reply
        requires mutator { mutator < length self.old.mutators }
        requires register { IsRegister register }
        ensures { next_finaliser self.old mutator register ≡ (self.new, result) }
    {
        take_finaliser(&mut self.mutators.items_mut()[mutator as usize], register)
    }
}

// Writes a value into a register of a mutator's state.
fn write_register(state: &mut MutatorState, register: u8, value: Value)
    requires registers { length state.old.registers ≡ REGISTERS }
    requires register { IsRegister register }
    ensures { state.new ≡ holding state.old register value }
{
    state.registers.items_mut()[register as usize] = value;
}

// Moves the first finaliser of the queue, if any, into a register, and returns the reply to `nextfin`.
fn take_finaliser(state: &mut MutatorState, register: u8) -> Reply
    requires registers { length state.old.registers ≡ REGISTERS }
    requires register { IsRegister register }
    ensures state { state.new ≡ with_finaliser state.old register }
    ensures reply { result ≡ given_or Reply.Nothing (slice_get state.old.queue 0) }
{
    let Some(value) = state.queue.take_first() else {
        return Reply::Nothing;
    };
    write_register(state, register, value);
    Reply::Given(value)
}

// Returns the value of an operand: the value in its register, or the reference to g.
fn value_at(registers: &[Value], operand: Operand) -> Value
    requires operand { IsOperand operand }
    requires registers { length registers.now ≡ REGISTERS }
    ensures { result ≡ value_of registers.now operand }
{
    match operand {
        Operand::Register(register) => registers[register as usize],
        Operand::Shared => Value::Ref(Name::SHARED),
    }
}

// Returns the values that operands have with these registers, in order.
fn values_at(
    alloc: Global,
    registers: &[Value],
    operands: &[Operand],
) -> Result<List<Value>, NoMemory>
    requires operands { All IsOperand operands.now }
    requires registers { length registers.now ≡ REGISTERS }
    ensures { IfOk result (λ values. values ≡ map (value_of registers.now) operands.now) }
{
    let mut values = Vec::with_capacity(alloc, operands.len())?;
    for operand in operands {
        values.push(value_at(registers, *operand))?;
    }
    List::from_vec(values)
}

// Adds a new node of a mutator, puts a reference to the node into a register, and returns the node's name.
fn add_node(
    state: &mut MutatorState,
    mutator: u8,
    register: u8,
    made: Node,
) -> Result<Name, NoMemory>
    requires registers { length state.old.registers ≡ REGISTERS }
    requires register { IsRegister register }
    requires serial { length state.old.nodes < 2 ^ 32 - 1 }
    ensures state { OnOk result (state.new ≡ with_new state.old mutator register made) }
    ensures name { IfOk result (λ name. name ≡ next_name state.old mutator) }
    ensures err { OnErr result (state.new ≡ state.old) }
{
    let name = Name {
        maker: mutator,
        serial: state.nodes.items().len() as u32,
    };
    state.nodes.push(made)?;
    write_register(state, register, Value::Ref(name));
    Ok(name)
}

// Makes a change, unless refused, of the object at the name's serial. Returns the reply. `NoMemory` changes nothing.
fn change_nth(state: &mut MutatorState, name: Name, change: Change) -> Result<Reply, NoMemory>
    requires { name.serial < length state.old.nodes }
    ensures state { (old : NodeAt) → slice_get state.old.nodes name.serial ≡ Some old →
        OnOk result (state.new ≡ with_nth state.old name.serial (changed change name.maker old).0) }
    ensures reply { (old : NodeAt) → slice_get state.old.nodes name.serial ≡ Some old → IfOk result (λ reply. reply ≡ (changed change name.maker old).1) }
    ensures err { OnErr result (state.new ≡ state.old) }
{
    change_in_place(
        &mut state.nodes.items_mut()[name.serial as usize],
        name.maker,
        change,
    )
}

/// Returns a list of `count` copies of a value.
pub(crate) fn copies(alloc: Global, value: Value, count: usize) -> Result<List<Value>, NoMemory>
    ensures { IfOk result (λ values. values ≡ replicate count value) }
{
    List::from_vec(vec![in alloc; value; count]?)
}

// Returns a list of `mutators` equal states: the state of a mutator before any command.
fn new_mutators(alloc: Global, mutators: u8) -> Result<List<MutatorState>, NoMemory>
    ensures { IfOk result (λ states. states ≡ replicate mutators new_mutator) }
{
    let mut states = List::new(alloc);
    for _ in 0..mutators {
        let registers = copies(alloc, Value::Nil, REGISTERS as usize)?;
        states.push(MutatorState {
            registers,
            queue: Queue::new(alloc),
            nodes: List::new(alloc),
        })?;
    }
    Ok(states)
}
