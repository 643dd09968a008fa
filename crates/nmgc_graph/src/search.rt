//! A search for names: the marked names, and a worklist of marked names that wait.
//!
//! A name is marked once, and joins the worklist when it is marked. So a search takes time proportional to the names that it
//! marks and the fields that it reads, and it needs no recursion. The fields of a marked name refer to marked names, unless
//! the name is on the worklist. So all names in a name's fields have to be marked before the next name is taken.
ghost use Rattle.std.specs.Prelude.{◌≡◌, All, OnOk, map};
ghost use Rattle.nmgc_world_spec.specs.{declared.value.Value.TheVariants.Ref, Reach.strong_fields};
ghost use Rattle.nmgc_graph.specs.Marks.{HasPlace, IsPlaced};

use crate::marks::Marks;
use nmgc_lists::{List, NoMemory};
use nmgc_world_spec::{Name, Node, Value};

/// The marked names, and the worklist: the marked names that wait for their fields to be marked.
#[derive(Drop)]
pub(crate) struct Search {
    pub(crate) marks: Marks,
    pub(crate) work: List<Name>,
}

impl Search {
    ghost use Rattle.nmgc_graph.specs.Search.{with_name, with_value, with_values, is_key_marked};

    /// Marks a name, and puts it on the worklist if it wasn't marked before.
    pub(crate) fn mark(&mut self, name: Name) -> Result<(), NoMemory>
        requires { HasPlace self.old.marks name }
        ensures { OnOk result (self.new ≡ with_name self.old name) }
    {
        if self.marks.insert(name) {
            self.work.push(name)?;
        }
        Ok(())
    }

    /// If a value refers to a name, marks the name, and puts it on the worklist if it wasn't marked before.
    pub(crate) fn mark_value(&mut self, value: Value) -> Result<(), NoMemory>
        requires { IsPlaced self.old.marks value }
        ensures { OnOk result (self.new ≡ with_value self.old value) }
    {
        match value {
            Value::Ref(name) => self.mark(name),
            _ => Ok(()),
        }
    }

    /// Marks the names that values refer to, and puts those that weren't marked before on the worklist.
    pub(crate) fn mark_values(&mut self, values: &[Value]) -> Result<(), NoMemory>
        requires { All (IsPlaced self.old.marks) values.now }
        ensures { OnOk result (self.new ≡ with_values self.old values.now) }
    {
        for value in values {
            self.mark_value(*value)?;
        }
        Ok(())
    }

    /// Marks each of these names, and puts those that weren't marked before on the worklist.
    pub(crate) fn mark_names(&mut self, names: &[Name]) -> Result<(), NoMemory>
        requires { All (HasPlace self.old.marks) names.now }
        ensures { OnOk result (self.new ≡ with_values self.old (map Ref names.now)) }
    {
        for name in names {
            self.mark(*name)?;
        }
        Ok(())
    }

    /// Marks the targets of a node's strong fields, and puts those that weren't marked before on the worklist.
    pub(crate) fn mark_fields(&mut self, node: &Node) -> Result<(), NoMemory>
        requires { All (IsPlaced self.old.marks) (strong_fields node.now) }
        ensures { OnOk result (self.new ≡ with_values self.old (strong_fields node.now)) }
    {
        match node {
            Node::Con { values, .. } | Node::Arr { values } | Node::Stack { values, .. } => {
                self.mark_values(values.items())
            }
            Node::Var { value } => self.mark_values(&[*value]),
            Node::Thunk {
                result: Some(value),
                ..
            } => self.mark_values(&[*value]),
            Node::Thunk { free, result: None } => self.mark_values(free.items()),
            Node::Weak { .. } => Ok(()),
        }
    }

    /// Whether a key counts as marked: it is nil, a number, or a reference to a marked name.
    pub(crate) fn is_key_marked(&self, value: Value) -> bool
        ensures { result ≡ is_key_marked self.now.marks value }
    {
        match value {
            Value::Ref(name) => self.marks.contains(name),
            _ => true,
        }
    }
}
