//! The effect of a command on the one object that it names.
//!
//! `set`, `cas`, `update`, `push`, `pop` and `finalise` differ in the object that they want and in their writes. All else is
//! the same: the object is looked up, refused by its kind, changed in place, and a reply is given. So the world lends the
//! object once, and the change is made here, on the node alone, in two halves. `change_reply` only reads: it gives the reply,
//! which says whether the change is done. If it is, `write` makes the change, and refuses nothing. `World::apply` uses both
//! halves, and `World::reply` the first alone, so the two can't differ. The readers for `get`, `tag`, `force` and `deref` are
//! here too, since they refuse by kind in the same way.
//!
//! Easy to get wrong: `write` doesn't check for refusals again, and writes a variable's field at any index. So it may be
//! called only if the reply says that the change is done.
ghost use Rattle.std.specs.Prelude.{◌≡◌, IfOk, OnOk, OnErr};
ghost use Rattle.nmgc_world_spec.specs.{World.changed, World.field_read, World.tag_read, World.result_read, World.value_read, World.field_set, World.field_exchanged, World.thunk_updated, World.stack_pushed, World.stack_popped, World.weak_finalised, World.is_same, Pieces.given_or, Written.is_done, Written.written, Written.field_written, Written.result_written, Written.value_pushed, Written.top_dropped, Written.killed};
ghost use Rattle.nmgc_world_spec.specs.declared.value.Value.{Value as ValueAt};

use nmgc_lists::NoMemory;
use nmgc_world_spec::{Change, Node, Reply, Value};

/// Returns the reply to `get` for an object: the field at `index` of a constructor, a variable or an array, or a refusal.
/// Takes no memory, and constant time.
pub fn read_field(node: &Node, index: u32) -> Reply
    ensures { result ≡ field_read node.now index }
{
    match node {
        Node::Con { tag: _, values: _ } | Node::Var { value: _ } | Node::Arr { values: _ } => {
            value_reply(Reply::NoField, node.field(index as usize))
        }
        _ => Reply::WrongKind,
    }
}

/// Returns the reply to `tag` for an object: a constructor's tag as a number, or a refusal. Takes no memory, and constant time.
pub fn read_tag(node: &Node) -> Reply
    ensures { result ≡ tag_read node.now }
{
    match node {
        Node::Con { tag, values: _ } => Reply::Given(Value::Number(*tag as u64)),
        _ => Reply::WrongKind,
    }
}

/// Returns the reply to `force` for an object: the result of a thunk, or a refusal. Takes no memory, and constant time.
pub fn read_result(node: &Node) -> Reply
    ensures { result ≡ result_read node.now }
{
    match node {
        Node::Thunk { free: _, result } => value_reply(Reply::Nothing, *result),
        _ => Reply::WrongKind,
    }
}

/// Returns the reply to `deref` for an object: the value of a weak pointer that is alive, or a refusal. Takes no memory, and
/// constant time.
pub fn read_value(node: &Node) -> Reply
    ensures { result ≡ value_read node.now }
{
    match node {
        Node::Weak { parts: Some(parts) } => Reply::Given(parts.value),
        Node::Weak { parts: None } => Reply::Dead,
        _ => Reply::WrongKind,
    }
}

/// Returns the reply that gives the value, and `refusal` if there is no value. Takes no memory.
pub fn value_reply(refusal: Reply, value: Option<Value>) -> Reply
    ensures { result ≡ given_or refusal value }
{
    match value {
        Some(value) => Reply::Given(value),
        None => refusal,
    }
}

/// Whether two values are the same: both nil, the same number, or references to the same name. Takes no memory.
pub fn are_same(left: Value, right: Value) -> bool
    ensures { result ≡ is_same left right }
{
    match (left, right) {
        (Value::Nil, Value::Nil) => true,
        (Value::Number(left), Value::Number(right)) => left == right,
        (Value::Ref(left), Value::Ref(right)) => {
            left.maker == right.maker && left.serial == right.serial
        }
        _ => false,
    }
}

/// Returns the reply to a change of a node that `maker` made. The node stays as it is. Takes no memory, and constant time.
pub fn change_reply(node: &Node, maker: u8, change: Change) -> Reply
    ensures { result ≡ (changed change maker node.now).1 }
{
    match change {
        Change::Set { index, value: _ } => set_reply(node, index),
        Change::Exchange {
            index,
            expected,
            value: _,
        } => exchange_reply(node, index, expected),
        Change::Update { value: _ } => update_reply(node),
        Change::Push { mutator, value: _ } => push_reply(node, maker == mutator),
        Change::Pop { mutator } => pop_reply(node, maker == mutator),
        Change::Finalise => finalise_reply(node),
    }
}

// Returns the reply to `set`, which writes field `index` of a node.
fn set_reply(node: &Node, index: u32) -> Reply
    ensures { (v : ValueAt) → result ≡ (field_set node.now index v).1 }
{
    let fields = match node {
        Node::Con { tag: _, values: _ } => return Reply::Fixed,
        Node::Var { value: _ } => 1,
        Node::Arr { values } => values.items().len(),
        _ => return Reply::WrongKind,
    };
    if (index as usize) < fields {
        Reply::Fine
    } else {
        Reply::NoField
    }
}

// Returns the reply to `cas`, which writes field `index` of a node only if the field has the expected value.
fn exchange_reply(node: &Node, index: u32, expected: Value) -> Reply
    ensures { (v : ValueAt) → result ≡ (field_exchanged node.now index expected v).1 }
{
    match node {
        Node::Con { tag: _, values: _ } => return Reply::Fixed,
        Node::Var { value: _ } | Node::Arr { values: _ } => {}
        _ => return Reply::WrongKind,
    }
    match node.field(index as usize) {
        Some(old) if are_same(old, expected) => Reply::Yes,
        Some(_) => Reply::No,
        None => Reply::NoField,
    }
}

// Returns the reply to `update`, which writes the result of a thunk that has none.
fn update_reply(node: &Node) -> Reply
    ensures { (v : ValueAt) → result ≡ (thunk_updated node.now v).1 }
{
    match node {
        Node::Thunk {
            free: _,
            result: None,
        } => Reply::Updated,
        Node::Thunk {
            free: _,
            result: Some(_),
        } => Reply::Already,
        _ => Reply::WrongKind,
    }
}

// Returns the reply to `push`; `own` says whether the mutator that pushes made the stack.
fn push_reply(node: &Node, own: bool) -> Reply
    ensures { (v : ValueAt) → result ≡ (stack_pushed own node.now v).1 }
{
    match node {
        Node::Stack { size, values } => {
            if !own {
                Reply::NotOwner
            } else if values.items().len() < *size as usize {
                Reply::Fine
            } else {
                Reply::StackFull
            }
        }
        _ => Reply::WrongKind,
    }
}

// Returns the reply to `pop`; `own` says whether the mutator that pops made the stack.
fn pop_reply(node: &Node, own: bool) -> Reply
    ensures { result ≡ (stack_popped own node.now).1 }
{
    match node {
        Node::Stack { size: _, values } => {
            if own {
                value_reply(Reply::StackEmpty, values.items().last().copied())
            } else {
                Reply::NotOwner
            }
        }
        _ => Reply::WrongKind,
    }
}

// Returns the reply to `finalise`: the weak pointer's finaliser, or a refusal.
fn finalise_reply(node: &Node) -> Reply
    ensures { result ≡ (weak_finalised node.now).1 }
{
    match node {
        Node::Weak { parts: Some(parts) } => Reply::Given(parts.finaliser),
        Node::Weak { parts: None } => Reply::Dead,
        _ => Reply::WrongKind,
    }
}

// Whether a reply to a change means that the change is done.
fn is_done(reply: Reply) -> bool
    ensures { result ≡ is_done reply }
{
    match reply {
        Reply::Fine | Reply::Yes | Reply::Updated | Reply::Given(_) => true,
        Reply::No
        | Reply::Already
        | Reply::NoPointer
        | Reply::NoField
        | Reply::WrongKind
        | Reply::NotOwner
        | Reply::Fixed
        | Reply::Dead
        | Reply::Nothing
        | Reply::StackFull
        | Reply::StackEmpty => false,
    }
}

/// Makes a change of an object's node in place, unless refused, and returns the reply. `maker` is the object's maker. A
/// refusal, `No` or `Already` leaves the node as it was. Only a push takes memory. After `NoMemory` the node is unchanged.
#[tactic(auto, using(crate::proofs::Changes::done_is, crate::proofs::Changes::refused_is))]
pub fn change_in_place(node: &mut Node, maker: u8, change: Change) -> Result<Reply, NoMemory>
    ensures ok { IfOk result (λ reply. changed change maker node.old ≡ (node.new, reply)) }
    ensures err { OnErr result (node.new ≡ node.old) }
{
    let reply = change_reply(node, maker, change);
    if !is_done(reply) {
        return Ok(reply);
    }
    write(node, change)?;
    Ok(reply)
}

// Makes a change in the node, without a check that it is done (`is_done`). After `NoMemory` the node is unchanged.
fn write(node: &mut Node, change: Change) -> Result<(), NoMemory>
    ensures ok { OnOk result (node.new ≡ written change node.old) }
    ensures err { OnErr result (node.new ≡ node.old) }
{
    match change {
        Change::Set { index, value } => write_field(node, index, value),
        Change::Exchange {
            index,
            expected: _,
            value,
        } => write_field(node, index, value),
        Change::Update { value } => write_result(node, value),
        Change::Push { mutator: _, value } => push_value(node, value)?,
        Change::Pop { mutator: _ } => drop_top(node),
        Change::Finalise => kill(node),
    }
    Ok(())
}

// Writes a variable's field, whatever the index, or the field of an array that has it. Any other node stays as it is.
fn write_field(node: &mut Node, index: u32, value: Value)
    ensures { node.new ≡ field_written node.old index value }
{
    match node {
        Node::Var { value: field } => *field = value,
        Node::Arr { values } => {
            if (index as usize) < values.items().len() {
                values.items_mut()[index as usize] = value;
            }
        }
        _ => {}
    }
}

// Writes the result of a thunk, even if it has one already. Any other node stays as it is.
fn write_result(node: &mut Node, value: Value)
    ensures { node.new ≡ result_written node.old value }
{
    if let Node::Thunk { free: _, result } = node {
        *result = Some(value);
    }
}

// Pushes a value on a stack, whatever its size. Any other node stays as it is.
fn push_value(node: &mut Node, value: Value) -> Result<(), NoMemory>
    ensures ok { OnOk result (node.new ≡ value_pushed node.old value) }
    ensures err { OnErr result (node.new ≡ node.old) }
{
    match node {
        Node::Stack { size: _, values } => values.push(value),
        _ => Ok(()),
    }
}

// Drops the top of a stack, if there is one. Any other node stays as it is.
fn drop_top(node: &mut Node)
    ensures { node.new ≡ top_dropped node.old }
{
    if let Node::Stack { size: _, values } = node {
        values.pop();
    }
}

// Makes a weak pointer dead. Any other node stays as it is.
fn kill(node: &mut Node)
    ensures { node.new ≡ killed node.old }
{
    if let Node::Weak { parts } = node {
        *parts = None;
    }
}
