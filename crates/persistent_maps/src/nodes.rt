//! The nodes of maps.
ghost use Rattle.std.specs.Prelude.{◌≡◌, ◌++◌, [], ◌∷◌, ◌+◌, ◌≤◌, ◌<◌, ◌^◌, length, IfOk, IfSome, OnErr};
ghost use Rattle.persistent_maps.specs.Growth.{Extends, IsPushed, Puts, StandsAt, Unites};
ghost use Rattle.persistent_maps.specs.Lookup.{IsMapTo};
ghost use Rattle.persistent_maps.specs.Nodes as spec;

use sqlite_items::{Items, at};
use std::alloc::{AllocError, Global};

/// Joins two maps: that of the even keys and that of the odd ones, each by the halves of its keys.
#[derive(Clone, Copy, PartialEq, Eq)]
pub struct Node {
    pub even: Option<u32>,
    pub odd: Option<u32>,
}

impl Node {
    /// The one of its two maps that has the key.
    pub fn half(self, key: u32) -> Option<u32>
        ensures { result ≡ spec.half self key }
    {
        if key % 2 == 0 { self.even } else { self.odd }
    }

    /// The same, but for the map that has the key.
    fn with_half(self, key: u32, half: Option<u32>) -> Node
        ensures { result ≡ spec.with_half self key half }
    {
        if key % 2 == 0 {
            Node {
                even: half,
                odd: self.odd,
            }
        } else {
            Node {
                even: self.even,
                odd: half,
            }
        }
    }
}

/// The node of this number. Where there is none, both of its maps are empty.
pub fn node_at(nodes: &[Node], number: Option<u32>) -> Node
    ensures { result ≡ spec.node_at nodes.now number }
{
    let none = Node {
        even: None,
        odd: None,
    };
    match number {
        Some(number) => match at(nodes, number as usize) {
            Some(node) => *node,
            None => none,
        },
        None => none,
    }
}

/// Appends a node, and gives its number.
fn push(nodes: &mut Items<Node>, node: Node) -> Result<u32, AllocError>
    ensures ok { IfOk result (IsPushed nodes.old nodes.new node) }
    ensures err { OnErr result (nodes.new ≡ nodes.old) }
{
    let number = u32::try_from(nodes.len()).map_err(|_| AllocError)?;
    nodes.push(node)?;
    Ok(number)
}

/// Copies the nodes on the way to a key of so many bits, to put a value there, and gives the root of the copy.
pub fn put(
    nodes: &mut Items<Node>,
    bits: u32,
    root: Option<u32>,
    key: u32,
    value: u32,
) -> Result<u32, AllocError>
    requires is_map { IsMapTo nodes.old bits root }
    requires is_key { key < 2 ^ bits }
    ensures extends { Extends nodes.old nodes.new }
    ensures few { length nodes.new ≤ length nodes.old + bits }
    ensures made { IfOk result (Puts nodes.old nodes.new bits root key value) }
{
    if bits == 0 {
        return Ok(value);
    }
    let node = node_at(nodes.as_slice(), root);
    let half = put(nodes, bits - 1, node.half(key), key / 2, value)?;
    push(nodes, node.with_half(key, Some(half)))
}

/// The number of a node: that of one of these two where they have it, else that of a new one.
fn either_or_new(
    nodes: &mut Items<Node>,
    node: Node,
    left: Option<u32>,
    right: Option<u32>,
) -> Result<Option<u32>, AllocError>
    requires left_is_there { IfSome left (λ n. n < length nodes.old) }
    requires right_is_there { IfSome right (λ n. n < length nodes.old) }
    ensures extends { Extends nodes.old nodes.new }
    ensures stands { IfOk result (λ number. StandsAt nodes.new number node) }
{
    if node_at(nodes.as_slice(), left) == node {
        return Ok(left);
    }
    if node_at(nodes.as_slice(), right) == node {
        return Ok(right);
    }
    let number = push(nodes, node)?;
    Ok(Some(number))
}

/// The root of the map of so many bits that has what the left one has, and else what the right one has. Goes no further
/// down than both of them have nodes that differ.
pub fn union(
    nodes: &mut Items<Node>,
    bits: u32,
    left: Option<u32>,
    right: Option<u32>,
) -> Result<Option<u32>, AllocError>
    requires left_is_map { IsMapTo nodes.old bits left }
    requires right_is_map { IsMapTo nodes.old bits right }
    ensures extends { Extends nodes.old nodes.new }
    ensures made { IfOk result (Unites nodes.old nodes.new bits left right) }
{
    let Some(left_number) = left else {
        return Ok(right);
    };
    let Some(right_number) = right else {
        return Ok(left);
    };
    if left_number == right_number || bits == 0 {
        return Ok(left);
    }
    let left_node = node_at(nodes.as_slice(), left);
    let right_node = node_at(nodes.as_slice(), right);
    let even = union(nodes, bits - 1, left_node.even, right_node.even)?;
    let odd = union(nodes, bits - 1, left_node.odd, right_node.odd)?;
    either_or_new(nodes, Node { even, odd }, left, right)
}
