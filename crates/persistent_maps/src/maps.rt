//! Maps that share nodes.
ghost use Rattle.std.specs.Prelude.{◌≡◌, ℕ, ◌+◌, ◌≤◌, ◌<◌, ◌^◌, IfOk};
ghost use Rattle.std.specs.Option.{option_or};
ghost use Rattle.persistent_maps.specs.Gives.{Gives, put};
ghost use Rattle.persistent_maps.specs.Keeps.{Keeps};
ghost use Rattle.persistent_maps.specs.Maps.{bits_of, node_count, value_of, IsMapOf};

use crate::nodes::{self, Node, node_at};
use sqlite_items::Items;
use std::alloc::{AllocError, Global};

/// The nodes of maps from numbers below a power of two. They only become more.
#[derive(Drop)]
pub struct Maps {
    bits: u32,
    nodes: Items<Node>,
}

/// A map whose nodes stand in a `Maps`.
#[derive(Clone, Copy)]
pub struct Map {
    /// The number of a node, or the value itself where keys have no bits. Nothing is an empty map.
    root: Option<u32>,
}

impl Map {
    /// The map that has no keys.
    pub fn empty() -> Map
        ensures { (maps : Maps) → Gives maps result (λ _. None) }
    {
        Map { root: None }
    }
}

impl Maps {
    /// For maps from keys of so many bits; a key has no more than 32. Takes no memory yet.
    pub fn new(alloc: Global, bits: u32) -> Maps
        requires { bits ≤ 32 }
        ensures bits { bits_of result ≡ bits }
        ensures no_nodes { node_count result ≡ 0 }
    {
        Maps {
            bits,
            nodes: Items::new(alloc),
        }
    }

    /// For maps from keys below this, with as few bits as these need. Takes no memory yet.
    pub fn for_keys(alloc: Global, count: u32) -> Maps
        ensures enough { count ≤ 2 ^ bits_of result }
        ensures least { (bits : ℕ) → count ≤ 2 ^ bits → bits_of result ≤ bits }
        ensures no_nodes { node_count result ≡ 0 }
    {
        Maps::new(alloc, u32::BITS - count.saturating_sub(1).leading_zeros())
    }

    /// What the map has at the key. Takes time in the bits of keys.
    pub fn get(&self, map: Map, mut key: u32) -> Option<u32>
        ensures { result ≡ value_of self.now map key }
    {
        let mut root = map.root;
        for _ in 0..self.bits {
            root = node_at(self.nodes.as_slice(), root).half(key);
            key /= 2;
        }
        if key == 0 { root } else { None }
    }

    /// The map that has this value at the key, and at all other keys what the old one has. Takes time and nodes in the
    /// bits of keys.
    pub fn with(&mut self, map: Map, key: u32, value: u32) -> Result<Map, AllocError>
        requires is_map { IsMapOf self.old map }
        requires is_key { key < 2 ^ bits_of self.old }
        ensures made { IfOk result (λ made. Gives self.new made (put (value_of self.old map) key value)) }
        ensures keeps { Keeps self.old self.new }
        ensures few { node_count self.new ≤ node_count self.old + bits_of self.old }
    {
        let root = nodes::put(&mut self.nodes, self.bits, map.root, key, value)?;
        Ok(Map { root: Some(root) })
    }

    /// The map that has at each key what the left one has there, and where that has nothing what the right one has. Goes no
    /// further down than both have nodes that differ, so it takes time and nodes in those of the smaller one, and makes no
    /// node where the left one has all keys of the right one.
    pub fn union(&mut self, left: Map, right: Map) -> Result<Map, AllocError>
        requires left_is_map { IsMapOf self.old left }
        requires right_is_map { IsMapOf self.old right }
        ensures made { IfOk result (λ made. Gives self.new made (λ key. option_or (value_of self.old left key) (value_of self.old right key))) }
        ensures keeps { Keeps self.old self.new }
    {
        let root = nodes::union(&mut self.nodes, self.bits, left.root, right.root)?;
        Ok(Map { root })
    }
}
