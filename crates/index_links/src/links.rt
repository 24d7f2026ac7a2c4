//! Lists over numbered nodes.
ghost use Rattle.std.specs.Prelude.{◌≡◌, ℕ, ◌<◌, List, [], ◌∷◌, ◌++◌, length, IsSome, IfSome, IfOk, MatchOption, None, replicate, slice_set};
ghost use Rattle.index_links.specs.Lists.{Lists, nodes_in, list_with, first_of, next_of, taken_out, with_list, empty_lists, IsApart};
ghost use Rattle.index_links.specs.Arrays.{pointed, ended};

use std::alloc::{AllocError, Global};
use std::marker::Model;

/// Lists over the nodes from 0 on, each node in at most one list.
#[derive(Drop)]
pub struct Links {
    next: Vec<Option<u32>>,
    previous: Vec<Option<u32>>,
    list: Vec<Option<u32>>,
    first: Vec<Option<u32>>,
    last: Vec<Option<u32>>,
}

impl Model for Links {
    ghost use Rattle.index_links.specs.Lists.{Lists, coded_Lists};

    ghost Value = { Lists };

    ghost coded = { coded_Lists };

    ghost use Rattle.index_links.specs.Inside.{lists_of, IsLinked};

    ghost view = { lists_of };

    ghost invariant = { IsLinked };
}

impl Links {
    /// So many nodes and lists. All lists are empty.
    pub fn new(alloc: Global, nodes: u32, lists: u32) -> Result<Links, AllocError>
        ensures { IfOk result (λ links. links ≡ empty_lists nodes lists) }
    {
        Ok(Links {
            next: nothings(alloc, nodes)?,
            previous: nothings(alloc, nodes)?,
            list: nothings(alloc, nodes)?,
            first: nothings(alloc, lists)?,
            last: nothings(alloc, lists)?,
        })
    }

    /// Puts a node that is in no list behind all nodes of the list.
    pub fn push_back(&mut self, list: u32, node: u32)
        requires list_exists { list < length self.old.lists }
        requires node_exists { node < self.old.nodes }
        requires free { list_with self.old node ≡ None }
        ensures { self.new ≡ with_list self.old list (nodes_in self.old list ++ node ∷ []) }
    {
        let before = self.last[list as usize];
        point(&mut self.next, &mut self.first, list, before, Some(node));
        self.previous[node as usize] = before;
        self.list[node as usize] = Some(list);
        self.last[list as usize] = Some(node);
    }

    /// Takes a node out of the list that it is in.
    pub fn remove(&mut self, node: u32)
        requires { IsSome (list_with self.old node) }
        ensures { self.new ≡ taken_out self.old node (list_with self.old node) }
    {
        let list = self.list[node as usize].unwrap();
        let before = self.previous[node as usize];
        let after = self.next[node as usize];
        point(&mut self.next, &mut self.first, list, before, after);
        point(&mut self.previous, &mut self.last, list, after, before);
        self.next[node as usize] = None;
        self.previous[node as usize] = None;
        self.list[node as usize] = None;
    }

    /// Takes the first node out of the list, if there is one.
    pub fn pop_front(&mut self, list: u32) -> Option<u32>
        requires { list < length self.old.lists }
        ensures { MatchOption result
            ((nodes_in self.old list ≡ []) × (self.new ≡ self.old))
            (λ node. (rest : List ℕ) × (nodes_in self.old list ≡ node ∷ rest) × (self.new ≡ with_list self.old list rest)) }
    {
        let node = self.first(list)?;
        self.remove(node);
        Some(node)
    }

    /// The list that the node is in, if it is in one.
    pub fn list_of(&self, node: u32) -> Option<u32>
        requires { node < self.now.nodes }
        ensures list { result ≡ list_with self.now node }
        ensures apart { IsApart self.now }
    {
        self.list[node as usize]
    }

    /// The first node of the list, if it has one.
    pub fn first(&self, list: u32) -> Option<u32>
        requires { list < length self.now.lists }
        ensures first { result ≡ first_of (nodes_in self.now list) }
        ensures apart { IsApart self.now }
    {
        self.first[list as usize]
    }

    /// The node behind this one in its list, if there is one.
    pub fn next(&self, node: u32) -> Option<u32>
        requires { node < self.now.nodes }
        ensures { result ≡ next_of self.now node }
    {
        self.next[node as usize]
    }
}

// Lets the link of a node, or where there is no node the end of a list, lead to another node.
fn point(
    links: &mut Vec<Option<u32>>,
    ends: &mut Vec<Option<u32>>,
    list: u32,
    from: Option<u32>,
    to: Option<u32>,
)
    requires list { list < length ends.old.items }
    requires node { IfSome from (λ node. node < length links.old.items) }
    ensures links { links.new.items ≡ pointed links.old.items from to }
    ensures ends { ends.new.items ≡ ended ends.old.items list from to }
{
    match from {
        None => ends[list as usize] = to,
        Some(node) => links[node as usize] = to,
    }
}

fn nothings(alloc: Global, count: u32) -> Result<Vec<Option<u32>>, AllocError>
    ensures { IfOk result (λ nothings. nothings.items ≡ replicate count None) }
{
    let mut nothings = Vec::new(alloc);
    for _ in 0..count {
        nothings.push(None)?;
    }
    Ok(nothings)
}
