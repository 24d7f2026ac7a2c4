//! The names that blocks, parameter lists, loops and clauses declare.

ghost use Rattle.std.specs.Prelude.{◌≡◌, [], ◌∷◌, ◌++◌, OnOk};
ghost use Rattle.std.specs.List.{find};
ghost use Rattle.std.specs.Option.{option_copied, option_to_list};
ghost use Rattle.dart_sites.specs.Names.{has_name};
ghost use Rattle.dart_sites.specs.Scopes.{outer};

use crate::lent::Lent;
use dart_grammar::trees::Name;
use indexmap::IndexMap;
use sqlite_items::Items;
use std::alloc::{AllocError, Global};
use std::marker::Model;

/// What a name of a scope stands for.
#[derive(Clone, Copy, Debug, PartialEq, Eq)]
pub enum LocalKind {
    /// A variable that a statement declares.
    Variable,
    /// A variable that a `for` declares.
    ForVariable,
    /// A local function.
    Function,
    /// A parameter, other than one of the form `this.name`.
    Parameter,
    /// What a clause caught.
    Caught,
}

/// A name that a scope declares.
#[derive(Drop)]
pub struct Local<'a> {
    pub name: Lent<'a, Name>,
    /// The byte behind its declaration: behind the value that it is given where it is declared, if there is one, else behind
    /// the name. The parameters and the body of a local function stand behind its declaration.
    pub ends: u32,
    pub kind: LocalKind,
    /// Whether `final` or `const` stands before it.
    pub is_final: bool,
}

/// What a scope is of.
#[derive(Clone, Copy, Debug, PartialEq, Eq)]
pub enum ScopeKind {
    /// A block, or a single statement in the place of one.
    Block,
    /// The variables of a `for`.
    For,
    /// The name of a `catch`.
    Catch,
    /// The parameters of a function.
    Parameters,
}

/// Names that are declared side by side, seen as the list of them in the order in which they stand.
#[derive(Drop)]
pub struct Locals<'a> {
    items: Items<Local<'a>>,
    // Where the first of each name stands.
    places: IndexMap<&'a [u16], usize>,
}

impl<'a> Model for Locals<'a> {
    ghost use Rattle.std.specs.Prelude.{List};
    ghost use Rattle.dart_sites.specs.declared.scopes.Local.{Local};
    ghost use Rattle.dart_sites.specs.Names.{IsIndexed};

    ghost Value = { List Local };

    ghost view = { λ locals. locals.items };

    ghost invariant = { λ locals. IsIndexed locals.places.entries locals.items };
}

impl<'a> Locals<'a> {
    /// No names.
    pub fn new(alloc: Global) -> Locals<'a>
        ensures { result ≡ [] }
    {
        Locals {
            items: Items::new(alloc),
            places: IndexMap::new(alloc),
        }
    }

    /// Adds a name behind the others.
    pub fn push(&mut self, local: Local<'a>) -> Result<(), AllocError>
        ensures { OnOk result (self.new ≡ self.old ++ local.entry ∷ []) }
    {
        let name = local.name.get().text.as_slice();
        match self.places.get(name) {
            Some(_) => {
                self.items.push(local)?;
                Ok(())
            }
            None => {
                let at = self.items.len();
                // So that nothing is left to undo.
                self.places.reserve(1)?;
                self.items.push(local)?;
                self.places.insert(name, at)?;
                Ok(())
            }
        }
    }

    /// The first of that name. Takes no longer where there are more names.
    pub fn find(&self, name: &[u16]) -> Option<&Local<'a>>
        ensures { option_copied result ≡ find (has_name name.now) self.now }
    {
        match self.places.get(name) {
            Some(at) => self.items.get(*at),
            None => None,
        }
    }

    /// The names in order.
    pub fn as_slice(&self) -> &[Local<'a>]
        ensures { result.now ≡ self.now }
    {
        self.items.as_slice()
    }
}

/// Names that are declared side by side.
#[derive(Drop)]
pub struct Scope<'a> {
    pub kind: ScopeKind,
    pub locals: Locals<'a>,
}

/// A name found in the scopes around it.
#[derive(Drop)]
pub struct Found<'s, 'a> {
    pub local: Lent<'s, Local<'a>>,
    /// Whether it is declared outside the innermost function around the name.
    pub is_captured: bool,
}

/// Scopes one in another, seen as the list of them, the outermost first.
#[derive(Drop)]
pub struct Scopes<'a> {
    alloc: Global,
    items: Items<Scope<'a>>,
}

impl<'a> Model for Scopes<'a> {
    ghost use Rattle.std.specs.Prelude.{List};
    ghost use Rattle.dart_sites.specs.declared.scopes.Scope.{Scope};

    ghost Value = { List Scope };

    ghost view = { λ scopes. scopes.items };
}

impl<'a> Scopes<'a> {
    /// No scopes.
    pub fn new(alloc: Global) -> Scopes<'a>
        ensures { result ≡ [] }
    {
        Scopes {
            alloc,
            items: Items::new(alloc),
        }
    }

    /// The allocator that they were made with.
    pub fn alloc(&self) -> Global {
        self.alloc
    }

    /// Adds a scope further in.
    pub fn push(&mut self, scope: Scope<'a>) -> Result<(), AllocError>
        ensures { OnOk result (self.new ≡ self.old ++ scope.entry ∷ []) }
    {
        self.items.push(scope)
    }

    /// The scopes, the outermost first.
    pub fn as_slice(&self) -> &[Scope<'a>]
        ensures { result.now ≡ self.now }
    {
        self.items.as_slice()
    }

    /// Takes the innermost scope away.
    #[tactic(auto, using(crate::proofs::Innermost::outer_push))]
    pub fn pop(&mut self) -> Option<Scope<'a>>
        ensures outer { self.new ≡ outer self.old }
        ensures taken { self.old ≡ self.new ++ option_to_list result }
    {
        self.items.pop()
    }

    /// Puts a scope back that was taken away.
    pub fn put_back(&mut self, scope: Option<Scope<'a>>) -> Result<(), AllocError>
        ensures { OnOk result (self.new ≡ self.old ++ option_to_list scope.entry) }
    {
        match scope {
            Some(scope) => self.items.push(scope),
            None => Ok(()),
        }
    }
}
