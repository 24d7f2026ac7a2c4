//! A program with its names and its classes.
ghost use Rattle.std.specs.Prelude.{◌≡◌};
ghost use Rattle.class_members.specs.Program.{sources};
ghost use Rattle.class_hierarchy.specs.Hierarchy.{IsHierarchy};
ghost use Rattle.class_hierarchy.specs.Resolved.{IsResolved};

use crate::hierarchy::Hierarchy;
use dart_program::Program;
use library_scopes::Scopes;
use std::marker::Model;

/// A program whose libraries and classes break no rule, with what names mean in it and its classes; seen as its files and
/// what names mean.
#[derive(Drop)]
pub struct Resolved {
    program: Program,
    scopes: Scopes,
    hierarchy: Hierarchy,
}

impl Model for Resolved {
    ghost use Rattle.std.specs.Coded.{codes};
    ghost use Rattle.dart_program.specs.contracts.files.SourceFile as file_row;
    ghost use Rattle.library_scopes.specs.contracts.libraries.Scopes as scopes_row;
    ghost use Rattle.class_heads.specs.Sources.{Sources};
    ghost use Rattle.class_members.specs.Program.{sources};
    ghost use Rattle.class_hierarchy.specs.Hierarchy.{IsHierarchy};
    ghost use Rattle.class_hierarchy.specs.Resolved.{IsResolved};

    ghost Value = { Sources };

    ghost coded = { Prim.hlevel (codes, file_row.the_row.coded, scopes_row.the_row.coded) };

    ghost view = { λ resolved. sources resolved.program resolved.scopes };

    ghost invariant = { λ resolved. IsResolved (sources resolved.program resolved.scopes) × IsHierarchy (sources resolved.program resolved.scopes) resolved.hierarchy };
}

impl Resolved {
    /// A program with what names mean in it and its classes.
    pub fn new(program: Program, scopes: Scopes, hierarchy: Hierarchy) -> Resolved
        requires keeps { IsResolved (sources program scopes) }
        requires hierarchy { IsHierarchy (sources program scopes) hierarchy }
        ensures { result ≡ sources program scopes }
    {
        Resolved {
            program,
            scopes,
            hierarchy,
        }
    }

    /// The files.
    pub fn program(&self) -> &Program
        ensures program { result.now ≡ self.now.files }
        ensures keeps { IsResolved self.now }
    {
        &self.program
    }

    /// What names mean in its libraries.
    pub fn scopes(&self) -> &Scopes
        ensures scopes { result.now ≡ self.now.scopes }
        ensures keeps { IsResolved self.now }
    {
        &self.scopes
    }

    /// Its classes and their members.
    pub fn hierarchy(&self) -> &Hierarchy
        ensures hierarchy { IsHierarchy self.now result.now }
        ensures keeps { IsResolved self.now }
    {
        &self.hierarchy
    }
}
