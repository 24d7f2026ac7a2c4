//! The files of a program.
ghost use Rattle.std.specs.Prelude.{◌≡◌};
ghost use Rattle.dart_program.specs.Programs.{IsProgram};

use code_units::{ListOf, NumberList, Text};
use dart_grammar::FileTree;
use std::marker::Model;

/// A file of a program.
#[derive(Drop)]
pub struct SourceFile {
    pub name: Text,
    pub tree: FileTree,
    /// The number of the file that each import means, in the order of the imports.
    pub links: NumberList,
}

/// Files, one after another.
pub type FileList = ListOf<SourceFile>;

/// The files of a program by number: the prelude is file 0, and the entry is file 1. There are at least these two, and
/// each file links each of its imports to a file that is there.
#[derive(Drop)]
pub struct Program {
    files: FileList,
}

impl Model for Program {
    ghost use Rattle.std.specs.Prelude.{List};
    ghost use Rattle.std.specs.Coded.{codes};
    ghost use Rattle.dart_program.specs.declared.files.SourceFile.{SourceFile};
    ghost use Rattle.dart_program.specs.contracts.files.SourceFile as file;
    ghost use Rattle.dart_program.specs.Programs.{IsProgram};

    ghost Value = { List SourceFile };

    ghost coded = { Prim.hlevel (codes, file.the_row.coded) };

    ghost view = { λ program. program.files };

    ghost invariant = { λ program. IsProgram program.files };
}

impl Program {
    /// The program of these files.
    pub fn new(files: FileList) -> Program
        requires { IsProgram files }
        ensures { result ≡ files }
    {
        Program { files }
    }

    /// The files by number.
    pub fn files(&self) -> &FileList
        ensures files { result.now ≡ self.now }
        ensures program { IsProgram self.now }
    {
        &self.files
    }

    /// The files by number, without a copy.
    pub fn into_files(self) -> FileList
        ensures files { result ≡ self }
        ensures program { IsProgram self }
    {
        let Program { files } = self;
        files
    }
}
