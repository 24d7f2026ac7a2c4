//! A program with its classes.
ghost use Rattle.std.specs.Prelude.{◌≡◌};
ghost use Rattle.class_heads.specs.Sources.{classes_in, written_in};
ghost use Rattle.class_members.specs.Program.{sources, HasClasses};

use class_heads::nodes::ClassNode;
use class_heads::written::WrittenClass;
use dart_program::SourceFile;
use dart_sites::lent::{Lent, LentSlice};
use library_scopes::Scopes;
use std::marker::Model;

/// The files of a program and what names mean in them, with its classes by their numbers and as they are written; seen as
/// the files and what names mean.
#[derive(Drop)]
pub struct ProgramClasses<'a> {
    files: LentSlice<'a, SourceFile>,
    scopes: Lent<'a, Scopes>,
    classes: LentSlice<'a, ClassNode>,
    written: LentSlice<'a, WrittenClass<'a>>,
}

impl<'a> Model for ProgramClasses<'a> {
    ghost use Rattle.std.specs.Coded.{codes};
    ghost use Rattle.dart_program.specs.contracts.files.SourceFile as file_row;
    ghost use Rattle.library_scopes.specs.contracts.libraries.Scopes as scopes_row;
    ghost use Rattle.class_heads.specs.Sources.{Sources};
    ghost use Rattle.class_members.specs.Program.{sources, HasClasses};

    ghost Value = { Sources };

    ghost coded = { Prim.hlevel (codes, file_row.the_row.coded, scopes_row.the_row.coded) };

    ghost view = { λ program. sources program.files program.scopes };

    ghost invariant = { λ program. HasClasses (sources program.files program.scopes) program.classes program.written };
}

impl<'a> ProgramClasses<'a> {
    /// These files and what names mean in them, with the classes that they have.
    pub fn new(
        files: &'a [SourceFile],
        scopes: &'a Scopes,
        classes: &'a [ClassNode],
        written: &'a [WrittenClass<'a>],
    ) -> ProgramClasses<'a>
        requires { HasClasses (sources files.now scopes.now) classes.now written.now }
        ensures { result ≡ sources files.now scopes.now }
    {
        ProgramClasses {
            files: LentSlice::new(files),
            scopes: Lent::new(scopes),
            classes: LentSlice::new(classes),
            written: LentSlice::new(written),
        }
    }

    /// The files by number.
    pub fn files(&self) -> &'a [SourceFile]
        ensures { result.now ≡ self.now.files }
    {
        self.files.get()
    }

    /// What names mean.
    pub fn scopes(&self) -> &'a Scopes
        ensures { result.now ≡ self.now.scopes }
    {
        self.scopes.get()
    }

    /// The classes by their numbers.
    pub fn classes(&self) -> &'a [ClassNode]
        ensures { result.now ≡ classes_in self.now }
    {
        self.classes.get()
    }

    /// The classes as they are written.
    pub fn written(&self) -> &'a [WrittenClass<'a>]
        ensures { result.now ≡ written_in self.now }
    {
        self.written.get()
    }
}
