//! Declarations and files.
ghost use Rattle.std.specs.Prelude.{length, []};
ghost use Rattle.decl_parser.specs.Files as spec;
ghost use Rattle.expr_parser.specs.Cursor.{Gives};
ghost use Rattle.expr_parser.specs.Knot.{inner_at};

use crate::classes::{class_head, may_extend, may_implement, supertypes};
use crate::context::Context;
use crate::head::ClassHead;
use crate::imports::past_library;
use dart_grammar::DeclarationKind;
use dart_grammar::begins::{begins_class, declaration_kind};
use dart_grammar::declarations::{Alias, Class, Declaration, FileTree};
use dart_grammar::marks::{behind, next_sign};
use dart_grammar::trees::Span;
use dart_syntax::{Sign, Token, Word};
use expr_parser::Fault;
use expr_parser::cursor::{sign_at, start, word_at};
use expr_parser::parts::{past_metadata, variables};
use expr_parser::types::type_at;
use sqlite_items::Items;
use std::alloc::Global;

// An alias from behind its `=`; its metadata begins at `from`.
#[tactic(auto, unfolding(crate::specs::Files::alias))]
fn alias(
    alloc: Global,
    head: ClassHead,
    from: u32,
    ts: &[Token],
) -> Result<(Declaration, &[Token]), Fault>
    ensures { Gives (λ x. (x.0, x.1.now)) result (spec.alias head from ts.now) }
{
    let ((superclass, _), after) = type_at(alloc, ts)?;
    let (_, after) = word_at(Word::With, after)?;
    let (mixins, after) = supertypes(alloc, after)?;
    let (interfaces, after) = may_implement(alloc, after)?;
    let (close, rest) = sign_at(Sign::Semicolon, after)?;
    let alias = Alias {
        span: Span { from, to: close.to },
        is_abstract: head.is_abstract,
        name: head.name,
        type_parameters: head.type_parameters,
        superclass,
        mixins,
        interfaces,
    };
    Ok((Declaration::Alias(alias), rest))
}

impl Context {
    // A class that is no alias, from behind its head; its metadata begins at `from`.
    #[tactic(auto, unfolding(crate::specs::Files::full_class))]
    fn full_class(
        self,
        head: ClassHead,
        from: u32,
        ts: &[Token],
    ) -> Result<(Declaration, &[Token]), Fault>
        ensures { Gives (λ x. (x.0, x.1.now)) result (spec.full_class (inner_at self.depth) self.native head from ts.now) }
    {
        let ((superclass, mixins), after) = may_extend(self.alloc, ts)?;
        let (interfaces, after) = may_implement(self.alloc, after)?;
        let (_, after) = sign_at(Sign::OpenBrace, after)?;
        let (members, after) = self.members(head.name.text.as_slice(), after)?;
        let (close, rest) = sign_at(Sign::CloseBrace, after)?;
        let class = Class {
            span: Span { from, to: close.to },
            is_abstract: head.is_abstract,
            name: head.name,
            type_parameters: head.type_parameters,
            superclass,
            mixins,
            interfaces,
            members,
        };
        Ok((Declaration::Class(class), rest))
    }

    // A class from behind its metadata, which begins at `from`.
    #[tactic(auto, unfolding(crate::specs::Files::class))]
    fn class(self, from: u32, ts: &[Token]) -> Result<(Declaration, &[Token]), Fault>
        ensures { Gives (λ x. (x.0, x.1.now)) result (spec.class (inner_at self.depth) self.native from ts.now) }
    {
        let (head, after) = class_head(self.alloc, ts)?;
        if next_sign(Sign::Assign, after) {
            alias(self.alloc, head, from, behind(after))
        } else {
            self.full_class(head, from, after)
        }
    }

    // A declaration that is no class, by what it is, from behind its metadata, which begins at `from`.
    #[tactic(auto, unfolding(crate::specs::Files::declaration_by))]
    fn plain_declaration(
        self,
        kind: DeclarationKind,
        from: u32,
        ts: &[Token],
    ) -> Result<(Declaration, &[Token]), Fault>
        ensures { Gives (λ x. (x.0, x.1.now)) result (spec.declaration_by (inner_at self.depth) self.native kind from ts.now) }
    {
        match kind {
            DeclarationKind::Function => {
                let (function, rest) = self.function(false, from, ts)?;
                Ok((Declaration::Function(function), rest))
            }
            DeclarationKind::Getter => {
                let (getter, rest) = self.getter(false, from, ts)?;
                Ok((Declaration::Getter(getter), rest))
            }
            DeclarationKind::Setter => {
                let (setter, rest) = self.setter(false, from, ts)?;
                Ok((Declaration::Setter(setter), rest))
            }
            DeclarationKind::Variables => {
                let ((variables, to), rest) = variables(self.alloc, ts, self.depth)?;
                Ok((Declaration::Variables(Span { from, to }, variables), rest))
            }
            DeclarationKind::Operator => Err(Fault::NotDerived),
        }
    }

    #[tactic(auto, unfolding(crate::specs::Files::declaration))]
    fn declaration(self, ts: &[Token]) -> Result<(Declaration, &[Token]), Fault>
        ensures { Gives (λ x. (x.0, x.1.now)) result (spec.declaration (inner_at self.depth) self.native ts.now) }
    {
        let after = past_metadata(self.alloc, ts, self.depth)?;
        if begins_class(after) {
            self.class(start(ts), after)
        } else {
            self.plain_declaration(declaration_kind(after), start(ts), after)
        }
    }

    // Declarations, to the end.
    #[tactic(auto, using(expr_parser::proofs::Turns::one_turn, expr_parser::proofs::Turns::no_turn), unfolding(crate::specs::Files::declarations_from))]
    fn declarations(self, ts: &[Token]) -> Result<Items<Declaration>, Fault>
        ensures { Gives (λ x. x) result (spec.declarations_from (inner_at self.depth) self.native (length ts.now) [] ts.now) }
    {
        let mut found = Items::new(self.alloc);
        let mut rest = ts;
        for _turn in 0..ts.len() {
            if rest.is_empty() {
                return Ok(found);
            }
            let (item, after) = self.declaration(rest)?;
            found.push(item)?;
            rest = after;
        }
        if rest.is_empty() {
            Ok(found)
        } else {
            Err(Fault::NotDerived)
        }
    }

    /// A file.
    #[tactic(auto, unfolding(crate::specs::Files::file))]
    pub fn file(self, ts: &[Token]) -> Result<FileTree, Fault>
        ensures { Gives (λ x. x) result (spec.file (inner_at self.depth) self.native ts.now) }
    {
        let after = past_library(ts)?;
        let (imports, after) = self.imports(after)?;
        let declarations = self.declarations(after)?;
        Ok(FileTree {
            imports,
            declarations,
        })
    }
}
