//! The first rule that heads of classes break.
#![tactic(auto, using(crate::proofs::FaultParts::first_with_append))]

ghost use Rattle.std.specs.Prelude.{◌≡◌, None, option_to_list, IfOk};
ghost use Rattle.std.specs.List.{flat_map};
ghost use Rattle.dart_program.specs.Sooner.{first_with};
ghost use Rattle.class_heads.specs.Faults as spec;
ghost use Rattle.class_heads.specs.Rules.{own_number, start};
ghost use Rattle.class_heads.specs.Written.{mixin_names, superclass_names, supertypes};

use crate::heads::is_behind_deferred;
use crate::known::Known;
use crate::written::{WrittenClass, behind};
use dart_grammar::trees::{Name, Names};
use dart_program::first::sooner;
use dart_program::{Refusal, Rule};
use library_scopes::reading::one_more;
use std::alloc::AllocError;

/// The first token of a name.
fn first_token(names: &[Name]) -> u32
    ensures { result ≡ start names.now }
{
    match names.first() {
        Some(name) => name.span.from,
        None => 0,
    }
}

/// What was found before, and this refusal if the rule is broken.
fn sooner_if(found: Option<Refusal>, is_broken: bool, refusal: Refusal) -> Option<Refusal>
    ensures { result ≡ first_with found (spec.fault_if is_broken refusal.rule refusal.file refusal.at) }
{
    if is_broken {
        sooner(found, refusal)
    } else {
        found
    }
}

fn refusal(rule: Rule, class: &WrittenClass<'_>, at: u32) -> Refusal
    ensures { result ≡ spec.refused rule class.now at }
{
    Refusal {
        rule,
        file: class.file,
        at,
    }
}

impl Known<'_> {
    #[tactic(auto, unfolding(crate::specs::Faults::supertype_faults), using(crate::proofs::FaultParts::first_with_append))]
    fn look_at_supertype(
        &self,
        found: Option<Refusal>,
        class: &WrittenClass<'_>,
        names: &[Name],
    ) -> Option<Refusal>
        ensures { result ≡ first_with found (spec.supertype_faults self.now class.now names.now) }
    {
        let scopes = self.naming.scopes.get();
        let at = first_token(names);
        let meant = self.naming.meant(class, names);
        let is_closed = class.file > 0 && self.is_closed(meant);
        let is_deferred = is_behind_deferred(scopes, class.file, class.type_parameters(), names);
        let found = sooner_if(found, meant.is_none(), refusal(Rule::C1, class, at));
        let found = sooner_if(found, is_closed, refusal(Rule::C4, class, at));
        sooner_if(found, is_deferred, refusal(Rule::C5, class, at))
    }

    fn look_at_supertypes(
        &self,
        found: Option<Refusal>,
        class: &WrittenClass<'_>,
        supertypes: &[Names],
    ) -> Option<Refusal>
        ensures { result ≡ first_with found (flat_map (spec.supertype_faults self.now class.now) supertypes.now) }
    {
        let mut found = found;
        for names in supertypes {
            found = self.look_at_supertype(found, class, names.as_slice());
        }
        found
    }

    fn look_at_superclass(
        &self,
        found: Option<Refusal>,
        class: &WrittenClass<'_>,
    ) -> Option<Refusal>
        ensures { result ≡ first_with found (flat_map (spec.supertype_faults self.now class.now) (option_to_list (superclass_names class.now.class))) }
    {
        match class.superclass() {
            Some(names) => self.look_at_supertype(found, class, names.as_slice()),
            None => found,
        }
    }

    #[tactic(auto, using(crate::proofs::FaultParts::first_with_append, crate::proofs::FaultParts::over_append))]
    fn look_at_all_supertypes(
        &self,
        found: Option<Refusal>,
        class: &WrittenClass<'_>,
    ) -> Option<Refusal>
        ensures { result ≡ first_with found (flat_map (spec.supertype_faults self.now class.now) (supertypes class.now.class)) }
    {
        let found = self.look_at_superclass(found, class);
        let found = self.look_at_supertypes(found, class, class.mixins());
        self.look_at_supertypes(found, class, class.interfaces())
    }

    fn look_at_mixin(
        &self,
        found: Option<Refusal>,
        class: &WrittenClass<'_>,
        number: u32,
        names: &[Name],
    ) -> Option<Refusal>
        ensures { result ≡ first_with found (spec.mixin_fault self.now class.now number names.now) }
    {
        let mixin = self.naming.meant(class, names);
        let is_bad = self.is_bad_mixin(number, mixin);
        sooner_if(found, is_bad, refusal(Rule::C3, class, first_token(names)))
    }

    /// The mixins of a head, of which the first one makes the class of this number.
    fn look_at_mixins(
        &self,
        found: Option<Refusal>,
        class: &WrittenClass<'_>,
        first: u32,
    ) -> Result<Option<Refusal>, AllocError>
        ensures { IfOk result (λ found_here. found_here ≡ first_with found (spec.mixin_faults self.now class.now first (mixin_names class.now.class))) }
    {
        let mut found = found;
        let mut number = first;
        for names in class.mixins() {
            found = self.look_at_mixin(found, class, number, names.as_slice());
            number = one_more(number)?;
        }
        Ok(found)
    }

    fn look_at_cycle(
        &self,
        found: Option<Refusal>,
        class: &WrittenClass<'_>,
        number: u32,
    ) -> Option<Refusal>
        ensures { result ≡ first_with found (spec.cycle_fault self.now class.now number) }
    {
        sooner_if(
            found,
            self.is_cycle(number),
            refusal(Rule::C2, class, class.name().span.from),
        )
    }

    /// The head in which the first class has this number, and its own class that one.
    #[tactic(auto, unfolding(crate::specs::Faults::head_faults), using(crate::proofs::FaultParts::first_with_append))]
    fn look_at_head(
        &self,
        found: Option<Refusal>,
        class: &WrittenClass<'_>,
        first: u32,
        own: u32,
    ) -> Result<Option<Refusal>, AllocError>
        requires { own ≡ own_number first class.now }
        ensures { IfOk result (λ found_here. found_here ≡ first_with found (spec.head_faults self.now first class.now)) }
    {
        let found = self.look_at_cycle(found, class, own);
        let found = self.look_at_all_supertypes(found, class);
        self.look_at_mixins(found, class, first)
    }

    /// The first rule that the heads of these classes break, if any. They are all classes that are written.
    pub fn first_fault(&self, written: &[WrittenClass<'_>]) -> Result<Option<Refusal>, AllocError>
        ensures { IfOk result (λ found. found ≡ first_with None (spec.faults_from self.now 0 written.now)) }
    {
        let mut found = None;
        let mut first = 0;
        for class in written {
            let own = behind(first, class.nameless())?;
            found = self.look_at_head(found, class, first, own)?;
            first = one_more(own)?;
        }
        Ok(found)
    }
}
