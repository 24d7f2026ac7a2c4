//! Names that two imports give as two declarations.
ghost use Rattle.std.specs.Prelude.{◌≡◌, false, None, if◌then◌else◌, option_and_then, OnOk, IfOk};
ghost use Rattle.std.specs.List.{list_any};
ghost use Rattle.library_scopes.specs.Lookups as lookups;
ghost use Rattle.library_scopes.specs.Uses as uses;
ghost use Rattle.library_scopes.specs.Rules as spec;
ghost use Rattle.library_scopes.specs.First.{are_two_behind, lesser_if, seen};
ghost use Rattle.library_scopes.specs.Least.{least};

use crate::least::lesser;
use crate::libraries::{Imported, Library, Scopes};
use crate::lookups::is_behind;
use crate::named::{Named, Side};
use crate::nearer::{has_text, is_nearer, is_own};
use crate::reading::number_of;
use dart_grammar::declarations::FileTree;
use dart_grammar::trees::Name;
use dart_sites::lent::Lent;
use dart_sites::sites::{Receiver, Use};
use dart_sites::{Site, Surroundings, Visitor, visit_file};
use std::alloc::{AllocError, Global};

fn is_same(one: Named, other: Named) -> bool
    ensures { result ≡ spec.is_same one other }
{
    one == other
}

impl Scopes {
    /// Whether imports of other libraries than the prelude give two declarations.
    fn gives_two(&self, side: Side, name: &[u16], prefix: Option<u32>, imports: &[Imported]) -> bool
        ensures { result ≡ spec.are_two (lookups.given_by false self.now side name.now prefix imports.now) }
    {
        let mut first = None;
        for import in imports {
            if is_behind(prefix, false, import) {
                match (first, self.given(side, name, import)) {
                    (None, given) => first = given,
                    (Some(one), Some(other)) if !is_same(one, other) => return true,
                    _ => {}
                }
            }
        }
        false
    }

    #[tactic(auto, using(crate::proofs::Rivals::ambiguous_is))]
    fn is_ambiguous(&self, library: &Library, prefix: Option<u32>, name: &[u16], side: Side) -> bool
        ensures { result ≡ spec.is_ambiguous self.now library.now prefix name.now side }
    {
        self.gives_two(side, name, prefix, library.imports.as_slice())
    }

    fn is_ambiguous_use(
        &self,
        library: &Library,
        prefix: Option<u32>,
        name: &[u16],
        how: Use,
    ) -> bool
        ensures { result ≡ list_any (spec.is_ambiguous self.now library.now prefix name.now) (spec.sides how) }
    {
        match how {
            Use::Assigned => self.is_ambiguous(library, prefix, name, Side::Setting),
            Use::Changed => {
                self.is_ambiguous(library, prefix, name, Side::Value)
                    || self.is_ambiguous(library, prefix, name, Side::Setting)
            }
            _ => self.is_ambiguous(library, prefix, name, Side::Value),
        }
    }
}

/// The first place so far at which a name is used that two imports give as two declarations.
#[derive(Drop)]
pub struct Ambiguity<'p> {
    pub scopes: Lent<'p, Scopes>,
    pub library: Lent<'p, Library>,
    pub first: Option<u32>,
}

impl<'p> Ambiguity<'p> {
    fn is_ambiguous(&self, prefix: Option<u32>, name: &Name, how: Use) -> bool
        ensures { result ≡ list_any (spec.is_ambiguous self.now.scopes self.now.library prefix name.now.text) (spec.sides how) }
    {
        self.scopes
            .get()
            .is_ambiguous_use(self.library.get(), prefix, name.text.as_slice(), how)
    }

    /// The place of a name that stands alone, where it is ambiguous.
    fn bare(&self, surroundings: &Surroundings<'_, '_>, name: &Name, how: Use) -> Option<u32>
        ensures { result ≡ option_and_then (spec.ambiguous_place self.now.scopes self.now.library) (uses.bare self.now.library surroundings.now name.now how) }
    {
        let text = name.text.as_slice();
        if self.is_ambiguous(None, name, how)
            && !is_nearer(text, surroundings)
            && !is_own(text, self.library.get())
        {
            Some(name.span.from)
        } else {
            None
        }
    }

    /// The place of a name behind a prefix, where it is ambiguous.
    fn dotted(
        &self,
        surroundings: &Surroundings<'_, '_>,
        prefix: &Name,
        name: &Name,
        how: Use,
    ) -> Option<u32>
        ensures { result ≡ option_and_then (spec.ambiguous_place self.now.scopes self.now.library) (uses.dotted self.now.library surroundings.now prefix.now name.now how) }
    {
        let text = prefix.text.as_slice();
        let number = number_of(self.library.get().own(Side::Value, text)?)?;
        if self.is_ambiguous(Some(number), name, how) && !is_nearer(text, surroundings) {
            Some(name.span.from)
        } else {
            None
        }
    }

    /// The place of the one of these names that is looked up, where it is ambiguous.
    fn named(&self, surroundings: &Surroundings<'_, '_>, names: &[Name]) -> Option<u32>
        ensures { result ≡ option_and_then (spec.ambiguous_place self.now.scopes self.now.library) (uses.named self.now.library surroundings.now names.now) }
    {
        let (first, rest) = names.split_first()?;
        match rest.first() {
            Some(second) => self
                .dotted(surroundings, first, second, Use::Read)
                .or(self.bare(surroundings, first, Use::Read)),
            None => self.bare(surroundings, first, Use::Read),
        }
    }

    fn selected(
        &self,
        surroundings: &Surroundings<'_, '_>,
        receiver: &Receiver<'_>,
        name: &Name,
        how: Use,
    ) -> Option<u32>
        ensures { result ≡ option_and_then (spec.ambiguous_place self.now.scopes self.now.library) (uses.behind_receiver self.now.library surroundings.now receiver.now name.now how) }
    {
        match receiver {
            Receiver::Named(prefix) => self.dotted(surroundings, prefix.get(), name, how),
            _ => None,
        }
    }

    fn tested(&self, surroundings: &Surroundings<'_, '_>, names: &[Name]) -> Option<u32>
        ensures { result ≡ option_and_then (spec.ambiguous_place self.now.scopes self.now.library) (if uses.is_dynamic names.now then None else uses.named self.now.library surroundings.now names.now) }
    {
        if is_dynamic(names) {
            None
        } else {
            self.named(surroundings, names)
        }
    }

    /// The place of the name that a site looks up, where it is ambiguous.
    #[tactic(auto, unfolding(crate::specs::Uses::asked))]
    fn place(&self, surroundings: &Surroundings<'_, '_>, site: &Site<'_>) -> Option<u32>
        ensures { result ≡ spec.ambiguous_at self.now.scopes self.now.library (surroundings.now, site.now) }
    {
        match site {
            Site::Named(name, how) => self.bare(surroundings, name.get(), *how),
            Site::Selected(receiver, name, how) => {
                self.selected(surroundings, receiver, name.get(), *how)
            }
            Site::Made(_, names, _) => self.named(surroundings, names.get()),
            Site::TypeTested(names) => self.tested(surroundings, names.get()),
            Site::Supertype(_, names) => self.named(surroundings, names.get()),
            _ => None,
        }
    }
}

const DYNAMIC: [u16; 7] = [100, 121, 110, 97, 109, 105, 99];

fn is_dynamic(names: &[Name]) -> bool
    ensures { result ≡ uses.is_dynamic names.now }
{
    match names.split_first() {
        Some((name, rest)) => rest.is_empty() && has_text(DYNAMIC.as_slice(), name),
        None => false,
    }
}

impl<'p> Visitor for Ambiguity<'p> {
    ghost step = { seen };

    fn visit(
        &mut self,
        surroundings: &Surroundings<'_, '_>,
        site: &Site<'_>,
    ) -> Result<(), AllocError> {
        if let Some(place) = self.place(surroundings, site) {
            self.first = lesser(self.first, place);
        }
        Ok(())
    }
}

/// The first place in a file at which a name is used that two imports give as two declarations.
#[tactic(auto, using(crate::proofs::Rivals::seen_all), unfolding(crate::specs::Rules::ambiguous_places))]
pub fn ambiguous(
    alloc: Global,
    scopes: &Scopes,
    library: &Library,
    file: &FileTree,
) -> Result<Option<u32>, AllocError>
    ensures { IfOk result (λ place. place ≡ least (spec.ambiguous_places scopes.now library.now file.now)) }
{
    let ambiguity = Ambiguity {
        scopes: Lent::new(scopes),
        library: Lent::new(library),
        first: None,
    };
    let ambiguity = visit_file(alloc, file, ambiguity)?;
    Ok(ambiguity.first)
}
