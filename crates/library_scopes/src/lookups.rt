//! What a name stands for in a library and behind a prefix.
ghost use Rattle.std.specs.Prelude.{◌≡◌, slice_get};
ghost use Rattle.std.specs.List.{list_all};
ghost use Rattle.std.specs.Option.{option_copied};
ghost use Rattle.library_scopes.specs.Names.{meaning};
ghost use Rattle.library_scopes.specs.Lookups as spec;

use crate::libraries::{Imported, Library, Scopes, Selection};
use crate::named::{Named, Side};
use code_units::Text;

const UNDERSCORE: u16 = 95;

const EQUALS: u16 = 61;

/// Whether this is no name that a library keeps for itself.
fn is_public(name: &[u16]) -> bool
    ensures { result ≡ spec.is_public name.now }
{
    match name.first() {
        Some(unit) => *unit != UNDERSCORE,
        None => true,
    }
}

fn selects(name: &[u16], selection: &Selection) -> bool
    ensures { result ≡ spec.selects name.now selection.now }
{
    selection.names.has(name) != selection.hides
}

fn selected_by_all(name: &[u16], selections: &[Selection]) -> bool
    ensures { result ≡ list_all (spec.selects name.now) selections.now }
{
    for selection in selections {
        if !selects(name, selection) {
            return false;
        }
    }
    true
}

fn shows(name: &[u16], import: &Imported) -> bool
    ensures { result ≡ spec.shows name.now import.now }
{
    is_public(name) && selected_by_all(name, import.selections.as_slice())
}

impl Library {
    /// What the library declares.
    fn declared(&self, side: Side, name: &[u16]) -> Option<Named>
        ensures { result ≡ meaning name.now (spec.table side self.now) }
    {
        match side {
            Side::Value => self.values.find(name),
            Side::Setting => self.setters.find(name),
        }
    }

    /// What the library declares, or its prefix.
    pub fn own(&self, side: Side, name: &[u16]) -> Option<Named>
        ensures { result ≡ spec.own side name.now self.now }
    {
        match side {
            Side::Value => self.values.find(name).or(self.prefixes.find(name)),
            Side::Setting => self.setters.find(name),
        }
    }
}

impl Scopes {
    /// The library of a file.
    pub fn library(&self, number: u32) -> Option<&Library>
        ensures { option_copied result ≡ slice_get self.now.libraries number }
    {
        self.libraries.get(number as usize)
    }

    /// What an import gives under a name.
    #[tactic(auto, unfolding(crate::specs::Lookups::given))]
    pub fn given(&self, side: Side, name: &[u16], import: &Imported) -> Option<Named>
        ensures { result ≡ spec.given self.now side name.now import.now }
    {
        if shows(name, import) {
            self.library(import.library)?.declared(side, name)
        } else {
            None
        }
    }
}

/// Whether these are the same prefix, or both none.
fn same_prefix(prefix: Option<u32>, other: Option<u32>) -> bool
    ensures { result ≡ spec.same_prefix prefix other }
{
    match (prefix, other) {
        (Some(one), Some(other)) => one == other,
        (None, None) => true,
        _ => false,
    }
}

pub fn is_behind(prefix: Option<u32>, of_prelude: bool, import: &Imported) -> bool
    ensures { result ≡ spec.is_behind prefix of_prelude import.now }
{
    same_prefix(prefix, import.prefix) && (import.library == 0) == of_prelude
}

impl Scopes {
    /// What the first of these imports gives that gives anything: of those with this prefix, or with none, and of the
    /// prelude, or of other libraries.
    pub fn first_given(
        &self,
        of_prelude: bool,
        side: Side,
        name: &[u16],
        prefix: Option<u32>,
        imports: &[Imported],
    ) -> Option<Named>
        ensures { result ≡ spec.first (spec.given_by of_prelude self.now side name.now prefix imports.now) }
    {
        for import in imports {
            if is_behind(prefix, of_prelude, import) {
                let given = self.given(side, name, import);
                if given.is_some() {
                    return given;
                }
            }
        }
        None
    }

    /// What the prelude gives with no import. Nothing where there is a prefix.
    #[tactic(auto, unfolding(crate::specs::Lookups::given))]
    pub fn given_anyway(&self, side: Side, name: &[u16], prefix: Option<u32>) -> Option<Named>
        ensures { result ≡ spec.first (spec.given_anyway self.now side name.now prefix) }
    {
        match prefix {
            Some(_) => None,
            None if is_public(name) => self.library(0)?.declared(side, name),
            None => None,
        }
    }

    /// What the imports of a library give under a name: those with this prefix, or with none. The prelude gives what no other
    /// library does.
    #[tactic(auto, unfolding(crate::specs::Lookups::candidates))]
    pub fn first_candidate(
        &self,
        side: Side,
        name: &[u16],
        prefix: Option<u32>,
        library: &Library,
    ) -> Option<Named>
        ensures { result ≡ spec.first (spec.candidates self.now side name.now prefix library.now) }
    {
        let imports = library.imports.as_slice();
        let other = self.first_given(false, side, name, prefix, imports);
        if other.is_some() {
            return other;
        }
        let prelude = self.first_given(true, side, name, prefix, imports);
        if prelude.is_some() {
            return prelude;
        }
        self.given_anyway(side, name, prefix)
    }

    fn found(&self, side: Side, name: &[u16], library: &Library) -> Option<Named>
        ensures { result ≡ spec.found self.now side name.now library.now }
    {
        let own = library.own(side, name);
        if own.is_some() {
            return own;
        }
        self.first_candidate(side, name, None, library)
    }

    /// What a name stands for in the library of a file: what the library declares under it, or its prefix, and else what
    /// its imports without a prefix give, or the prelude. None where neither has it. With `=` behind the name it is what
    /// takes a value that is assigned to the name: a setter, or a variable that is not final. Of several declarations that
    /// imports give it is that of the first import in the file that gives one. None where there is no such file. Takes no
    /// memory.
    #[tactic(auto, unfolding(crate::specs::Lookups::lookup))]
    pub fn lookup(&self, file: u32, name: &Text) -> Option<Named>
        ensures { result ≡ spec.lookup self.now file name.now }
    {
        let (side, name) = asked(name.as_slice());
        self.found(side, name, self.library(file)?)
    }

    /// What the imports of a prefix give under a name, which may have `=` behind it. None where they give nothing, and
    /// where there is no such prefix. Of several declarations it is that of the first import in the file that gives one.
    /// Takes no memory.
    #[tactic(auto, unfolding(crate::specs::Lookups::behind))]
    pub fn behind(&self, prefix: u32, name: &Text) -> Option<Named>
        ensures { result ≡ spec.behind self.now prefix name.now }
    {
        let (side, name) = asked(name.as_slice());
        let library = self.library(self.prefixes.get(prefix as usize)?.library)?;
        self.first_candidate(side, name, Some(prefix), library)
    }

    /// The number of a prefix's import among the deferred imports of the program. None where it is not deferred, and where
    /// there is no such prefix. Takes no memory.
    #[tactic(auto, unfolding(crate::specs::Lookups::deferred))]
    pub fn deferred(&self, prefix: u32) -> Option<u32>
        ensures { result ≡ spec.deferred self.now prefix }
    {
        self.prefixes.get(prefix as usize)?.deferred
    }
}

/// The side of a name that is asked for, and the name.
fn asked(text: &[u16]) -> (Side, &[u16])
    ensures side { result.0 ≡ spec.asked_side text.now }
    ensures name { result.1.now ≡ spec.asked_name text.now }
{
    match text.strip_suffix(&[EQUALS]) {
        Some(name) => (Side::Setting, name),
        None => (Side::Value, text),
    }
}
