//! The names of a file, site by site.
ghost use Rattle.std.specs.Prelude.{◌≡◌, [], ◌∷◌, Some, None, codes, OnOk, IfOk};
ghost use Rattle.dart_program.specs.Declares.{sign_of as spec_sign_of, setter_text};
ghost use Rattle.library_scopes.specs.Lookups.{is_public as spec_is_public};
ghost use Rattle.selectors.specs.Selectors.{asked_for, with_setter, names_at};
ghost use Rattle.selectors.specs.Collecting.{in_list, in_table, noted, noted_all, noted_at};

use crate::numbers::Numbers;
use crate::selector::Selector;
use code_units::Text;
use dart_grammar::declarations::OperatorName;
use dart_grammar::trees::Name;
use dart_sites::sites::Use;
use dart_sites::{Site, Surroundings, Visitor};
use library_scopes::doubles::operator_text;
use sqlite_items::Items;
use std::alloc::AllocError;

const UNDERSCORE: u16 = 95;

const EQUALS: u16 = 61;

const CALL: [u16; 4] = [99, 97, 108, 108];

const NEGATED: [u16; 6] = [117, 110, 97, 114, 121, 45];

const ITERATOR: [u16; 8] = [105, 116, 101, 114, 97, 116, 111, 114];

const MOVE_NEXT: [u16; 8] = [109, 111, 118, 101, 78, 101, 120, 116];

const CURRENT: [u16; 7] = [99, 117, 114, 114, 101, 110, 116];

/// The selectors of the files before this one and of a part of it, with the numbers of public names and of those that this
/// file alone has.
#[derive(Drop)]
pub struct Collector {
    pub file: u32,
    pub listed: Items<Selector>,
    pub public: Numbers,
    pub private: Numbers,
}

/// Whether this is no name that a library keeps for itself.
pub fn is_public(name: &[u16]) -> bool
    ensures { result ≡ spec_is_public name.now }
{
    match name.first() {
        Some(unit) => *unit != UNDERSCORE,
        None => true,
    }
}

/// The number of an item behind so many others. There is no room for more than 2^32.
pub fn number_behind(count: usize) -> Result<u32, AllocError>
    ensures { IfOk result (λ number. number ≡ count) }
{
    u32::try_from(count).map_err(|_| AllocError)
}

/// Lists a name and gives it the next number, unless it has one.
fn note_in(
    listed: &mut Items<Selector>,
    numbers: &mut Numbers,
    name: &[u16],
    home: Option<u32>,
) -> Result<(), AllocError>
    ensures list { OnOk result (listed.new ≡ in_list listed.old numbers.old (record { text = name.now; home = home })) }
    ensures table { OnOk result (numbers.new ≡ in_table listed.old numbers.old name.now) }
{
    if !numbers.has(name) {
        let number = number_behind(listed.len())?;
        let text = Text::from_slice(numbers.allocator(), name)?;
        numbers.put(name, number)?;
        listed.push(Selector { text, home })?;
    }
    Ok(())
}

/// The sign of an operator.
fn sign_of(operator: OperatorName) -> &'static [u16]
    ensures { result.now ≡ spec_sign_of operator }
{
    match operator {
        OperatorName::Plus => &[43],
        OperatorName::Minus => &[45],
        OperatorName::Times => &[42],
        OperatorName::Divide => &[126, 47],
        OperatorName::Modulo => &[37],
        OperatorName::Less => &[60],
        OperatorName::Greater => &[62],
        OperatorName::LessEqual => &[60, 61],
        OperatorName::GreaterEqual => &[62, 61],
        OperatorName::Index => &[91, 93],
        OperatorName::SetIndex => &[91, 93, 61],
    }
}

impl Collector {
    fn note(&mut self, name: &[u16]) -> Result<(), AllocError>
        ensures { OnOk result (self.new ≡ noted self.old name.now) }
    {
        if is_public(name) {
            note_in(&mut self.listed, &mut self.public, name, None)
        } else {
            note_in(&mut self.listed, &mut self.private, name, Some(self.file))
        }
    }

    fn note_setter(&mut self, name: &Name) -> Result<(), AllocError>
        ensures { OnOk result (self.new ≡ noted self.old (setter_text name.now.text)) }
    {
        let mut text = name.text.copy()?;
        text.push(EQUALS)?;
        self.note(text.as_slice())
    }

    fn note_use(&mut self, name: &Name, how: Use) -> Result<(), AllocError>
        ensures { OnOk result (self.new ≡ noted_all self.old (asked_for name.now.text how)) }
    {
        match how {
            Use::Called(_) => {
                self.note(name.text.as_slice())?;
                self.note(CALL.as_slice())
            }
            Use::Assigned => self.note_setter(name),
            Use::Changed => {
                self.note(name.text.as_slice())?;
                self.note_setter(name)
            }
            _ => self.note(name.text.as_slice()),
        }
    }

    fn note_variable(&mut self, name: &Name, is_final: bool) -> Result<(), AllocError>
        ensures { OnOk result (self.new ≡ noted_all self.old (with_setter is_final name.now.text)) }
    {
        self.note(name.text.as_slice())?;
        if is_final {
            Ok(())
        } else {
            self.note_setter(name)
        }
    }

    fn note_iteration(&mut self) -> Result<(), AllocError>
        ensures { OnOk result (self.new ≡ noted_all self.old (codes "iterator" ∷ codes "moveNext" ∷ codes "current" ∷ [])) }
    {
        self.note(ITERATOR.as_slice())?;
        self.note(MOVE_NEXT.as_slice())?;
        self.note(CURRENT.as_slice())
    }

    /// The names that a site declares or uses.
    fn note_site(&mut self, site: &Site<'_>) -> Result<(), AllocError>
        ensures { OnOk result (self.new ≡ noted_all self.old (names_at site.now)) }
    {
        match site {
            Site::Named(name, how) => self.note_use(name.get(), *how),
            Site::Selected(_, name, how) => self.note_use(name.get(), *how),
            Site::ValueCalled(_, _) => self.note(CALL.as_slice()),
            Site::Operated(_, operator, _) => self.note(sign_of(*operator)),
            Site::Negated(_) => self.note(NEGATED.as_slice()),
            Site::ForIn(_) => self.note_iteration(),
            Site::Function(function) => self.note(function.get().name.text.as_slice()),
            Site::Getter(getter) => self.note(getter.get().name.text.as_slice()),
            Site::Setter(setter) => self.note_setter(&setter.get().name),
            Site::Variable(is_final, name) => self.note_variable(name.get(), *is_final),
            Site::Operator(method) => self.note(operator_text(method.get())),
            _ => Ok(()),
        }
    }
}

impl Visitor for Collector {
    ghost step = { noted_at };

    fn visit(
        &mut self,
        _surroundings: &Surroundings<'_, '_>,
        site: &Site<'_>,
    ) -> Result<(), AllocError> {
        self.note_site(site)
    }
}
