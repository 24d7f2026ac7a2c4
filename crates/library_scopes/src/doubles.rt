//! Where a library or a class declares a name twice.
ghost use Rattle.std.specs.Prelude.{◌≡◌, if◌then◌else◌, codes, map, flat_map, OnOk, IfOk};
ghost use Rattle.dart_program.specs.Declares as declares;
ghost use Rattle.library_scopes.specs.Taken as spec;
ghost use Rattle.library_scopes.specs.Doubling.{claimed, claimed_all, variable_claim};
ghost use Rattle.library_scopes.specs.Least.{least, least_with};

use crate::least::lesser;
use crate::reading::name_of_variable;
use crate::taken::{Claimant, Taken};
use dart_grammar::declarations::{
    Class, Constructor, Declaration, FileTree, Import, Member, OperatorMethod, OperatorName,
};
use dart_grammar::trees::{Name, Variable};
use std::alloc::{AllocError, Global};

const DOT: u16 = 46;

/// The names that are taken so far, and the first place at which one is taken that was taken before.
#[derive(Drop)]
pub struct Doubling {
    pub taken: Taken,
    pub first: Option<u32>,
}

impl Doubling {
    fn claim_text(&mut self, text: &[u16], at: u32, by_what: Claimant) -> Result<(), AllocError>
        ensures { OnOk result (self.new ≡ claimed self.old (record { text = text.now; at = at; by_what = by_what })) }
    {
        if self.taken.has(text, by_what) {
            self.first = lesser(self.first, at);
        }
        self.taken.put(text, by_what)?;
        Ok(())
    }

    fn claim(&mut self, name: &Name, by_what: Claimant) -> Result<(), AllocError>
        ensures { OnOk result (self.new ≡ claimed self.old (spec.claim name.now by_what)) }
    {
        self.claim_text(name.text.as_slice(), name.span.from, by_what)
    }

    fn claim_variables(&mut self, variables: &[Variable]) -> Result<(), AllocError>
        ensures { OnOk result (self.new ≡ claimed_all self.old (map variable_claim variables.now)) }
    {
        for variable in variables {
            self.claim(name_of_variable(variable), Claimant::Other)?;
        }
        Ok(())
    }

    #[tactic(auto, using(crate::proofs::Steps::variables_claimed))]
    fn claim_declaration(&mut self, declaration: &Declaration) -> Result<(), AllocError>
        ensures { OnOk result (self.new ≡ claimed_all self.old (map spec.declared_claim (declares.declared_by declaration.now))) }
    {
        match declaration {
            Declaration::Class(class) => self.claim(&class.name, Claimant::Other),
            Declaration::Alias(alias) => self.claim(&alias.name, Claimant::Other),
            Declaration::Function(function) => self.claim(&function.name, Claimant::Other),
            Declaration::Getter(getter) => self.claim(&getter.name, Claimant::Getter),
            Declaration::Setter(setter) => self.claim(&setter.name, Claimant::Setter),
            Declaration::Variables(_, variables) => {
                self.claim_variables(variables.items.as_slice())?;
                Ok(())
            }
        }
    }

    #[tactic(auto, using(crate::proofs::Steps::claimed_behind))]
    fn claim_declarations(&mut self, declarations: &[Declaration]) -> Result<(), AllocError>
        ensures { OnOk result (self.new ≡ claimed_all self.old (map spec.declared_claim (flat_map declares.declared_by declarations.now))) }
    {
        for declaration in declarations {
            self.claim_declaration(declaration)?;
        }
        Ok(())
    }

    #[tactic(auto, using(crate::proofs::Steps::fields_claimed))]
    fn claim_member(
        &mut self,
        alloc: Global,
        class: &Name,
        member: &Member,
    ) -> Result<(), AllocError>
        ensures { OnOk result (self.new ≡ claimed_all self.old (map (spec.member_claim class.now) (declares.declared_by_member member.now))) }
    {
        match member {
            Member::Function(_, function) => self.claim(&function.name, Claimant::Other),
            Member::Getter(_, getter) => self.claim(&getter.name, Claimant::Getter),
            Member::Setter(_, setter) => self.claim(&setter.name, Claimant::Setter),
            Member::Fields(_, _, variables) => {
                self.claim_variables(variables.items.as_slice())?;
                Ok(())
            }
            Member::Operator(operator) => self.claim_text(
                operator_text(operator),
                operator.sign.from,
                Claimant::Other,
            ),
            Member::Constructor(constructor) => {
                self.claim_constructor(alloc, class, constructor)
            },
        }
    }

    fn claim_constructor(
        &mut self,
        alloc: Global,
        class: &Name,
        constructor: &Constructor,
    ) -> Result<(), AllocError>
        ensures { OnOk result (self.new ≡ claimed self.old (spec.member_claim class.now (declares.AConstructor constructor.now))) }
    {
        let names = constructor.names.as_slice();
        let text = dotted_text(alloc, names)?;
        self.claim_text(
            text.as_slice(),
            last_name(class, names).span.from,
            Claimant::Constructor,
        )
    }

    #[tactic(auto, using(crate::proofs::Steps::claimed_behind))]
    fn claim_members(
        &mut self,
        alloc: Global,
        class: &Name,
        members: &[Member],
    ) -> Result<(), AllocError>
        ensures { OnOk result (self.new ≡ claimed_all self.old (map (spec.member_claim class.now) (flat_map declares.declared_by_member members.now))) }
    {
        for member in members {
            self.claim_member(alloc, class, member)?;
        }
        Ok(())
    }
}

/// The last name, or the class's where there is none.
fn last_name<'a>(class: &'a Name, names: &'a [Name]) -> &'a Name
    ensures { result.now ≡ declares.last_name class.now names.now }
{
    let mut last = class;
    for name in names {
        last = name;
    }
    last
}

/// Names with dots between.
fn dotted_text(alloc: Global, names: &[Name]) -> Result<Vec<u16>, AllocError>
    ensures { IfOk result (λ text. text.items ≡ spec.dotted_text names.now) }
{
    let mut text = Vec::new(alloc);
    if let Some((first, rest)) = names.split_first() {
        text.extend_from_slice(first.text.as_slice())?;
        for name in rest {
            text.push(DOT)?;
            text.extend_from_slice(name.text.as_slice())?;
        }
    }
    Ok(text)
}

/// The name of an operator: its sign, and `unary-` where it has no parameter.
pub fn operator_text(method: &OperatorMethod) -> &'static [u16]
    ensures { result.now ≡ declares.operator_text method.now }
{
    let parameters = &method.parameters;
    if parameters.required.len() == 0 && parameters.optional.len() == 0 {
        bare_operator_text(method.operator)
    } else {
        sign_of(method.operator)
    }
}

fn bare_operator_text(operator: OperatorName) -> &'static [u16]
    ensures { result.now ≡ (if declares.is_minus operator then codes "unary-" else declares.sign_of operator) }
{
    match operator {
        OperatorName::Minus => &[117, 110, 97, 114, 121, 45],
        other => sign_of(other),
    }
}

fn sign_of(operator: OperatorName) -> &'static [u16]
    ensures { result.now ≡ declares.sign_of operator }
{
    match operator {
        OperatorName::Plus => &[43],
        OperatorName::Minus => &[45],
        OperatorName::Times => &[42],
        OperatorName::Divide => &[126, 47],
        OperatorName::Modulo => &[37],
        OperatorName::Less => &[60],
        OperatorName::Greater => &[62],
        OperatorName::LessEqual => &[60, 61],
        OperatorName::GreaterEqual => &[62, 61],
        OperatorName::Index => &[91, 93],
        OperatorName::SetIndex => &[91, 93, 61],
    }
}

/// The names that prefixes take.
fn taken_by_prefixes(alloc: Global, imports: &[Import]) -> Result<Taken, AllocError>
    ensures { IfOk result (λ taken. taken ≡ spec.with_claims spec.none_taken (flat_map spec.prefix_claims imports.now)) }
{
    let mut taken = Taken::new(alloc);
    for import in imports {
        take_prefix(&mut taken, import)?;
    }
    Ok(taken)
}

fn take_prefix(taken: &mut Taken, import: &Import) -> Result<(), AllocError>
    ensures { OnOk result (taken.new ≡ spec.with_claims taken.old (spec.prefix_claims import.now)) }
{
    match &import.prefix {
        Some(name) => taken.put(name.text.as_slice(), Claimant::Other),
        None => Ok(()),
    }
}

#[tactic(auto, using(crate::proofs::Steps::claimed_first))]
fn library_double(alloc: Global, file: &FileTree) -> Result<Option<u32>, AllocError>
    ensures { IfOk result (λ place. place ≡ least (spec.library_doubles file.now)) }
{
    let mut doubling = Doubling {
        taken: taken_by_prefixes(alloc, file.imports.as_slice())?,
        first: None,
    };
    doubling.claim_declarations(file.declarations.as_slice())?;
    Ok(doubling.first)
}

/// The first of this place and those in a class.
#[tactic(auto, using(crate::proofs::Steps::claimed_first))]
fn class_double(alloc: Global, first: Option<u32>, class: &Class) -> Result<Option<u32>, AllocError>
    ensures { IfOk result (λ place. place ≡ least_with first (spec.class_doubles class.now)) }
{
    let mut doubling = Doubling {
        taken: Taken::new(alloc),
        first,
    };
    doubling.claim_members(alloc, &class.name, class.members.as_slice())?;
    Ok(doubling.first)
}

/// The first of this place and those in a class, if this is one.
fn double_in(
    alloc: Global,
    first: Option<u32>,
    declaration: &Declaration,
) -> Result<Option<u32>, AllocError>
    ensures { IfOk result (λ place. place ≡ least_with first (spec.doubles_inside declaration.now)) }
{
    match declaration {
        Declaration::Class(class) => class_double(alloc, first, class),
        _ => Ok(first),
    }
}

/// The first of this place and those in classes.
#[tactic(auto, using(crate::proofs::Steps::least_behind))]
fn double_inside(
    alloc: Global,
    first: Option<u32>,
    declarations: &[Declaration],
) -> Result<Option<u32>, AllocError>
    ensures { IfOk result (λ place. place ≡ least_with first (flat_map spec.doubles_inside declarations.now)) }
{
    let mut first = first;
    for declaration in declarations {
        first = double_in(alloc, first, declaration)?;
    }
    Ok(first)
}

/// The first place where a library or a class declares a name twice, or a declaration has the name of a prefix.
#[tactic(auto, using(crate::proofs::Steps::least_behind), unfolding(crate::specs::Taken::double_places))]
pub fn double(alloc: Global, file: &FileTree) -> Result<Option<u32>, AllocError>
    ensures { IfOk result (λ place. place ≡ least (spec.double_places file.now)) }
{
    let first = library_double(alloc, file)?;
    double_inside(alloc, first, file.declarations.as_slice())
}
