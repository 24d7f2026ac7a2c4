//! Chains, their parts, and targets.
#![tactic(auto, using(crate::proofs::Visits::visited_append))]

ghost use Rattle.std.specs.Prelude.{◌≡◌, Some, map, OnOk, IfOk, [], ◌∷◌};
ghost use Rattle.dart_grammar.specs.declared.declarations.OperatorName.TheVariants as m;
ghost use Rattle.dart_sites.specs.declared.sites.Use.TheVariants as u;
ghost use Rattle.dart_sites.specs.declared.sites.Site.TheVariants as x;
ghost use Rattle.dart_sites.specs.Expressions as spec;
ghost use Rattle.dart_sites.specs.Sites.{here, both, each};
ghost use Rattle.dart_sites.specs.Trees.{expr_in, chain_in, head_in, selector_in, arguments_in, interpolation_in, entry_in, target_in};
ghost use Rattle.dart_sites.specs.Walks.{Walks, past};

use crate::asked::{again, behind, chain_is_super, head_receiver, is_super, use_before};
use crate::lent::{Lent, LentSlice};
use crate::place::Place;
use crate::sites::{Receiver, Site, Use};
use crate::tour::Tour;
use crate::visitor::Visitor;
use crate::walker::Walker;
use dart_grammar::declarations::OperatorName;
use dart_grammar::trees::{
    Arguments, Chain, Entry, Expr, Head, Interpolation, Name, Selector, Span, Stmt, Target,
};
use std::alloc::AllocError;

impl<
    V: Visitor,
    E: for<'a> Fn(usize, &mut Tour<'a, V>, &Place<'_, 'a>, &'a Expr) -> Result<(), AllocError>,
    S: for<'a> Fn(usize, &mut Tour<'a, V>, &Place<'_, 'a>, &'a Stmt) -> Result<(), AllocError>,
> Walker<V, E, S> {
    /// Expressions, one behind another.
    pub fn exprs<'a>(
        &self,
        tour: &mut Tour<'a, V>,
        place: &Place<'_, 'a>,
        exprs: &'a [Expr],
    ) -> Result<(), AllocError>
        requires { Walks V.step self.now.depth (E.pre self.now.expr) (E.post self.now.expr) (S.pre self.now.stmt) (S.post self.now.stmt) }
        ensures sites { OnOk result (tour.new.visitor ≡ past V.step (each (λ y. y.sites) (map expr_in exprs.now)) place.now tour.old) }
        ensures scopes { OnOk result (tour.new.scopes ≡ tour.old.scopes) }
    {
        for expr in exprs {
            self.expr(tour, place, expr)?;
        }
        Ok(())
    }

    /// The arguments of a call.
    #[tactic(auto, using(crate::proofs::Visits::visited_append, crate::proofs::Parts::arguments_sites, crate::proofs::Parts::arguments_count))]
    pub fn arguments<'a>(
        &self,
        tour: &mut Tour<'a, V>,
        place: &Place<'_, 'a>,
        arguments: &'a Arguments,
    ) -> Result<(), AllocError>
        requires { Walks V.step self.now.depth (E.pre self.now.expr) (E.post self.now.expr) (S.pre self.now.stmt) (S.post self.now.stmt) }
        ensures sites { OnOk result (tour.new.visitor ≡ past V.step ((arguments_in arguments.now).sites) place.now tour.old) }
        ensures scopes { OnOk result (tour.new.scopes ≡ tour.old.scopes) }
    {
        tour.visit(
            place,
            &Site::ArgumentList(arguments.span, arguments.items.len()),
        )?;
        self.exprs(tour, place, arguments.items.as_slice())
    }

    // ---- heads

    #[tactic(auto, using(crate::proofs::Parts::interpolation_parts))]
    fn interpolation<'a>(
        &self,
        tour: &mut Tour<'a, V>,
        place: &Place<'_, 'a>,
        part: &'a Interpolation,
    ) -> Result<(), AllocError>
        requires { Walks V.step self.now.depth (E.pre self.now.expr) (E.post self.now.expr) (S.pre self.now.stmt) (S.post self.now.stmt) }
        ensures sites { OnOk result (tour.new.visitor ≡ past V.step (interpolation_in part.now) place.now tour.old) }
        ensures scopes { OnOk result (tour.new.scopes ≡ tour.old.scopes) }
    {
        self.expr(tour, place, part.value.get())
    }

    fn interpolations<'a>(
        &self,
        tour: &mut Tour<'a, V>,
        place: &Place<'_, 'a>,
        parts: &'a [Interpolation],
    ) -> Result<(), AllocError>
        requires { Walks V.step self.now.depth (E.pre self.now.expr) (E.post self.now.expr) (S.pre self.now.stmt) (S.post self.now.stmt) }
        ensures sites { OnOk result (tour.new.visitor ≡ past V.step (each (λ y. y) (map interpolation_in parts.now)) place.now tour.old) }
        ensures scopes { OnOk result (tour.new.scopes ≡ tour.old.scopes) }
    {
        for part in parts {
            self.interpolation(tour, place, part)?;
        }
        Ok(())
    }

    #[tactic(auto, using(crate::proofs::Visits::visited_append, crate::proofs::Parts::entry_parts))]
    fn entry<'a>(
        &self,
        tour: &mut Tour<'a, V>,
        place: &Place<'_, 'a>,
        entry: &'a Entry,
    ) -> Result<(), AllocError>
        requires { Walks V.step self.now.depth (E.pre self.now.expr) (E.post self.now.expr) (S.pre self.now.stmt) (S.post self.now.stmt) }
        ensures sites { OnOk result (tour.new.visitor ≡ past V.step (entry_in entry.now) place.now tour.old) }
        ensures scopes { OnOk result (tour.new.scopes ≡ tour.old.scopes) }
    {
        self.expr(tour, place, entry.key.get())?;
        self.expr(tour, place, entry.value.get())
    }

    fn entries<'a>(
        &self,
        tour: &mut Tour<'a, V>,
        place: &Place<'_, 'a>,
        entries: &'a [Entry],
    ) -> Result<(), AllocError>
        requires { Walks V.step self.now.depth (E.pre self.now.expr) (E.post self.now.expr) (S.pre self.now.stmt) (S.post self.now.stmt) }
        ensures sites { OnOk result (tour.new.visitor ≡ past V.step (each (λ y. y) (map entry_in entries.now)) place.now tour.old) }
        ensures scopes { OnOk result (tour.new.scopes ≡ tour.old.scopes) }
    {
        for entry in entries {
            self.entry(tour, place, entry)?;
        }
        Ok(())
    }

    #[tactic(auto, using(crate::proofs::Visits::visited_append, crate::proofs::Parts::arguments_sites, crate::proofs::Parts::arguments_count))]
    fn made<'a>(
        &self,
        tour: &mut Tour<'a, V>,
        place: &Place<'_, 'a>,
        span: Span,
        names: &'a [Name],
        arguments: &'a Arguments,
    ) -> Result<(), AllocError>
        requires { Walks V.step self.now.depth (E.pre self.now.expr) (E.post self.now.expr) (S.pre self.now.stmt) (S.post self.now.stmt) }
        ensures sites { OnOk result (tour.new.visitor ≡ past V.step (both (here (x.Made span names.now (arguments_in arguments.now).count)) (arguments_in arguments.now).sites) place.now tour.old) }
        ensures scopes { OnOk result (tour.new.scopes ≡ tour.old.scopes) }
    {
        tour.visit(
            place,
            &Site::Made(span, LentSlice::new(names), arguments.items.len()),
        )?;
        self.arguments(tour, place, arguments)
    }

    fn head<'a>(
        &self,
        tour: &mut Tour<'a, V>,
        place: &Place<'_, 'a>,
        head: &'a Head,
        last: Use,
    ) -> Result<(), AllocError>
        requires { Walks V.step self.now.depth (E.pre self.now.expr) (E.post self.now.expr) (S.pre self.now.stmt) (S.post self.now.stmt) }
        ensures sites { OnOk result (tour.new.visitor ≡ past V.step ((head_in head.now).sites last) place.now tour.old) }
        ensures scopes { OnOk result (tour.new.scopes ≡ tour.old.scopes) }
    {
        match head {
            Head::Named(name) => tour.visit(place, &Site::Named(Lent::new(name), last)),
            Head::This(span) => tour.visit(place, &Site::This(*span)),
            Head::Super(span) => tour.visit(place, &Site::Super(*span)),
            Head::Null(_) => Ok(()),
            Head::True(_) => Ok(()),
            Head::False(_) => Ok(()),
            Head::Number(_, _) => Ok(()),
            Head::Texts(_, _, parts) => self.interpolations(tour, place, parts.as_slice()),
            Head::New(span, names, arguments) => self.made(
                tour,
                place,
                *span,
                names.as_slice(),
                arguments,
            ),
            Head::Parenthesised(_, inner) => self.expr(tour, place, inner.get()),
            Head::Literal(span, parameters, body) => self.literal(
                tour, place, *span, parameters, body,
            ),
            Head::List(_, items) => self.exprs(tour, place, items.as_slice()),
            Head::Map(_, entries) => self.entries(tour, place, entries.as_slice()),
        }
    }

    // ---- selectors

    #[tactic(auto, using(crate::proofs::Visits::visited_append, crate::proofs::Parts::arguments_sites, crate::proofs::Parts::arguments_count))]
    fn invoke<'a>(
        &self,
        tour: &mut Tour<'a, V>,
        place: &Place<'_, 'a>,
        receiver: &Receiver<'a>,
        name: &'a Name,
        arguments: &'a Arguments,
    ) -> Result<(), AllocError>
        requires { Walks V.step self.now.depth (E.pre self.now.expr) (E.post self.now.expr) (S.pre self.now.stmt) (S.post self.now.stmt) }
        ensures sites { OnOk result (tour.new.visitor ≡ past V.step (both (here (x.Selected receiver.now name.now (u.Called (arguments_in arguments.now).count))) (arguments_in arguments.now).sites) place.now tour.old) }
        ensures scopes { OnOk result (tour.new.scopes ≡ tour.old.scopes) }
    {
        let called = Use::Called(arguments.items.len());
        tour.visit(
            place,
            &Site::Selected(again(receiver), Lent::new(name), called),
        )?;
        self.arguments(tour, place, arguments)
    }

    fn index<'a>(
        &self,
        tour: &mut Tour<'a, V>,
        place: &Place<'_, 'a>,
        receiver: &Receiver<'a>,
        span: Span,
        index: &'a Expr,
    ) -> Result<(), AllocError>
        requires { Walks V.step self.now.depth (E.pre self.now.expr) (E.post self.now.expr) (S.pre self.now.stmt) (S.post self.now.stmt) }
        ensures sites { OnOk result (tour.new.visitor ≡ past V.step (both (spec.operated span (spec.is_super receiver.now) (Some m.Index)) (expr_in index.now).sites) place.now tour.old) }
        ensures scopes { OnOk result (tour.new.scopes ≡ tour.old.scopes) }
    {
        tour.operated(place, span, is_super(receiver), Some(OperatorName::Index))?;
        self.expr(tour, place, index)
    }

    #[tactic(auto, using(crate::proofs::Visits::visited_append, crate::proofs::Parts::arguments_sites, crate::proofs::Parts::arguments_count))]
    fn call<'a>(
        &self,
        tour: &mut Tour<'a, V>,
        place: &Place<'_, 'a>,
        receiver: &Receiver<'a>,
        arguments: &'a Arguments,
    ) -> Result<(), AllocError>
        requires { Walks V.step self.now.depth (E.pre self.now.expr) (E.post self.now.expr) (S.pre self.now.stmt) (S.post self.now.stmt) }
        ensures sites { OnOk result (tour.new.visitor ≡ past V.step (both (spec.value_called receiver.now (arguments_in arguments.now)) (arguments_in arguments.now).sites) place.now tour.old) }
        ensures scopes { OnOk result (tour.new.scopes ≡ tour.old.scopes) }
    {
        tour.value_called(place, receiver, arguments)?;
        self.arguments(tour, place, arguments)
    }

    fn selector<'a>(
        &self,
        tour: &mut Tour<'a, V>,
        place: &Place<'_, 'a>,
        receiver: &Receiver<'a>,
        selector: &'a Selector,
        last: Use,
    ) -> Result<(), AllocError>
        requires { Walks V.step self.now.depth (E.pre self.now.expr) (E.post self.now.expr) (S.pre self.now.stmt) (S.post self.now.stmt) }
        ensures sites { OnOk result (tour.new.visitor ≡ past V.step ((selector_in selector.now).sites receiver.now last) place.now tour.old) }
        ensures scopes { OnOk result (tour.new.scopes ≡ tour.old.scopes) }
    {
        match selector {
            Selector::Member(_, name) => tour.visit(
                place,
                &Site::Selected(again(receiver), Lent::new(name), last),
            ),
            Selector::Invoke(_, name, arguments) => self.invoke(
                tour, place, receiver, name, arguments,
            ),
            Selector::Index(span, index) => self.index(tour, place, receiver, *span, index.get()),
            Selector::Call(arguments) => self.call(tour, place, receiver, arguments),
        }
    }

    // What a selector further on would stand behind.
    #[tactic(auto, using(crate::proofs::Visits::visited_append))]
    fn selectors<'a>(
        &self,
        tour: &mut Tour<'a, V>,
        place: &Place<'_, 'a>,
        before: Receiver<'a>,
        selectors: &'a [Selector],
        last: Use,
    ) -> Result<Receiver<'a>, AllocError>
        requires { Walks V.step self.now.depth (E.pre self.now.expr) (E.post self.now.expr) (S.pre self.now.stmt) (S.post self.now.stmt) }
        ensures sites { OnOk result (tour.new.visitor ≡ past V.step (spec.selectors_sites before.entry (map selector_in selectors.now) last) place.now tour.old) }
        ensures scopes { OnOk result (tour.new.scopes ≡ tour.old.scopes) }
        ensures receiver { IfOk result (λ r. r ≡ spec.receiver_behind before.entry (map selector_in selectors.now)) }
    {
        let mut receiver = before;
        let mut rest = selectors;
        while let Some((selector, after)) = rest.split_first() {
            self.selector(tour, place, &receiver, selector, use_before(after, last))?;
            receiver = behind(&receiver, selector);
            rest = after;
        }
        Ok(receiver)
    }

    /// A chain, and what a selector behind it would stand behind.
    #[tactic(auto, using(crate::proofs::Visits::visited_append, crate::proofs::Parts::chain_sites, crate::proofs::Parts::chain_receiver))]
    pub fn chain<'a>(
        &self,
        tour: &mut Tour<'a, V>,
        place: &Place<'_, 'a>,
        chain: &'a Chain,
        last: Use,
    ) -> Result<Receiver<'a>, AllocError>
        requires { Walks V.step self.now.depth (E.pre self.now.expr) (E.post self.now.expr) (S.pre self.now.stmt) (S.post self.now.stmt) }
        ensures sites { OnOk result (tour.new.visitor ≡ past V.step ((chain_in chain.now).sites last) place.now tour.old) }
        ensures scopes { OnOk result (tour.new.scopes ≡ tour.old.scopes) }
        ensures receiver { IfOk result (λ r. r ≡ (chain_in chain.now).receiver) }
    {
        let selectors = chain.selectors.as_slice();
        self.head(tour, place, &chain.head, use_before(selectors, last))?;
        self.selectors(tour, place, head_receiver(&chain.head), selectors, last)
    }

    // ---- targets

    fn member_target<'a>(
        &self,
        tour: &mut Tour<'a, V>,
        place: &Place<'_, 'a>,
        chain: &'a Chain,
        name: &'a Name,
        target_use: Use,
    ) -> Result<(), AllocError>
        requires { Walks V.step self.now.depth (E.pre self.now.expr) (E.post self.now.expr) (S.pre self.now.stmt) (S.post self.now.stmt) }
        ensures sites { OnOk result (tour.new.visitor ≡ past V.step (both ((chain_in chain.now).sites u.ReadBeforeDot) (here (x.Selected (chain_in chain.now).receiver name.now target_use))) place.now tour.old) }
        ensures scopes { OnOk result (tour.new.scopes ≡ tour.old.scopes) }
    {
        let receiver = self.chain(tour, place, chain, Use::ReadBeforeDot)?;
        tour.visit(
            place,
            &Site::Selected(receiver, Lent::new(name), target_use),
        )
    }

    fn index_target<'a>(
        &self,
        tour: &mut Tour<'a, V>,
        place: &Place<'_, 'a>,
        chain: &'a Chain,
        span: Span,
        index: &'a Expr,
        target_use: Use,
    ) -> Result<(), AllocError>
        requires { Walks V.step self.now.depth (E.pre self.now.expr) (E.post self.now.expr) (S.pre self.now.stmt) (S.post self.now.stmt) }
        ensures sites { OnOk result (tour.new.visitor ≡ past V.step (both ((chain_in chain.now).sites u.Read) (both (spec.index_operated span (chain_in chain.now).is_super target_use) (expr_in index.now).sites)) place.now tour.old) }
        ensures scopes { OnOk result (tour.new.scopes ≡ tour.old.scopes) }
    {
        self.chain(tour, place, chain, Use::Read)?;
        tour.index_operated(place, span, chain_is_super(chain), target_use)?;
        self.expr(tour, place, index)
    }

    /// What is given a value.
    pub fn target<'a>(
        &self,
        tour: &mut Tour<'a, V>,
        place: &Place<'_, 'a>,
        target: &'a Target,
        target_use: Use,
    ) -> Result<(), AllocError>
        requires { Walks V.step self.now.depth (E.pre self.now.expr) (E.post self.now.expr) (S.pre self.now.stmt) (S.post self.now.stmt) }
        ensures sites { OnOk result (tour.new.visitor ≡ past V.step (target_in target.now target_use) place.now tour.old) }
        ensures scopes { OnOk result (tour.new.scopes ≡ tour.old.scopes) }
    {
        match target {
            Target::Bare(name) => tour.visit(place, &Site::Named(Lent::new(name), target_use)),
            Target::MemberOf(chain, name) => self.member_target(
                tour,
                place,
                chain.get(),
                name,
                target_use,
            ),
            Target::IndexOf(chain, span, index) => self.index_target(
                tour,
                place,
                chain.get(),
                *span,
                index.get(),
                target_use,
            ),
        }
    }
}
