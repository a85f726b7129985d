// A formula or an arrow as what a step needs.
ghost use Rattle.std.specs.Prelude.{◌≡◌};
ghost use Rattle.logic.specs.ModelRules.{universal};
ghost use Rattle.rules.specs.Applying.{atom_of, falsity_of, and_of, or_of, implies_of, modal_of, universal_of, permitted_of, end_of};

use crate::outcome::{ArrowParts, Boxed};
use logic::terms::{Modality, Node};
use records::numbers::{AtomNumber, FormulaNumber, Label};

// One function for each sign, since the rule table speaks of each apart.

// The atom that a formula is.
pub(crate) fn as_atom(node: Node<FormulaNumber>) -> Option<AtomNumber>
    ensures { result ≡ atom_of node }
{
    match node {
        Node::Atom(a) => Some(a),
        _ => None,
    }
}

// Falsity, and nothing beside it.
pub(crate) fn as_falsity(node: Node<FormulaNumber>) -> Option<()>
    ensures { result ≡ falsity_of node }
{
    match node {
        Node::Falsity => Some(()),
        _ => None,
    }
}

// The parts of a conjunction.
pub(crate) fn as_and(node: Node<FormulaNumber>) -> Option<(FormulaNumber, FormulaNumber)>
    ensures { result ≡ and_of node }
{
    match node {
        Node::And(f, g) => Some((f, g)),
        _ => None,
    }
}

// The parts of a disjunction.
pub(crate) fn as_or(node: Node<FormulaNumber>) -> Option<(FormulaNumber, FormulaNumber)>
    ensures { result ≡ or_of node }
{
    match node {
        Node::Or(f, g) => Some((f, g)),
        _ => None,
    }
}

// The parts of an implication.
pub(crate) fn as_implies(node: Node<FormulaNumber>) -> Option<(FormulaNumber, FormulaNumber)>
    ensures { result ≡ implies_of node }
{
    match node {
        Node::Implies(f, g) => Some((f, g)),
        _ => None,
    }
}

// The modality of a formula, and the formula under it.
fn as_modal(node: Node<FormulaNumber>) -> Option<Boxed<FormulaNumber>>
    ensures { result ≡ modal_of node }
{
    match node {
        Node::Modal(modality, principal, part) => Some(Boxed {
            modality,
            principal,
            part,
        }),
        _ => None,
    }
}

// Whether a modality speaks of all ends of its arrows.
pub(crate) fn is_universal(k: Modality) -> bool
    ensures { result ≡ universal k }
{
    k != Modality::Permitted
}

// A formula under says, controls or ratified.
pub(crate) fn as_universal(node: Node<FormulaNumber>) -> Option<Boxed<FormulaNumber>>
    ensures { result ≡ universal_of node }
{
    as_modal(node).filter(|boxed| is_universal(boxed.modality))
}

// A formula under permitted.
pub(crate) fn as_permitted(node: Node<FormulaNumber>) -> Option<Boxed<FormulaNumber>>
    ensures { result ≡ permitted_of node }
{
    as_modal(node).filter(|boxed| !is_universal(boxed.modality))
}

// Where an arrow ends that belongs to the modality and starts at x.
pub(crate) fn end_of(boxed: Boxed<FormulaNumber>, x: Label, arrow: ArrowParts) -> Option<Label>
    ensures { result ≡ end_of boxed x arrow }
{
    let fits = arrow.modality == boxed.modality
        && arrow.principal == boxed.principal
        && arrow.from == x;
    fits.then_some(arrow.to)
}
