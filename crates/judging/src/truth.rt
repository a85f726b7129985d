// Truth as sets of worlds: where a formula holds, from where its parts hold.
ghost use Rattle.std.specs.Prelude.{◌≡◌, ℕ, ◌^◌, ◌<◌, bit_and, bit_or};
ghost use Rattle.logic.specs.Models.{every, at_ends, ◌⊃◌};
ghost use Rattle.rows.specs.Masks.{bit, Mask};
ghost use Rattle.rows.specs.RowsOf.{frame_of, model_of};
ghost use Rattle.judging.specs.Truths.{Carried};

use logic::terms::{Modality, Node};
use records::numbers::{FormulaNumber, Principal, World};
use rows::masks::{WorldSet, set_at};
use rows::rows::Rows;

// A modality at a world, from the ends of its arrows there and the worlds where the formula under it holds.
fn holds_at_ends(modality: Modality, ends: WorldSet, part: WorldSet) -> bool
    ensures { (n : ℕ) → ends.0 < 2 ^ n → result ≡ at_ends modality n (bit ends.0) (bit part.0) }
{
    match modality {
        Modality::Says | Modality::Controls | Modality::Ratified => ends.within(part),
        Modality::Permitted => ends.meets(part),
    }
}

// The same, of a principal at a world x.
fn modal_at(rows: &Rows, modality: Modality, principal: Principal, x: World, part: WorldSet) -> bool
    ensures { result ≡ at_ends modality (frame_of rows.now).worlds ((frame_of rows.now).arrow modality principal.0 x.0) (bit part.0) }
{
    holds_at_ends(modality, rows.ends(modality, principal, x), part)
}

// The worlds where a modality of a principal holds over the worlds of `part`.
fn modal_set(rows: &Rows, modality: Modality, principal: Principal, part: WorldSet) -> WorldSet
    ensures { Mask (frame_of rows.now).worlds result.0 (λ x. at_ends modality (frame_of rows.now).worlds ((frame_of rows.now).arrow modality principal.0 x) (bit part.0)) }
{
    // Told before the worlds are gone over, since told at each of them the modality costs half the time again.
    match modality {
        Modality::Permitted => rows.worlds_where(|x| modal_at(
            rows,
            Modality::Permitted,
            principal,
            x,
            part,
        )),
        Modality::Says | Modality::Controls | Modality::Ratified => rows.worlds_where(|x| modal_at(
            rows, modality, principal, x, part,
        )),
    }
}

// Whether every world above x that is one of `left` is one of `right`.
fn implies_at(rows: &Rows, x: World, left: WorldSet, right: WorldSet) -> bool
    ensures { result ≡ every (frame_of rows.now).worlds (λ y. (frame_of rows.now).above x.0 y ⊃ (bit left.0 y ⊃ bit right.0 y)) }
{
    (rows.above(x) & left).within(right)
}

// The worlds above which every world of `left` is one of `right`.
fn implies_set(rows: &Rows, left: WorldSet, right: WorldSet) -> WorldSet
    ensures { Mask (frame_of rows.now).worlds result.0 (λ x. every (frame_of rows.now).worlds (λ y. (frame_of rows.now).above x y ⊃ (bit left.0 y ⊃ bit right.0 y))) }
{
    rows.worlds_where(|x| implies_at(rows, x, left, right))
}

// The worlds where a formula holds, from those of its parts, by number. A part that is not in the list holds nowhere.
pub fn node_set(rows: &Rows, node: Node<FormulaNumber>, sets: &[WorldSet]) -> WorldSet
    ensures { Carried (model_of rows.now) sets.now node result }
{
    match node {
        Node::Atom(a) => rows.atom(a),
        Node::Falsity => WorldSet(0),
        Node::And(f, g) => set_at(sets, f.0) & set_at(sets, g.0),
        Node::Or(f, g) => set_at(sets, f.0) | set_at(sets, g.0),
        Node::Implies(f, g) => implies_set(rows, set_at(sets, f.0), set_at(sets, g.0)),
        Node::Modal(k, p, f) => modal_set(rows, k, p, set_at(sets, f.0)),
    }
}
