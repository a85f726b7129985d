// The rules of a model, tested by sets of worlds.
ghost use Rattle.std.specs.Prelude.{◌≡◌, ℕ, ◌<◌, Bool, ◌&&◌};
ghost use Rattle.logic.specs.Models.{◌⊃◌};
ghost use Rattle.logic.specs.ModelRules.{Reflexive, Transitive, Monotone, MonotonePermitted, Upward, Regular};
ghost use Rattle.rows.specs.Masks.{bit, Mask};
ghost use Rattle.rows.specs.RowsOf.{frame_of, model_of};
ghost use Rattle.judging.specs.Tests.{Tells, all_above, some_above, permits_all, closed, leads, permits, under, ordered, keeps, allows, PrincipalKeeps, OpenRow};

use logic::terms::Modality;
use records::numbers::{AtomNumber, Principal, World};
use rows::masks::WorldSet;
use rows::rows::{MAX_ATOMS, Rows};

// If the first, then the second.
fn implies(a: bool, b: bool) -> bool
    ensures { result ≡ (a ⊃ b) }
{
    !a || b
}

// Whether every world above z is one of `into`, if z is one of `from`.
fn closed_at(rows: &Rows, z: World, from: WorldSet, into: WorldSet) -> bool
    ensures { (q : ℕ → Bool) → Mask (frame_of rows.now).worlds into.0 q → result ≡ (bit from.0 z.0 ⊃ all_above (frame_of rows.now) z.0 q) }
{
    implies(from.has(z), rows.above(z).within(into))
}

// Whether every world above a world of `from` is one of `into`.
fn closed_into(rows: &Rows, from: WorldSet, into: WorldSet) -> bool
    ensures { (p q : ℕ → Bool) → Mask (frame_of rows.now).worlds from.0 p → Mask (frame_of rows.now).worlds into.0 q → result ≡ closed (frame_of rows.now) p q }
{
    (0..rows.worlds()).all(|z| closed_at(rows, World(z), from, into))
}

// Whether a world is above itself, and every world above one above it is above it.
fn order_at(rows: &Rows, x: World) -> bool
    ensures { x.0 < (frame_of rows.now).worlds → result ≡ ordered (frame_of rows.now) x.0 }
{
    let up = rows.above(x);
    up.has(x) && closed_into(rows, up, up)
}

// Whether the order is reflexive and transitive.
pub fn is_order(rows: &Rows) -> bool
    ensures { Tells result (Reflexive (frame_of rows.now) × Transitive (frame_of rows.now)) }
{
    (0..rows.worlds()).all(|x| order_at(rows, World(x)))
}

// Whether the row of an atom is closed upward.
pub fn is_upward(rows: &Rows, atom: AtomNumber) -> bool
    ensures { Tells result (Upward (frame_of rows.now) ((model_of rows.now).row atom.0)) }
{
    let row = rows.atom(atom);
    closed_into(rows, row, row)
}

// Whether the rows of all atoms are closed upward.
pub fn atoms_are_upward(rows: &Rows) -> bool
    ensures { Tells result ((a : ℕ) → Upward (frame_of rows.now) ((model_of rows.now).row a)) }
{
    first_open_row(rows).is_none()
}

// The lowest atom whose row is not closed upward.
pub fn first_open_row(rows: &Rows) -> Option<AtomNumber>
    ensures { OpenRow (model_of rows.now) result }
{
    (0..MAX_ATOMS)
        .find(|number| !is_upward(rows, AtomNumber(*number)))
        .map(AtomNumber)
}

// Whether every world above an end of an arrow of a modality and a principal from y is one of `into`, if y is one of `up`.
// A modality and a principal stay two parameters, here and below, since `Rows::ends` takes the two.
fn leads_at(
    rows: &Rows,
    modality: Modality,
    principal: Principal,
    y: World,
    up: WorldSet,
    into: WorldSet,
) -> bool
    ensures { (q : ℕ → Bool) → Mask (frame_of rows.now).worlds into.0 q → result ≡ (bit up.0 y.0 ⊃ closed (frame_of rows.now) ((frame_of rows.now).arrow modality principal.0 y.0) q) }
{
    let ends = rows.ends(modality, principal, y);
    implies(up.has(y), closed_into(rows, ends, into))
}

// Whether every world above an end of an arrow of a modality and a principal from a world of `up` is one of `into`.
fn leads_into(
    rows: &Rows,
    modality: Modality,
    principal: Principal,
    up: WorldSet,
    into: WorldSet,
) -> bool
    ensures { (p q : ℕ → Bool) → Mask (frame_of rows.now).worlds up.0 p → Mask (frame_of rows.now).worlds into.0 q → result ≡ leads (frame_of rows.now) modality principal.0 p q }
{
    (0..rows.worlds()).all(|y| leads_at(rows, modality, principal, World(y), up, into))
}

// Whether arrows from the worlds above x lead, closed upward, to ends of arrows from x.
fn monotone_at(rows: &Rows, modality: Modality, principal: Principal, x: World) -> bool
    ensures { result ≡ keeps (frame_of rows.now) modality principal.0 x.0 }
{
    let up = rows.above(x);
    let ends = rows.ends(modality, principal, x);
    leads_into(rows, modality, principal, up, ends)
}

// Whether the arrows of a modality and a principal are monotone as those of says, controls and ratified are.
pub fn is_monotone(rows: &Rows, modality: Modality, principal: Principal) -> bool
    ensures { Tells result (Monotone (frame_of rows.now) modality principal.0) }
{
    (0..rows.worlds()).all(|x| monotone_at(rows, modality, principal, World(x)))
}

// Whether x is below some world of a set.
fn is_below(rows: &Rows, x: World, set: WorldSet) -> bool
    ensures { (q : ℕ → Bool) → Mask (frame_of rows.now).worlds set.0 q → result ≡ some_above (frame_of rows.now) x.0 q }
{
    rows.above(x).meets(set)
}

// The worlds below some world of a set.
fn below(rows: &Rows, set: WorldSet) -> WorldSet
    ensures { (q : ℕ → Bool) → Mask (frame_of rows.now).worlds set.0 q → Mask (frame_of rows.now).worlds result.0 (λ x. some_above (frame_of rows.now) x q) }
{
    rows.worlds_where(|x| is_below(rows, x, set))
}

// Whether every world of `low` is an end of an arrow of permission of a principal from w, if w is one of `up`.
fn permits_at(rows: &Rows, principal: Principal, w: World, up: WorldSet, low: WorldSet) -> bool
    ensures { (q : ℕ → Bool) → Mask (frame_of rows.now).worlds low.0 q → result ≡ (bit up.0 w.0 ⊃ permits_all (frame_of rows.now) principal.0 w.0 q) }
{
    let ends = rows.ends(Modality::Permitted, principal, w);
    implies(up.has(w), low.within(ends))
}

// Whether every world of `low` is an end of an arrow of permission of a principal from each world of `up`.
fn permits_from(rows: &Rows, principal: Principal, up: WorldSet, low: WorldSet) -> bool
    ensures { (p q : ℕ → Bool) → Mask (frame_of rows.now).worlds up.0 p → Mask (frame_of rows.now).worlds low.0 q → result ≡ permits (frame_of rows.now) principal.0 p q }
{
    (0..rows.worlds()).all(|w| permits_at(rows, principal, World(w), up, low))
}

// The worlds below an end of an arrow of permission from z.
fn worlds_under(rows: &Rows, principal: Principal, z: World) -> WorldSet
    ensures { Mask (frame_of rows.now).worlds result.0 (λ x. under (frame_of rows.now) principal.0 z.0 x) }
{
    let ends = rows.ends(Modality::Permitted, principal, z);
    below(rows, ends)
}

// Whether every world below an end of an arrow of permission from z is an end of one from each world above z.
fn permitted_at(rows: &Rows, principal: Principal, z: World) -> bool
    ensures { result ≡ allows (frame_of rows.now) principal.0 z.0 }
{
    let up = rows.above(z);
    let low = worlds_under(rows, principal, z);
    permits_from(rows, principal, up, low)
}

// Whether the arrows of permission of a principal are monotone.
pub fn is_monotone_permitted(rows: &Rows, principal: Principal) -> bool
    ensures { Tells result (MonotonePermitted (frame_of rows.now) principal.0) }
{
    (0..rows.worlds()).all(|z| permitted_at(rows, principal, World(z)))
}

// Whether all arrows of a principal are monotone.
fn arrows_are_monotone(rows: &Rows, principal: Principal) -> bool
    ensures { Tells result (PrincipalKeeps (frame_of rows.now) principal.0) }
{
    is_monotone(rows, Modality::Says, principal)
        && is_monotone(rows, Modality::Controls, principal)
        && is_monotone(rows, Modality::Ratified, principal)
        && is_monotone_permitted(rows, principal)
}

// Whether the order is one and all arrows of the principals below `principals` are monotone.
pub fn keeps_rules(rows: &Rows, principals: u16) -> bool
    ensures { Tells result (Regular principals (frame_of rows.now)) }
{
    let order = is_order(rows);
    order && (0..principals).all(|principal| arrows_are_monotone(rows, Principal(principal)))
}
