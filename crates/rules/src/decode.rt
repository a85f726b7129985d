// The step that a record asks for.
ghost use Rattle.std.specs.Prelude.{◌≡◌, ◌+◌, ◌≤◌, length, Some};
ghost use Rattle.records.specs.Chains.{record_of};
ghost use Rattle.rules.specs.Decoding.{width, positions_width, positions_at, number_at, pack_step, label_below, step_of};

use crate::contents::read_position;
use crate::kinds::*;
use crate::setting::Setting;
use crate::step::{PackStep, Positions, Step};
use piles::pack::Pack;
use piles::terms::{Arity, Layout};
use records::bytes::word_at;
use records::numbers::{Label, Principal, RecordNumber};
use records::record::Numbered;
use records::refusal::Refusal;

// The bytes of a number, if the body has it.
fn number_width(wanted: bool) -> usize
    ensures { result ≡ width wanted }
{
    if wanted { 2 } else { 0 }
}

// The bytes of the positions.
fn arity_width(arity: Arity) -> usize
    ensures { result ≡ positions_width arity }
{
    match arity {
        Arity::Zero => 0,
        Arity::One => 2,
        Arity::Two => 4,
    }
}

// The positions, at the front of the body.
fn read_positions(arity: Arity, body: &[u8]) -> Positions
    requires { positions_width arity ≤ length body.now }
    ensures { result ≡ positions_at arity body.now }
{
    match arity {
        Arity::Zero => Positions::Zero,
        Arity::One => Positions::One(read_position(body, 0)),
        Arity::Two => Positions::Two(read_position(body, 0), read_position(body, 2)),
    }
}

// A number that the body may have, below a limit.
fn read_number(
    body: &[u8],
    from: usize,
    wanted: bool,
    limit: u16,
    at: RecordNumber,
) -> Result<Option<u16>, Refusal>
    requires { from + width wanted ≤ length body.now }
    ensures { result ≡ number_at body.now from wanted limit at }
{
    if !wanted {
        return Ok(None);
    }
    let number = word_at(body, from);
    if number < limit {
        Ok(Some(number))
    } else {
        Err(Refusal::OutOfRange(at))
    }
}

// A pack's step, by the layout of its body.
fn decode_pack_step(
    layout: Layout,
    principals: u16,
    labels: u16,
    numbered: Numbered,
) -> Result<Step, Refusal>
    ensures { result ≡ pack_step principals labels numbered.entry.raw.kind numbered.entry.raw.body.now numbered.entry.at (Some layout) }
{
    let at = numbered.at;
    let body = numbered.raw.body;
    let first = arity_width(layout.positions);
    let second = first + number_width(layout.label);
    if body.len() != second + number_width(layout.principal) {
        return Err(Refusal::Frame(at));
    }
    let label = read_number(body, first, layout.label, labels, at)?;
    let principal = read_number(body, second, layout.principal, principals, at)?;
    Ok(Step::OfPack(PackStep {
        kind: numbered.raw.kind,
        positions: read_positions(layout.positions, body),
        label: label.map(Label),
        principal: principal.map(Principal),
    }))
}

// The step of a label that is below itself.
fn reflexive_step(x: Label, labels: u16, at: RecordNumber) -> Result<Step, Refusal>
    ensures { result ≡ label_below labels at x }
{
    if x.0 < labels {
        Ok(Step::Reflexive(x))
    } else {
        Err(Refusal::OutOfRange(at))
    }
}

// The step that a record asks for, over a pile and so many principals, in a branch with so many labels. It needs no formulas.
pub fn decode_step<K: Pack>(
    pile: &K,
    principals: u16,
    labels: u16,
    numbered: Numbered,
) -> Result<Step, Refusal>
    ensures { result ≡ step_of (K.layouts pile.now) principals labels (record_of numbered.entry.raw) numbered.entry.at }
{
    // The number is made into a step right here: an enum of kinds between would be this list once more, and a trait's
    // constant can't be a pattern.
    match numbered.raw.kind {
        32 => Ok(Step::AtomsClose(numbered.decode::<AtomsClose>()?)),
        33 => Ok(Step::FalsityCloses(numbered.decode::<FalsityCloses>()?)),
        34 => Ok(Step::AndLeft(numbered.decode::<AndLeft>()?)),
        35 => Ok(Step::AndRight(numbered.decode::<AndRight>()?)),
        36 => Ok(Step::OrLeft(numbered.decode::<OrLeft>()?)),
        37 => Ok(Step::OrRight(numbered.decode::<OrRight>()?)),
        38 => Ok(Step::ImpliesLeft(numbered.decode::<ImpliesLeft>()?)),
        39 => Ok(Step::ImpliesRight(numbered.decode::<ImpliesRight>()?)),
        40 => Ok(Step::ModalLeft(numbered.decode::<ModalLeft>()?)),
        41 => Ok(Step::ModalRight(numbered.decode::<ModalRight>()?)),
        42 => Ok(Step::PermittedLeft(numbered.decode::<PermittedLeft>()?)),
        43 => Ok(Step::PermittedRight(numbered.decode::<PermittedRight>()?)),
        44 => reflexive_step(numbered.decode::<Reflexive>()?, labels, numbered.at),
        45 => Ok(Step::Transitive(numbered.decode::<Transitive>()?)),
        46 => Ok(Step::Monotone(numbered.decode::<Monotone>()?)),
        kind => {
            let layout = pile.body(kind).ok_or(Refusal::Kind(numbered.at))?;
            decode_pack_step(layout, principals, labels, numbered)
        }
    }
}

impl<K: Pack> Setting<'_, K> {
    // The step that a record asks for, in a branch with so many labels.
    pub fn decode(&self, labels: u16, numbered: Numbered) -> Result<Step, Refusal>
        ensures { result ≡ step_of (K.layouts self.now.pile.now) self.now.principals labels (record_of numbered.entry.raw) numbered.entry.at }
    {
        decode_step(self.pile, self.principals, labels, numbered)
    }
}
