// The record kinds of steps have the numbers by which records are read as steps.
ghost use Rattle.rules.specs.Decoding.{label_below, IsRead, IsStep};
ghost use Rattle.rules.specs.declared.step.Step.TheVariants as S;

use crate::kinds::*;
use records::kind::RecordKind;

// A record with a kind's number is read as that kind's step, from what a body of its size holds.
pub fn steps_agree()
    ensures atoms_close { IsStep ⟦<AtomsClose as RecordKind>⟧.KIND ⟦<AtomsClose as RecordKind>⟧.SIZE ⟦<AtomsClose as RecordKind>⟧.content S.AtomsClose }
    ensures falsity_closes { IsStep ⟦<FalsityCloses as RecordKind>⟧.KIND ⟦<FalsityCloses as RecordKind>⟧.SIZE ⟦<FalsityCloses as RecordKind>⟧.content S.FalsityCloses }
    ensures and_left { IsStep ⟦<AndLeft as RecordKind>⟧.KIND ⟦<AndLeft as RecordKind>⟧.SIZE ⟦<AndLeft as RecordKind>⟧.content S.AndLeft }
    ensures and_right { IsStep ⟦<AndRight as RecordKind>⟧.KIND ⟦<AndRight as RecordKind>⟧.SIZE ⟦<AndRight as RecordKind>⟧.content S.AndRight }
    ensures or_left { IsStep ⟦<OrLeft as RecordKind>⟧.KIND ⟦<OrLeft as RecordKind>⟧.SIZE ⟦<OrLeft as RecordKind>⟧.content S.OrLeft }
    ensures or_right { IsStep ⟦<OrRight as RecordKind>⟧.KIND ⟦<OrRight as RecordKind>⟧.SIZE ⟦<OrRight as RecordKind>⟧.content S.OrRight }
    ensures implies_left { IsStep ⟦<ImpliesLeft as RecordKind>⟧.KIND ⟦<ImpliesLeft as RecordKind>⟧.SIZE ⟦<ImpliesLeft as RecordKind>⟧.content S.ImpliesLeft }
    ensures implies_right { IsStep ⟦<ImpliesRight as RecordKind>⟧.KIND ⟦<ImpliesRight as RecordKind>⟧.SIZE ⟦<ImpliesRight as RecordKind>⟧.content S.ImpliesRight }
    ensures modal_left { IsStep ⟦<ModalLeft as RecordKind>⟧.KIND ⟦<ModalLeft as RecordKind>⟧.SIZE ⟦<ModalLeft as RecordKind>⟧.content S.ModalLeft }
    ensures modal_right { IsStep ⟦<ModalRight as RecordKind>⟧.KIND ⟦<ModalRight as RecordKind>⟧.SIZE ⟦<ModalRight as RecordKind>⟧.content S.ModalRight }
    ensures permitted_left { IsStep ⟦<PermittedLeft as RecordKind>⟧.KIND ⟦<PermittedLeft as RecordKind>⟧.SIZE ⟦<PermittedLeft as RecordKind>⟧.content S.PermittedLeft }
    ensures permitted_right { IsStep ⟦<PermittedRight as RecordKind>⟧.KIND ⟦<PermittedRight as RecordKind>⟧.SIZE ⟦<PermittedRight as RecordKind>⟧.content S.PermittedRight }
    ensures transitive { IsStep ⟦<Transitive as RecordKind>⟧.KIND ⟦<Transitive as RecordKind>⟧.SIZE ⟦<Transitive as RecordKind>⟧.content S.Transitive }
    ensures monotone { IsStep ⟦<Monotone as RecordKind>⟧.KIND ⟦<Monotone as RecordKind>⟧.SIZE ⟦<Monotone as RecordKind>⟧.content S.Monotone }
    ensures reflexive { IsRead ⟦<Reflexive as RecordKind>⟧.KIND ⟦<Reflexive as RecordKind>⟧.SIZE ⟦<Reflexive as RecordKind>⟧.content (λ n at x. label_below n at x) }
{}
