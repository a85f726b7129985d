// Worked derivations. Principal 0 is Admin or A, principal 1 is Bob or B; formula 0 is an atom.
use logic::fact::Fact;
use logic::table::FormulaTable;
use logic::terms::{FactView, Modality, Node};
use packs::published::published;
use piles::bare::Bare;
use piles::pack::Pack;
use records::file::File;
use records::numbers::{AtomNumber, FormulaNumber, Label, Principal};
use records::refusal::Refusal;
use rules::setting::Setting;
use stack::blank::Blank;
use steps::examine::examine_derivation;
use steps::waiting::Waiting;

const A: Principal = Principal(0);

const B: Principal = Principal(1);

// Formula f at label 0 on the left.
fn left(f: u16) -> Fact {
    Fact::from(FactView::Left(Label(0), FormulaNumber(f)))
}

// Formula f at label 0 on the right.
fn right(f: u16) -> Fact {
    Fact::from(FactView::Right(Label(0), FormulaNumber(f)))
}

// A modality of a principal over formula f, as a node.
fn modal(k: Modality, a: Principal, f: u16) -> Node<FormulaNumber> {
    Node::Modal(k, a, FormulaNumber(f))
}

// The table of an atom and some more formulas.
fn table_of(more: &[Node<FormulaNumber>]) -> FormulaTable {
    let mut table = FormulaTable::new();
    let _ = table.push(Node::Atom(AtomNumber(0)));
    for node in more {
        let _ = table.push(*node);
    }
    table
}

// The answer to a derivation of a sequent of one label, over two principals.
fn examine<K: Pack>(
    pile: &K,
    table: &FormulaTable,
    facts: &[Fact],
    bytes: &[u8],
) -> Result<(), Refusal> {
    let file = File::try_from(bytes)?;
    let setting = Setting {
        pile,
        principals: 2,
        table,
    };
    let mut trail = [Fact::blank(); 16];
    let mut waiting = [Waiting::blank(); 2];
    examine_derivation(file, &setting, 1, facts, &mut trail, &mut waiting)
}

// The same, with a refusal by its two numbers.
fn answer<K: Pack>(
    pile: &K,
    table: &FormulaTable,
    facts: &[Fact],
    bytes: &[u8],
) -> Result<(), (u16, u16)> {
    examine(pile, table, facts, bytes).map_err(|refusal| (refusal.number(), refusal.second()))
}

// p gives p: reflexivity, then the atom closes; without the order it does not.
#[test]
fn an_atom_gives_itself(rt: HostRuntime) {
    let table = table_of(&[]);
    let facts = [left(0), right(0)];
    let steps: &[u8] = &[4, 0, 44, 0, 0, 0, 8, 0, 32, 0, 0, 0, 1, 0, 2, 0];
    assert_eq!(rt; answer(&Bare, &table, &facts, steps), Ok(()));
    let alone: &[u8] = &[8, 0, 32, 0, 0, 0, 1, 0, 0, 0];
    assert_eq!(rt; answer(&Bare, &table, &facts, alone), Err((10, 0)));
    assert_eq!(rt; answer(&Bare, &table, &facts, &[]), Err((13, 0)));
}

// A ratified p gives A says p, by RS; the bare pack has no such step.
#[test]
fn ratified_gives_says(rt: HostRuntime) {
    let table = table_of(&[modal(Modality::Ratified, A, 0), modal(Modality::Says, A, 0)]);
    let facts = [left(1), right(2)];
    let steps: &[u8] = &[
        4, 0, 41, 0, 1, 0, 4, 0, 67, 0, 2, 0, 6, 0, 40, 0, 0, 0, 4, 0, 4, 0, 44, 0, 1, 0, 8, 0, 32,
        0, 5, 0, 3, 0, 6, 0,
    ];
    assert_eq!(rt; answer(&published(), &table, &facts, steps), Ok(()));
    assert_eq!(rt; answer(&Bare, &table, &facts, steps), Err((4, 1)));
}

// A says p does not give A ratified p by the same steps: the arrow of RS goes from says to ratified.
#[test]
fn says_does_not_give_ratified(rt: HostRuntime) {
    let table = table_of(&[modal(Modality::Ratified, A, 0), modal(Modality::Says, A, 0)]);
    let facts = [left(2), right(1)];
    let steps: &[u8] = &[4, 0, 41, 0, 1, 0, 4, 0, 67, 0, 2, 0];
    assert_eq!(rt; answer(&published(), &table, &facts, steps), Err((10, 1)));
}

// A says p gives B says A says p, by I-SS.
#[test]
fn says_gives_says_of_says(rt: HostRuntime) {
    let table = table_of(&[modal(Modality::Says, A, 0), modal(Modality::Says, B, 1)]);
    let facts = [left(1), right(2)];
    let steps: &[u8] = &[
        4, 0, 41, 0, 1, 0, 4, 0, 41, 0, 3, 0, 6, 0, 64, 0, 2, 0, 4, 0, 6, 0, 40, 0, 0, 0, 6, 0, 4,
        0, 44, 0, 2, 0, 8, 0, 32, 0, 7, 0, 5, 0, 8, 0,
    ];
    assert_eq!(rt; answer(&published(), &table, &facts, steps), Ok(()));
}

// Admin controls r and Admin says (Bob controls r) give Bob is permitted r: C2P opens a world, del-C branches.
#[test]
fn delegated_control_gives_permission(rt: HostRuntime) {
    let table = table_of(&[
        modal(Modality::Controls, A, 0),
        modal(Modality::Controls, B, 0),
        modal(Modality::Says, A, 2),
        modal(Modality::Permitted, B, 0),
    ]);
    let facts = [left(1), left(3), right(4)];
    let steps: &[u8] = &[
        6, 0, 65, 0, 0, 0, 1, 0, 6, 0, 43, 0, 2, 0, 4, 0, 4, 0, 44, 0, 1, 0, 6, 0, 66, 0, 3, 0, 0,
        0, 6, 0, 40, 0, 0, 0, 7, 0, 8, 0, 32, 0, 8, 0, 5, 0, 6, 0, 6, 0, 40, 0, 1, 0, 7, 0, 6, 0,
        40, 0, 9, 0, 8, 0, 8, 0, 32, 0, 10, 0, 5, 0, 6, 0,
    ];
    assert_eq!(rt; answer(&published(), &table, &facts, steps), Ok(()));
}
