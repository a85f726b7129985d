//! Small models, worked out by hand.
#![tactic(auto)]

#[cfg(test)]
mod tests {
    use judging::rules::*;
    use judging::truth::*;
    use logic::terms::*;
    use records::numbers::*;
    use rows::masks::*;
    use rows::places::*;
    use rows::rows::*;
    use rows::slots::NoPlace;
    use std::test::Fail;

    // Worlds 0 and 1, with 0 below 1.
    fn chain() -> Result<Rows, Fail> {
        let mut rows = Rows::new(2).ok_or_else(|| Fail::new("two worlds"))?;
        rows.set_above(World(0), WorldSet(3));
        rows.set_above(World(1), WorldSet(2));
        Ok(rows)
    }

    #[test]
    fn one_to_thirty_two_worlds(rt: HostRuntime) -> Result<(), Fail> {
        assert!(rt; Rows::new(0).is_none());
        assert!(rt; Rows::new(33).is_none());
        let rows = Rows::new(32).ok_or_else(|| Fail::new("32 worlds"))?;
        assert_eq!(rt; rows.worlds(), 32);
        Ok(())
    }

    #[test]
    fn sets_of_worlds(rt: HostRuntime) {
        assert!(rt; WorldSet(5).has(World(2)) & !WorldSet(5).has(World(1)));
        assert!(rt; !WorldSet(u32::MAX).has(World(32)));
        assert!(rt; WorldSet(5).within(WorldSet(7)) & !WorldSet(9).within(WorldSet(7)));
        assert!(rt; WorldSet(6).meets(WorldSet(12)) & !WorldSet(2).meets(WorldSet(5)));
        assert_eq!(rt; WorldSet(1).with_world(World(3)).0, 9);
        assert_eq!(rt; WorldSet::all_worlds(3).0, 7);
        assert_eq!(rt; WorldSet(6) & WorldSet(12), WorldSet(4));
        assert_eq!(rt; WorldSet(6) | WorldSet(12), WorldSet(14));
    }

    #[test]
    fn rows_are_cut_to_the_worlds(rt: HostRuntime) -> Result<(), Fail> {
        let mut rows = chain()?;
        rows.set_atom(AtomNumber(63), WorldSet(6));
        rows.set_ends(Modality::Permitted, Principal(7), World(1), WorldSet(1));
        assert_eq!(rt; rows.atom(AtomNumber(63)).0, 2);
        assert_eq!(rt; rows.ends(Modality::Permitted, Principal(7), World(1)).0, 1);
        assert_eq!(rt; rows.ends(Modality::Ratified, Principal(7), World(1)).0, 0);
        assert_eq!(rt; rows.ends(Modality::Permitted, Principal(8), World(1)).0, 0);
        assert_eq!(rt; rows.above(World(32)).0, 0);
        assert_eq!(rt; rows.worlds_where(|world| world.0 != 0), WorldSet(2));
        Ok(())
    }

    #[test]
    fn orders(rt: HostRuntime) -> Result<(), Fail> {
        assert!(rt; is_order(&chain()?));
        let mut rows = Rows::new(3).ok_or_else(|| Fail::new("three worlds"))?;
        rows.set_above(World(0), WorldSet(3));
        rows.set_above(World(1), WorldSet(6));
        assert!(rt; !is_order(&rows), "2 is not above itself");
        rows.set_above(World(2), WorldSet(4));
        assert!(rt;
            !is_order(&rows),
            "2 is above 1, 1 is above 0, and 2 is not above 0"
        );
        rows.set_above(World(0), WorldSet(7));
        assert!(rt; keeps_rules(&rows, 8));
        Ok(())
    }

    #[test]
    fn arrows_of_says_are_kept_downward(rt: HostRuntime) -> Result<(), Fail> {
        let mut rows = chain()?;
        rows.set_ends(Modality::Says, Principal(0), World(1), WorldSet(2));
        assert!(rt; !is_monotone(&rows, Modality::Says, Principal(0)));
        assert!(rt; !keeps_rules(&rows, 1));
        rows.set_ends(Modality::Says, Principal(0), World(0), WorldSet(2));
        assert!(rt; is_monotone(&rows, Modality::Says, Principal(0)));
        assert!(rt; keeps_rules(&rows, 1));
        Ok(())
    }

    #[test]
    fn arrows_of_permission_are_kept_upward(rt: HostRuntime) -> Result<(), Fail> {
        let mut rows = chain()?;
        rows.set_ends(Modality::Permitted, Principal(0), World(1), WorldSet(1));
        assert!(rt; is_monotone_permitted(&rows, Principal(0)));
        assert!(rt; !is_monotone(&rows, Modality::Permitted, Principal(0)));
        rows.set_ends(Modality::Permitted, Principal(0), World(0), WorldSet(2));
        assert!(rt; !is_monotone_permitted(&rows, Principal(0)));
        Ok(())
    }

    #[test]
    fn atoms_hold_upward(rt: HostRuntime) -> Result<(), Fail> {
        let mut rows = chain()?;
        rows.set_atom(AtomNumber(5), WorldSet(2));
        assert!(rt; atoms_are_upward(&rows));
        assert!(rt; first_open_row(&rows).is_none());
        rows.set_atom(AtomNumber(5), WorldSet(1));
        assert!(rt; !is_upward(&rows, AtomNumber(5)) & is_upward(&rows, AtomNumber(4)));
        assert!(rt; !atoms_are_upward(&rows));
        assert_eq!(rt; first_open_row(&rows), Some(AtomNumber(5)));
        Ok(())
    }

    #[test]
    fn truth_at_two_worlds(rt: HostRuntime) -> Result<(), Fail> {
        let mut rows = chain()?;
        rows.set_ends(Modality::Says, Principal(0), World(0), WorldSet(2));
        rows.set_ends(Modality::Permitted, Principal(0), World(0), WorldSet(2));
        let f = FormulaNumber(0);
        let g = FormulaNumber(1);
        let sets = [WorldSet(2), WorldSet(1)];
        assert_eq!(rt; node_set(&rows, Node::And(f, g), &sets).0, 0);
        assert_eq!(rt; node_set(&rows, Node::Or(f, g), &sets).0, 3);
        assert_eq!(rt; node_set(&rows, Node::Implies(f, g), &sets).0, 0);
        assert_eq!(rt; node_set(&rows, Node::Implies(g, f), &sets).0, 2);
        assert_eq!(rt;
            node_set(&rows, Node::Modal(Modality::Says, Principal(0), f), &sets).0,
            3
        );
        assert_eq!(rt;
            node_set(
                &rows,
                Node::Modal(Modality::Permitted, Principal(0), f),
                &sets,
            )
            .0,
            1
        );
        Ok(())
    }

    #[test]
    fn labels_are_placed(rt: HostRuntime) {
        let mut places = Places::new();
        assert_eq!(rt; places.put(Label(7), World(5)), Ok(()));
        assert_eq!(rt; places.put(Label(8), World(6)), Err(NoPlace));
        assert_eq!(rt; places.world(Label(7)).0, 5);
        assert!(rt; places.place(Label(6)).is_none());
        assert_eq!(rt; places.world(Label(6)).0, 0);
    }
}
