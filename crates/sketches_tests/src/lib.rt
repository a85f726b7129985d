//! Model files against what the rules say of them, worked out by hand.
#![tactic(auto)]

use records::file::File;
use records::numbers::LabelCount;
use records::refusal::Refusal;
use sketches::read::read_model;

// How many worlds the model has that the bytes describe.
fn worlds_of(bytes: &[u8], labels: u16, principals: u16) -> Result<u16, Refusal> {
    let file = File::try_from(bytes)?;
    let model = read_model(file, LabelCount(labels), principals)?;
    Ok(model.rows.worlds())
}

// The same, with a refusal as its two numbers.
pub fn outcome_of(bytes: &[u8], labels: u16, principals: u16) -> Result<u16, (u16, u16)> {
    worlds_of(bytes, labels, principals).map_err(|refusal| (refusal.number(), refusal.second()))
}

#[cfg(test)]
mod tests {
    use super::*;
    use logic::terms::*;
    use records::numbers::*;
    use std::test::Fail;

    #[test]
    fn one_to_thirty_two_worlds(rt: HostRuntime) {
        assert_eq!(rt;
            outcome_of(&[4, 0, 20, 0, 32, 0, 6, 0, 24, 0, 0, 0, 31, 0], 1, 1),
            Ok(32)
        );
        assert_eq!(rt;
            outcome_of(&[4, 0, 20, 0, 1, 0, 6, 0, 24, 0, 0, 0, 0, 0], 1, 1),
            Ok(1)
        );
        assert_eq!(rt;
            outcome_of(&[4, 0, 20, 0, 33, 0, 6, 0, 24, 0, 0, 0, 0, 0], 1, 1),
            Err((5, 0))
        );
        assert_eq!(rt; outcome_of(&[4, 0, 20, 0, 0, 0], 1, 1), Err((5, 0)));
        assert_eq!(rt;
            outcome_of(&[4, 0, 20, 0, 32, 0, 6, 0, 24, 0, 0, 0, 32, 0], 1, 1),
            Err((5, 1))
        );
    }

    #[test]
    fn every_label_is_placed(rt: HostRuntime) {
        assert_eq!(rt; outcome_of(&[], 1, 1), Err((13, 0)));
        assert_eq!(rt; outcome_of(&[4, 0, 20, 0, 1, 0], 1, 1), Err((19, 0)));
        assert_eq!(rt;
            outcome_of(&[4, 0, 20, 0, 2, 0, 6, 0, 24, 0, 0, 0, 1, 0], 2, 1),
            Err((19, 1))
        );
        assert_eq!(rt;
            outcome_of(&[4, 0, 20, 0, 2, 0, 6, 0, 24, 0, 2, 0, 1, 0], 3, 1),
            Err((19, 0))
        );
        assert_eq!(rt;
            outcome_of(
                &[
                    4, 0, 20, 0, 2, 0, 6, 0, 24, 0, 1, 0, 1, 0, 6, 0, 24, 0, 0, 0, 1, 0,
                ],
                2,
                1,
            ),
            Ok(2)
        );
        assert_eq!(rt;
            outcome_of(&[4, 0, 20, 0, 2, 0, 6, 0, 24, 0, 1, 0, 0, 0], 1, 1),
            Err((5, 1))
        );
        assert_eq!(rt;
            outcome_of(&[4, 0, 20, 0, 2, 0, 6, 0, 24, 0, 8, 0, 0, 0], 9, 1),
            Err((5, 1))
        );
    }

    #[test]
    fn kinds_in_their_places(rt: HostRuntime) {
        assert_eq!(rt; outcome_of(&[6, 0, 24, 0, 0, 0, 0, 0], 1, 1), Err((4, 0)));
        assert_eq!(rt; outcome_of(&[4, 0, 10, 0, 1, 0], 1, 1), Err((4, 0)));
        assert_eq!(rt;
            outcome_of(&[4, 0, 20, 0, 1, 0, 4, 0, 20, 0, 1, 0], 1, 1),
            Err((4, 1))
        );
        assert_eq!(rt;
            outcome_of(&[4, 0, 20, 0, 1, 0, 2, 0, 2, 0], 1, 1),
            Err((4, 1))
        );
        assert_eq!(rt;
            outcome_of(&[4, 0, 20, 0, 1, 0, 2, 0, 25, 0], 1, 1),
            Err((4, 1))
        );
        assert_eq!(rt;
            outcome_of(&[4, 0, 20, 0, 1, 0, 3, 0, 19, 0, 7], 1, 1),
            Err((4, 1))
        );
    }

    #[test]
    fn frames_and_sizes(rt: HostRuntime) {
        assert_eq!(rt; outcome_of(&[3, 0, 20, 0, 1], 1, 1), Err((3, 0)));
        assert_eq!(rt; outcome_of(&[4, 0, 20, 0, 1, 0, 9], 1, 1), Err((3, 1)));
        assert_eq!(rt;
            outcome_of(&[4, 0, 20, 0, 1, 0, 6, 0, 21, 0, 0, 0, 1, 0], 1, 1),
            Err((3, 1))
        );
        assert_eq!(rt;
            outcome_of(&[4, 0, 20, 0, 1, 0, 2, 0, 22, 0], 1, 1),
            Err((3, 1))
        );
        assert_eq!(rt;
            outcome_of(&[4, 0, 20, 0, 1, 0, 2, 0, 23, 0], 1, 1),
            Err((3, 1))
        );
        assert_eq!(rt;
            outcome_of(&[4, 0, 20, 0, 1, 0, 2, 0, 24, 0], 1, 1),
            Err((3, 1))
        );
    }

    #[test]
    fn masks_in_range(rt: HostRuntime) {
        assert_eq!(rt;
            outcome_of(&[4, 0, 20, 0, 3, 0, 8, 0, 21, 0, 2, 0, 7, 0, 0, 0], 0, 1),
            Ok(3)
        );
        assert_eq!(rt;
            outcome_of(&[4, 0, 20, 0, 3, 0, 8, 0, 21, 0, 3, 0, 7, 0, 0, 0], 0, 1),
            Err((5, 1))
        );
        assert_eq!(rt;
            outcome_of(&[4, 0, 20, 0, 3, 0, 8, 0, 21, 0, 2, 0, 8, 0, 0, 0], 0, 1),
            Err((5, 1))
        );
        assert_eq!(rt;
            outcome_of(
                &[
                    4, 0, 20, 0, 3, 0, 12, 0, 22, 0, 6, 0, 0, 0, 0, 0, 8, 0, 0, 0,
                ],
                0,
                1,
            ),
            Err((5, 1))
        );
        assert_eq!(rt;
            outcome_of(&[4, 0, 20, 0, 3, 0, 8, 0, 23, 0, 0, 0, 8, 0, 0, 0], 0, 1),
            Err((5, 1))
        );
        assert_eq!(rt;
            outcome_of(
                &[4, 0, 20, 0, 32, 0, 8, 0, 21, 0, 31, 0, 255, 255, 255, 255],
                0,
                1,
            ),
            Ok(32)
        );
        assert_eq!(rt;
            outcome_of(&[4, 0, 20, 0, 31, 0, 8, 0, 21, 0, 0, 0, 0, 0, 0, 128], 0, 1),
            Err((5, 1))
        );
    }

    #[test]
    fn arrows_and_atoms_in_range(rt: HostRuntime) {
        assert_eq!(rt;
            outcome_of(
                &[
                    4, 0, 20, 0, 1, 0, 12, 0, 22, 0, 9, 0, 7, 0, 0, 0, 1, 0, 0, 0,
                ],
                0,
                8,
            ),
            Ok(1)
        );
        assert_eq!(rt;
            outcome_of(
                &[
                    4, 0, 20, 0, 1, 0, 12, 0, 22, 0, 9, 0, 8, 0, 0, 0, 1, 0, 0, 0,
                ],
                0,
                8,
            ),
            Err((5, 1))
        );
        assert_eq!(rt;
            outcome_of(
                &[
                    4, 0, 20, 0, 1, 0, 12, 0, 22, 0, 9, 0, 8, 0, 0, 0, 1, 0, 0, 0,
                ],
                0,
                9,
            ),
            Err((5, 1))
        );
        assert_eq!(rt;
            outcome_of(
                &[
                    4, 0, 20, 0, 1, 0, 12, 0, 22, 0, 10, 0, 0, 0, 0, 0, 1, 0, 0, 0,
                ],
                0,
                8,
            ),
            Err((5, 1))
        );
        assert_eq!(rt;
            outcome_of(
                &[
                    4, 0, 20, 0, 1, 0, 12, 0, 22, 0, 5, 0, 0, 0, 0, 0, 1, 0, 0, 0,
                ],
                0,
                8,
            ),
            Err((5, 1))
        );
        assert_eq!(rt;
            outcome_of(&[4, 0, 20, 0, 1, 0, 8, 0, 23, 0, 63, 0, 1, 0, 0, 0], 0, 8),
            Ok(1)
        );
        assert_eq!(rt;
            outcome_of(&[4, 0, 20, 0, 1, 0, 8, 0, 23, 0, 64, 0, 1, 0, 0, 0], 0, 8),
            Err((5, 1))
        );
    }

    // A row that says no world counts as given, and out of range comes before given twice.
    #[test]
    fn given_twice(rt: HostRuntime) {
        assert_eq!(rt;
            outcome_of(
                &[
                    4, 0, 20, 0, 2, 0, 8, 0, 21, 0, 1, 0, 0, 0, 0, 0, 8, 0, 21, 0, 1, 0, 2, 0, 0, 0,
                ],
                0,
                1,
            ),
            Err((18, 2))
        );
        assert_eq!(rt;
            outcome_of(
                &[
                    4, 0, 20, 0, 2, 0, 8, 0, 21, 0, 1, 0, 0, 0, 0, 0, 8, 0, 21, 0, 1, 0, 4, 0, 0, 0,
                ],
                0,
                1,
            ),
            Err((5, 2))
        );
        assert_eq!(rt;
            outcome_of(
                &[
                    4, 0, 20, 0, 2, 0, 8, 0, 21, 0, 1, 0, 0, 0, 0, 0, 8, 0, 21, 0, 0, 0, 2, 0, 0, 0,
                ],
                0,
                1,
            ),
            Ok(2)
        );
        assert_eq!(rt;
            outcome_of(
                &[
                    4, 0, 20, 0, 2, 0, 8, 0, 23, 0, 5, 0, 0, 0, 0, 0, 8, 0, 23, 0, 5, 0, 0, 0, 0, 0,
                ],
                0,
                1,
            ),
            Err((18, 2))
        );
        assert_eq!(rt;
            outcome_of(
                &[
                    4, 0, 20, 0, 2, 0, 6, 0, 24, 0, 0, 0, 1, 0, 6, 0, 24, 0, 0, 0, 1, 0,
                ],
                1,
                1,
            ),
            Err((18, 2))
        );
    }

    #[test]
    fn arrows_given_twice(rt: HostRuntime) {
        assert_eq!(rt;
            outcome_of(
                &[
                    4, 0, 20, 0, 2, 0, 12, 0, 22, 0, 6, 0, 0, 0, 1, 0, 0, 0, 0, 0, 12, 0, 22, 0, 6,
                    0, 0, 0, 1, 0, 2, 0, 0, 0,
                ],
                0,
                2,
            ),
            Err((18, 2))
        );
        assert_eq!(rt;
            outcome_of(
                &[
                    4, 0, 20, 0, 2, 0, 12, 0, 22, 0, 6, 0, 0, 0, 1, 0, 0, 0, 0, 0, 12, 0, 22, 0, 7,
                    0, 0, 0, 1, 0, 2, 0, 0, 0,
                ],
                0,
                2,
            ),
            Ok(2)
        );
        assert_eq!(rt;
            outcome_of(
                &[
                    4, 0, 20, 0, 2, 0, 12, 0, 22, 0, 6, 0, 0, 0, 1, 0, 0, 0, 0, 0, 12, 0, 22, 0, 6,
                    0, 1, 0, 1, 0, 2, 0, 0, 0,
                ],
                0,
                2,
            ),
            Ok(2)
        );
        assert_eq!(rt;
            outcome_of(
                &[
                    4, 0, 20, 0, 2, 0, 12, 0, 22, 0, 6, 0, 0, 0, 1, 0, 0, 0, 0, 0, 12, 0, 22, 0, 6,
                    0, 0, 0, 0, 0, 2, 0, 0, 0,
                ],
                0,
                2,
            ),
            Ok(2)
        );
    }

    #[test]
    fn what_is_kept(rt: HostRuntime) -> Result<(), Refusal> {
        let bytes = [
            4, 0, 20, 0, 2, 0, 8, 0, 21, 0, 0, 0, 3, 0, 0, 0, 12, 0, 22, 0, 8, 0, 1, 0, 1, 0, 2, 0,
            0, 0, 8, 0, 23, 0, 5, 0, 1, 0, 0, 0, 6, 0, 24, 0, 0, 0, 1, 0,
        ];
        let model = read_model(File::try_from(&bytes[..])?, LabelCount(1), 2)?;
        assert_eq!(rt; model.principals, 2);
        assert_eq!(rt; model.rows.above(World(0)).0, 3);
        assert_eq!(rt; model.rows.above(World(1)).0, 0);
        assert_eq!(rt;
            model
                .rows
                .ends(Modality::Ratified, Principal(1), World(1))
                .0,
            2
        );
        assert_eq!(rt;
            model.rows.ends(Modality::Says, Principal(1), World(1)).0,
            0
        );
        assert_eq!(rt; model.rows.atom(AtomNumber(5)).0, 1);
        assert_eq!(rt; model.places.world(Label(0)).0, 1);
        Ok(())
    }
}
