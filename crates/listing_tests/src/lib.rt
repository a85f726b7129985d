//! Listings of small files, worked out by hand.
#![tactic(auto)]

#[cfg(test)]
mod tests {
    use listings::listing::{Printed, list};
    use std::alloc::{AllocError, Global};
    use std::test::Fail;

    fn text(heap: Global, bytes: &[u8]) -> Result<String, AllocError> {
        Printed(list(heap, bytes)?).to_string(heap)
    }

    #[test]
    fn no_bytes_are_a_whole_chain(rt: HostRuntime) -> Result<(), Fail> {
        let shown = text(rt.alloc(), b"")?;
        assert_eq!(rt;
            shown.as_str(),
            "  no  offset   kind  name              fields\na whole chain of 0 records\nbytes 0  records 0  formulas 0  facts 0  rows 0  unknown 0  wrong size 0\n"
        );
        Ok(())
    }

    // 258 is 2 + 1 * 256: the low byte comes first
    #[test]
    fn numbers_have_the_low_byte_first(rt: HostRuntime) -> Result<(), Fail> {
        let shown = text(rt.alloc(), &[4, 0, 1, 0, 2, 1])?;
        assert!(rt;
            shown
                .as_str()
                .contains("\n   0       0      1  atom              atom 258\n")
        );
        assert!(rt; shown.as_str().contains("\na whole chain of 1 records\n"));
        Ok(())
    }

    // the mask's lowest bit and its highest are worlds 0 and 31
    #[test]
    fn masks_are_shown_as_worlds(rt: HostRuntime) -> Result<(), Fail> {
        let shown = text(rt.alloc(), &[8, 0, 23, 0, 1, 0, 1, 0, 0, 128])?;
        assert!(rt;
            shown
                .as_str()
                .contains("atom 1  mask 0x80000001 worlds 0 31\n")
        );
        Ok(())
    }

    // kind 14 with the modality 5, which is none
    #[test]
    fn a_number_of_no_modality_is_shown(rt: HostRuntime) -> Result<(), Fail> {
        let shown = text(rt.alloc(), &[10, 0, 14, 0, 5, 0, 1, 0, 2, 0, 3, 0])?;
        assert!(rt;
            shown.as_str().contains(
                "  arrow             modality 5 (unknown)  principal 1  from 2  to 3\n",
            )
        );
        Ok(())
    }

    // the second record begins after the six bytes of the first, and its length is past the end
    #[test]
    fn a_broken_frame_ends_the_listing(rt: HostRuntime) -> Result<(), Fail> {
        let shown = text(rt.alloc(), &[4, 0, 10, 0, 3, 0, 3, 0, 2, 0])?;
        assert!(rt;
            shown.as_str().contains(
                "\n   0       0     10  labels            count 3\nrefused 3 1: ",
            )
        );
        assert!(rt;
            shown.as_str().contains(
                " (record 1), at byte 6\nbytes 10  records 1  formulas 0  facts 1  ",
            )
        );
        Ok(())
    }

    #[test]
    fn a_length_under_two_is_broken(rt: HostRuntime) -> Result<(), Fail> {
        let shown = text(rt.alloc(), &[1, 0, 0])?;
        assert!(rt; shown.as_str().contains("\nrefused 3 0: "));
        Ok(())
    }

    // the listing goes on after a body of the wrong size
    #[test]
    fn a_wrong_size_is_said(rt: HostRuntime) -> Result<(), Fail> {
        let shown = text(rt.alloc(), &[3, 0, 2, 0, 255, 2, 0, 2, 0])?;
        assert!(rt;
            shown.as_str().contains(
                "falsity           wrong size (refusal 3 0), takes 0, has 1 byte: ff\n",
            )
        );
        assert!(rt;
            shown.as_str().contains("\n   1       5      2  falsity\na whole chain of 2 records\n")
        );
        assert!(rt;
            shown
                .as_str()
                .contains("formulas 1  facts 0  rows 0  unknown 0  wrong size 1\n")
        );
        Ok(())
    }

    #[test]
    fn a_file_has_at_most_32768_bytes(rt: HostRuntime) -> Result<(), Fail> {
        let heap = rt.alloc();
        let bytes = vec![in heap; 0; 32769]?;
        let shown = text(heap, &bytes)?;
        assert_eq!(rt;
            shown.as_str(),
            "refused 2 0: the file has more than 32768 bytes\n"
        );
        let bytes = vec![in heap; 0; 32768]?;
        let shown = text(heap, &bytes)?;
        assert!(rt; shown.as_str().contains("\nrefused 3 0: "));
        Ok(())
    }
}
