// Whole pages, run on books of both kinds of condition, and what they must print.

#![tactic(auto)]

#[cfg(test)]
mod tests {
    use book::{Line, Row};
    use conditions::{Condition, SignedPair, TruthSet};
    use run::report;
    use std::process::Abort;
    use std::test::Fail;

    // A line for the memory of a book: what it holds does not matter.
    fn blank<C: Condition>() -> Line<C> {
        Line {
            table: 1,
            row: Row::default(),
            condition: C::always(),
        }
    }

    // The page prints this on a book over these lines with this first number.
    fn prints<C: Condition>(
        rt: &(impl Abort + AllocGlobal),
        lines: &mut [Line<C>],
        first: u32,
        page: &[u8],
        expected: &str,
    ) -> Result<(), Fail> {
        let text = report(rt.alloc(), lines, first, page)?;
        assert_eq!(rt; text.as_str(), expected);
        Ok(())
    }

    // The page prints this on a book of 256 lines, whichever kind its conditions are.
    fn both_print(
        rt: &(impl Abort + AllocGlobal),
        page: &[u8],
        expected: &str,
    ) -> Result<(), Fail> {
        prints(rt, &mut [blank::<SignedPair>(); 256], 1, page, expected)?;
        prints(rt, &mut [blank::<TruthSet>(); 256], 1, page, expected)
    }

    // Two changes to the firing script, counted under each way they may end; every refusal of these calls; cut short.
    #[test]
    fn both_endings_are_counted(rt: HostRuntime) -> Result<(), Fail> {
        both_print(
            &rt,
            b"\x01\x02\x00\x00\x00\x01\x01\x00\x00\x00\x0a\x00\x00\x0b\xb8\x00\x00\x00\x05\x00\x00\x00\x07\x01\x02\x00\x00\x00\x02\x01\x00\x00\x00\x0a\x00\x00\x0b\xb8\x00\x00\x00\x05\x00\x00\x00\x07\x02\x00\x00\x00\x02\x01\x00\x00\x00\x0b\x00\x00\x0f\xa0\x00\x00\x00\x05\x00\x00\x00\x08\x07\x01\x00\x07\x01\x01\x07\x01\x02\x07\x01\x03\x07\x01\x04\x02\x00\x00\x00\x03\x01\x00\x00\x00\x00\x00\x00\x00\x00\x00\x00\x00\x00\x00\x00\x00\x00\x02\x00\x00\x00\x01\x05\x00\x00\x00\x00\x00\x00\x00\x00\x00\x00\x00\x00\x00\x00\x00\x00\x05\x00\x00\x00\x01\x02\x05\x00\x00\x00\x01\x00\x07\x01\x01\x05\x00\x00\x00\x02\x01\x07\x01\x00\x02\x00\x00",
            "0 1 ok 1\n1 2 ok 1\n23 1 ok 2\n24 2 ok 2\n46 2 ok 3\n68 7 ok 0\n71 7 ok 1\n74 7 ok 2\n77 7 ok 2\n80 7 refused 6\n83 2 refused 2\n105 2 refused 3\n127 5 refused 1\n133 5 ok 2\n139 7 ok 2\n142 5 ok 2\n148 7 ok 2\n151 2 refused 12\n",
        )
    }

    // A shot whose cue is still pending: the vote names the ending that would leave it without.
    #[test]
    fn a_vote_waits_for_its_cue(rt: HostRuntime) -> Result<(), Fail> {
        both_print(
            &rt,
            b"\x01\x02\x00\x00\x00\x01\x02\x00\x00\x00\x0a\x00\x00\x0f\xa0\x00\x00\x00\x00\x00\x00\x00\x00\x01\x02\x00\x00\x00\x02\x01\x00\x00\x00\x0a\x00\x00\x0b\xb8\x00\x00\x00\x05\x00\x00\x00\x07\x06\x00\x00\x00\x02\x05\x00\x00\x00\x01\x01\x06\x00\x00\x00\x02\x07\x01\x00\x05\x00\x00\x00\x09\x01\xff",
            "0 1 ok 1\n1 2 ok 1\n23 1 ok 2\n24 2 ok 2\n46 6 ok no 2\n51 5 ok 2\n57 6 ok yes\n62 7 ok 0\n65 5 refused 2\n71 255 refused 13\n",
        )
    }

    // The last number is given once, and then numbers are spent.
    #[test]
    fn numbers_are_spent(rt: HostRuntime) -> Result<(), Fail> {
        prints(
            &rt,
            &mut [blank::<SignedPair>(); 1],
            u32::MAX,
            b"\x01\x01",
            "0 1 ok 4294967295\n1 1 refused 10\n",
        )
    }

    // A book over no memory, or with the first number 0, gives out no number.
    #[test]
    fn a_bad_making_opens_nothing(rt: HostRuntime) -> Result<(), Fail> {
        prints(
            &rt,
            &mut [blank::<SignedPair>(); 0],
            1,
            b"\x01\x07\x01\x00",
            "0 1 refused 14\n1 7 ok 0\n",
        )?;
        prints(
            &rt,
            &mut [blank::<TruthSet>(); 2],
            0,
            b"\x01\x05\x00\x00\x00\x00\x01",
            "0 1 refused 14\n1 5 refused 2\n",
        )
    }

    // In memory of one line, updating a committed row is refused; updating one's own uncommitted row is not.
    #[test]
    fn one_line_is_enough_for_ones_own_row(rt: HostRuntime) -> Result<(), Fail> {
        let page =
            b"\x01\x02\x00\x00\x00\x01\x03\x00\x00\x00\x01\x00\x00\x00\x01\x00\x00\x00\x01\x00\x00\x00\x01\x04\x00\x00\x00\x01\x03\x00\x00\x00\x00\x00\x00\x00\x00\x00\x01\x00\x00\x00\x00\x02\x05\x00\x00\x00\x01\x01\x01\x04\x00\x00\x00\x02\x03\x00\x00\x00\x00\x00\x00\x00\x00\x00\x01\x00\x00\x00\x00\x03";
        prints(
            &rt,
            &mut [blank::<SignedPair>(); 1],
            1,
            page,
            "0 1 ok 1\n1 2 ok 1\n23 4 ok 1\n44 5 ok 1\n50 1 ok 2\n51 4 refused 11\n",
        )
    }
}
