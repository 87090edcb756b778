// Scenarios that are refused, with the message of each, and scenarios that are not, with their answers.
#![tactic(auto)]

#[cfg(test)]
mod tests {
    use scenario::report::Asked;
    use scenario::script::Scenario;
    use std::alloc::{AllocError, Global};
    use std::fmt::Write;
    use std::process::Abort;
    use std::test::Fail;

    fn answers(heap: Global, scenario: &Scenario) -> Result<String, AllocError> {
        let mut all = String::new(heap);
        let verdicts = scenario.answers(heap)?;
        for (question, verdict) in scenario.questions.iter().zip(verdicts.iter()) {
            let asked = Asked(*question);
            write!(all, "{asked}: {verdict}; ")?;
        }
        Ok(all)
    }

    // What the program would print of a scenario, in one line.
    fn told(heap: Global, text: &str) -> Result<String, AllocError> {
        match Scenario::read(heap, text) {
            Ok(scenario) => answers(heap, &scenario),
            Err(mistake) => format!(in heap; "{mistake}"),
        }
    }

    // Each scenario is told as expected.
    fn tell(rt: &impl Abort, heap: Global, cases: &[(&str, &str)]) -> Result<(), Fail> {
        for (text, expected) in cases {
            let said = told(heap, *text)?;
            assert!(rt; said.as_str() == *expected, "{}", *text);
        }
        Ok(())
    }

    #[test]
    fn numbers_are_refused(rt: HostRuntime) -> Result<(), Fail> {
        let cases = [
            (
                "image 0 fff",
                "line 1: 'fff' is not a byte of one or two hexadecimal digits",
            ),
            (
                "image +1",
                "line 1: '+1' is not a byte of one or two hexadecimal digits",
            ),
            (
                "image 0g",
                "line 1: '0g' is not a byte of one or two hexadecimal digits",
            ),
            (
                "serials 4294967296",
                "line 1: '4294967296' does not fit 32 bits",
            ),
            (
                "serials 99999999999999999999",
                "line 1: '99999999999999999999' does not fit 32 bits",
            ),
            ("serials +1", "line 1: '+1' is not a decimal number"),
            ("serials -1", "line 1: '-1' is not a decimal number"),
            ("serials f", "line 1: 'f' is not a decimal number"),
            (
                "personality release 0 1 2\nask 65536 0 0 0 plain",
                "line 2: '65536' does not fit 16 bits",
            ),
            (
                "personality release 0 1 2\nask 0 0 10000000000000000 0 plain",
                "line 2: '10000000000000000' does not fit 64 bits",
            ),
            (
                "personality release 0 1 2\nask 0 0 0x1 0 plain",
                "line 2: '0x1' is not a class in hexadecimal digits",
            ),
            (
                "personality lsda 0 0 0 tree 1 70000",
                "line 1: '70000' does not fit 16 bits",
            ),
        ];
        tell(&rt, rt.alloc(), &cases)
    }

    #[test]
    fn personalities_are_refused(rt: HostRuntime) -> Result<(), Fail> {
        let cases = [
            (
                "personality",
                "line 1: a personality is missing: release, lsda, sjlj, pair or guest",
            ),
            (
                "personality relase 0 1 2",
                "line 1: 'relase' is not a personality: release, lsda, sjlj, pair or guest",
            ),
            ("personality release 0 1", "line 1: release takes LO HI PAD"),
            (
                "personality release 0 1 2 3",
                "line 1: '3' is left over after the personality",
            ),
            (
                "personality lsda 0 1",
                "line 1: lsda and sjlj take START LENGTH FUNCTION and a language",
            ),
            (
                "personality sjlj 0 1 2",
                "line 1: a language is missing: tree or exact",
            ),
            (
                "personality sjlj 0 1 2 c",
                "line 1: 'c' is not a language: tree or exact",
            ),
            (
                "personality lsda 0 1 2 exact 3",
                "line 1: '3' is left over after the personality",
            ),
            (
                "personality guest release 0 1 2",
                "line 1: '(' is missing before 'release'",
            ),
            (
                "personality guest ( release 0 1 2",
                "line 1: ')' is missing at the end of the line",
            ),
            (
                "personality guest (release 0 1 2 )",
                "line 1: '(' is missing before '(release'",
            ),
            (
                "personality pair ( release 0 1 2 )",
                "line 1: '(' is missing at the end of the line",
            ),
            (
                "personality pair ( release 0 1 2 ) ( release 0 1 2 ) )",
                "line 1: ')' is left over after the personality",
            ),
        ];
        tell(&rt, rt.alloc(), &cases)
    }

    #[test]
    fn statements_are_refused(rt: HostRuntime) -> Result<(), Fail> {
        let cases = [
            (
                "# a comment\n\nentr 0 0",
                "line 3: 'entr' is not a statement",
            ),
            ("enter 0 0", "line 1: 'enter' is not a statement"),
            ("serials", "line 1: serials takes one number"),
            ("serials 1 2", "line 1: serials takes one number"),
            ("serials 1\nserials 1", "line 2: serials is given twice"),
            (
                "personality release 0 1 2\npersonality release 0 1 2",
                "line 2: personality is given twice",
            ),
            (
                "ask 0 0 0 0 plain",
                "line 1: ask stands before the personality",
            ),
            (
                "personality release 0 1 2\nask 0 0 0 0",
                "line 2: ask takes UNIT PLACE CLASS TYPE and plain or forced",
            ),
            (
                "personality release 0 1 2\nask 0 0 0 0 0 plain",
                "line 2: ask takes UNIT PLACE CLASS TYPE and plain or forced",
            ),
            (
                "personality release 0 1 2\nask 0 0 0 0 hard",
                "line 2: 'hard' is neither plain nor forced",
            ),
            (
                "personality release 0 1 2\nask 0 0 0 0 plain\nimage 0",
                "line 3: image stands after the first ask",
            ),
            (
                "personality release 0 1 2\nask 0 0 0 0 plain\nserials 0",
                "line 3: serials stands after the first ask",
            ),
        ];
        tell(&rt, rt.alloc(), &cases)
    }

    #[test]
    fn scenarios_are_answered(rt: HostRuntime) -> Result<(), Fail> {
        let cases = [
            ("", ""),
            ("image\nimage FF 0a # bytes\n\t# none\nserials 007", ""),
            (
                "\t personality   release 000 16\t32 # all\nask 0 0015 0C 3 plain",
                "ask 0 15 000000000000000c 3 plain: cleanup pad 32; ",
            ),
            ("personality lsda 0 0 0 tree", ""),
            (
                "personality pair ( release 0 9 2 ) ( pair ( lsda 0 4 1 tree 0 1 2 ) ( sjlj 0 4 1 exact ) )\nask 0 8 0 0 forced",
                "ask 0 8 0000000000000000 0 forced: cleanup pad 2; ",
            ),
            (
                "personality guest ( guest ( pair ( guest ( release 0 1 2 ) ) ( release 0 1 3 ) ) )\nask 0 0 0 0 plain\nask 1 0 0 0 plain\nask 2 0 0 0 plain",
                "ask 0 0 0000000000000000 0 plain: cleanup pad 2; ask 1 0 0000000000000000 0 plain: cleanup pad 3; ask 2 0 0000000000000000 0 plain: broken cause 8 offset 0 layer 4; ",
            ),
        ];
        tell(&rt, rt.alloc(), &cases)
    }
}
