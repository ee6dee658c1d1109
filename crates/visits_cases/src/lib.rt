// Sessions on whole streams, with the text that a program prints of them.
#![tactic(auto)]

#[cfg(test)]
mod tests {
    use std::alloc::{AllocError, Global};
    use std::process::Abort;
    use std::test::Fail;
    use visits::answer::Line;
    use visits::session::Session;

    fn report(alloc: Global, stream: &[u8]) -> Result<String, AllocError> {
        let mut session = Session::new(alloc)?;
        let mut out = String::new(alloc);
        for answer in stream.iter().filter_map(|&byte| session.feed(byte)) {
            write!(out, "{}|", Line(answer))?;
        }
        let (last, tally) = session.finish();
        if let Some(answer) = last {
            write!(out, "{}|", Line(answer))?;
        }
        write!(out, "{tally}")?;
        Ok(out)
    }

    // Each stream gets its report.
    fn reported(rt: &(impl Abort + AllocGlobal), cases: &[(&[u8], &str)]) -> Result<(), Fail> {
        for &(stream, text) in cases {
            assert_eq!(rt; report(rt.alloc(), stream)?.as_str(), text, "{stream:?}");
        }
        Ok(())
    }

    #[test]
    fn line_ends(rt: HostRuntime) -> Result<(), Fail> {
        let cases: [(&[u8], &str); 10] = [
            (b"", "0 due, 0 no day"),
            (b"\n", "no day|0 due, 1 no day"),
            (b"\n\n", "no day|no day|0 due, 2 no day"),
            (b"1130615", "1130615 1130731|1 due, 0 no day"),
            (b"1130615\n", "1130615 1130731|1 due, 0 no day"),
            (b"1130615\r\n", "1130615 1130731|1 due, 0 no day"),
            (b"1130615\r", "1130615 1130731|1 due, 0 no day"),
            (b"\r\n", "no day|0 due, 1 no day"),
            (b"1130615\r\r\n", "no day|0 due, 1 no day"),
            (
                b"1130615\n\r1130615",
                "1130615 1130731|no day|1 due, 1 no day",
            ),
        ];
        reported(&rt, &cases)
    }

    // Longer than a moment, with and without a carriage return, and far longer.
    #[test]
    fn long_lines(rt: HostRuntime) -> Result<(), Fail> {
        let cases: [(&[u8], &str); 6] = [
            (
                b"1130615083000\r\n",
                "1130615083000 1130731|1 due, 0 no day",
            ),
            (b"11306150830001\n", "no day|0 due, 1 no day"),
            (b"1130615083000\rx\n", "no day|0 due, 1 no day"),
            (b"1130615083000\r\r\n", "no day|0 due, 1 no day"),
            (&[b'1'; 1000], "no day|0 due, 1 no day"),
            (
                b"\xff\x00\n9991231",
                "no day|9991231 9991231|1 due, 1 no day",
            ),
        ];
        reported(&rt, &cases)
    }
}
