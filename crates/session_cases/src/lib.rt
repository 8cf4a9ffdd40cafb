// Whole runs, from text to text. What is expected was written down from docs/ALMANAC.md, and not taken from the program.
#![tactic(auto)]

#[cfg(test)]
mod tests {
    use session::run::run;
    use std::alloc::Global;
    use std::process::Abort;
    use std::test::Fail;

    // A run writes this, and ends well or badly.
    fn says(
        rt: &impl Abort,
        heap: Global,
        text: &[u8],
        expected: &str,
        refused: bool,
    ) -> Result<(), Fail> {
        let outcome = run(heap, text)?;
        assert_eq!(rt; outcome.text.as_str(), expected);
        assert_eq!(rt; outcome.refused, refused);
        Ok(())
    }

    fn answers(rt: &impl Abort, heap: Global, text: &str, expected: &str) -> Result<(), Fail> {
        says(rt, heap, text.as_bytes(), expected, false)
    }

    fn refuses(rt: &impl Abort, heap: Global, text: &str, expected: &str) -> Result<(), Fail> {
        says(rt, heap, text.as_bytes(), expected, true)
    }

    #[test]
    fn questions(rt: HostRuntime) -> Result<(), Fail> {
        let heap = rt.alloc();
        answers(
            &rt,
            heap,
            "-5000 12000 0 0\n7000 0 -9000 0\n-2000 -3000 1000 500\nabove 0\nrise 1000\nset 0\n",
            "427\nnone\n1928\n",
        )?;
        answers(
            &rt,
            heap,
            "-5000 12000 0 0\nheight 0\nheight 427\nheight 1023\n",
            "-5000\n4\n6988\n",
        )?;
        answers(
            &rt,
            heap,
            "-1 4 -4 0\nabove 0\nrise 0\nset 0\nabove 513\ntable\ntable 0\n",
            "512\n512\n513\nnone\nrise 512\nset 513\nrise 512\nset 513\n",
        )?;
        answers(
            &rt,
            heap,
            "0 0 0 0\nline 1\nabove 0\nline 0\nabove 5\nline -1\nset 0\ntable\n",
            "none\n5\nnone\nnone\n",
        )?;
        answers(
            &rt,
            heap,
            "1 2 3 4\n5 6 7 8\nspans 0 2\nspans 1 2\nspans 1 1\nspans 2 1\nspans 0 3\nspans -1 1\n",
            "1 2 3 4\n5 6 7 8\n5 6 7 8\nnone\nnone\nnone\nnone\n",
        )?;
        // a jump at the join: it rises in the first tick of the second span, and a table of that span has it
        answers(
            &rt,
            heap,
            "-1 0 0 0\n1 0 0 0\nrise 0\ntable 0\ntable 1\n",
            "1024\nnone\nrise 1024\n",
        )
    }

    #[test]
    fn layout(rt: HostRuntime) -> Result<(), Fail> {
        let heap = rt.alloc();
        answers(&rt, heap, "", "")?;
        answers(&rt, heap, "# nothing but a comment\n\n   \t \n#\n", "")?;
        answers(&rt, heap, "\t 1 \t2  3 4 \t\n  height \t 0 ", "1\n")?;
        answers(&rt, heap, "1 2 3 4\r\nheight 0\r\n", "1\n")?;
        answers(&rt, heap, "1\n2 3\n4\nspans 0 1\n", "1 2 3 4\n")?;
        answers(
            &rt,
            heap,
            "007 -0 0 000000000000000004\nspans 0 1\n",
            "7 0 0 4\n",
        )?;
        answers(
            &rt,
            heap,
            "1 2 3 4\n# between\n\n5 6 7 8\nspans 1 2\n# behind\n",
            "5 6 7 8\n",
        )?;
        // a carriage return that no line break follows is a mark like any other
        refuses(
            &rt,
            heap,
            "1 2 3 4\nheight 0\r",
            "refused 5 at 1: the text cannot be read\n",
        )
    }

    #[test]
    fn refused_files(rt: HostRuntime) -> Result<(), Fail> {
        let heap = rt.alloc();
        refuses(
            &rt,
            heap,
            "above 0\n",
            "refused 1 at 0: the file is not 1 to 4096 spans of four numbers within 16777216\n",
        )?;
        refuses(
            &rt,
            heap,
            "1 2 3\nheight 0\nspans 0 1\ntable\n",
            "refused 1 at 3: the file is not 1 to 4096 spans of four numbers within 16777216\nrefused 1 at 3: the file is not 1 to 4096 spans of four numbers within 16777216\nrefused 1 at 3: the file is not 1 to 4096 spans of four numbers within 16777216\n",
        )?;
        refuses(
            &rt,
            heap,
            "1 2 3 16777217 5\nline 3\nheight 0\n",
            "refused 1 at 3: the file is not 1 to 4096 spans of four numbers within 16777216\n",
        )?;
        refuses(
            &rt,
            heap,
            "16777216 -16777216 -16777217 0\nheight 0\n",
            "refused 1 at 2: the file is not 1 to 4096 spans of four numbers within 16777216\n",
        )?;
        refuses(
            &rt,
            heap,
            "1 2 3 999999999999999999\nheight 0\n",
            "refused 1 at 3: the file is not 1 to 4096 spans of four numbers within 16777216\n",
        )?;
        // a refused file refuses what a good one would refuse for another reason too
        refuses(
            &rt,
            heap,
            "1 2 3\nheight -7\nline 99999999\n",
            "refused 1 at 3: the file is not 1 to 4096 spans of four numbers within 16777216\nrefused 2 at 0: the line is beyond 16777216\n",
        )
    }

    #[test]
    fn refused_questions(rt: HostRuntime) -> Result<(), Fail> {
        let heap = rt.alloc();
        refuses(
            &rt,
            heap,
            "5 0 0 0\nline 16777216\nline 16777217\nline -16777217\nabove 0\n",
            "refused 2 at 0: the line is beyond 16777216\nrefused 2 at 0: the line is beyond 16777216\nnone\n",
        )?;
        refuses(
            &rt,
            heap,
            "5 0 0 0\nheight 1024\nheight 1023\nheight -1\n",
            "refused 3 at 1024: the tick is not in the file\n5\nrefused 3 at -1: the tick is not in the file\n",
        )?;
        refuses(
            &rt,
            heap,
            "5 0 0 0\nabove 999999999999999999\nrise -999999999999999999\n",
            "refused 3 at 999999999999999999: the tick is not in the file\nrefused 3 at -999999999999999999: the tick is not in the file\n",
        )?;
        refuses(
            &rt,
            heap,
            "5 0 0 0\ntable 1\ntable -1\ntable 999999999999999999\n",
            "refused 3 at 1024: the tick is not in the file\nrefused 3 at -1024: the tick is not in the file\nrefused 3 at 1023999999999999998976: the tick is not in the file\n",
        )
    }

    // An unreadable question is refused at its line, and the run goes on.
    #[test]
    fn unreadable_questions(rt: HostRuntime) -> Result<(), Fail> {
        let heap = rt.alloc();
        for text in [
            "above",
            "above 1 2",
            "height 1.5",
            "height +5",
            "height 0x10",
            "height -",
            "height --5",
            "height 1234567890123456789",
            "Height 0",
            "spans 1",
            "line",
            "tables",
            "table 1 2",
            "rise x",
        ] {
            let mut whole = String::from_str(heap, "5 0 0 0\n")?;
            whole.push_str(text)?;
            whole.push_str("\nheight 0\n")?;
            refuses(
                &rt,
                heap,
                whole.as_str(),
                "refused 5 at 1: the text cannot be read\n5\n",
            )?;
        }
        Ok(())
    }

    // An unreadable line of numbers, or one behind a question, ends the run.
    #[test]
    fn unreadable_numbers(rt: HostRuntime) -> Result<(), Fail> {
        let heap = rt.alloc();
        for text in [
            "1.5 2 3 4",
            "1 2 3 x",
            "-",
            "--5 1 2 3",
            "1 +2 3 4",
            "0x10 0 0 0",
            "1,2,3,4",
            "1234567890123456789",
        ] {
            let mut whole = String::from_str(heap, "# a comment\n1 2 3 4\n")?;
            whole.push_str(text)?;
            whole.push_str("\nheight 0\n")?;
            refuses(
                &rt,
                heap,
                whole.as_str(),
                "refused 5 at 2: the text cannot be read\n",
            )?;
        }
        refuses(
            &rt,
            heap,
            "5 0 0 0\nheight 0\n1 2 3 4\nheight 0\n",
            "5\nrefused 5 at 2: the text cannot be read\n",
        )?;
        refuses(
            &rt,
            heap,
            "5 0 0 0\nwhat\n-1\nheight 0\n",
            "refused 5 at 1: the text cannot be read\nrefused 5 at 2: the text cannot be read\n",
        )
    }

    #[test]
    fn hostile_bytes(rt: HostRuntime) -> Result<(), Fail> {
        let heap = rt.alloc();
        says(
            &rt,
            heap,
            b"5 0 0 0\nheight \xff\nheight 0\n",
            "refused 5 at 1: the text cannot be read\n5\n",
            true,
        )?;
        says(
            &rt,
            heap,
            b"5 0 0 \x000\nheight 0\n",
            "refused 5 at 0: the text cannot be read\n",
            true,
        )?;
        says(
            &rt,
            heap,
            b"\xef\xbb\xbf5 0 0 0\nheight 0\n",
            "refused 5 at 0: the text cannot be read\nrefused 1 at 0: the file is not 1 to 4096 spans of four numbers within 16777216\n",
            true,
        )?;
        // a comment may hold any bytes
        says(
            &rt,
            heap,
            b"# \xff\xfe\x00\n5 0 0 0\nheight 0\n",
            "5\n",
            false,
        )
    }

    // A text of many marks, or of many numbers.
    fn many(heap: Global, part: &str, count: u64, end: &str) -> Result<Vec<u8>, Fail> {
        let mut text = Vec::new(heap);
        for _ in 0..count {
            text.extend_from_slice(part.as_bytes())?;
        }
        text.extend_from_slice(end.as_bytes())?;
        Ok(text)
    }

    #[test]
    fn long_texts(rt: HostRuntime) -> Result<(), Fail> {
        let heap = rt.alloc();
        says(
            &rt,
            heap,
            many(heap, "x", 1_000_000, "")?.as_slice(),
            "refused 5 at 0: the text cannot be read\n",
            true,
        )?;
        says(
            &rt,
            heap,
            many(heap, "7", 400, " 1 2 3\nheight 0\n")?.as_slice(),
            "refused 5 at 0: the text cannot be read\n",
            true,
        )?;
        says(
            &rt,
            heap,
            many(heap, "3 0 0 0\n", 4096, "height 4194303\n")?.as_slice(),
            "3\n",
            false,
        )?;
        says(
            &rt,
            heap,
            many(heap, "3 0 0 0\n", 4096, "9\nheight 0\n")?.as_slice(),
            "refused 1 at 16385: the file is not 1 to 4096 spans of four numbers within 16777216\n",
            true,
        )?;
        says(
            &rt,
            heap,
            many(heap, " ", 1_000_000, "5 0 0 0\nheight 0\n")?.as_slice(),
            "5\n",
            false,
        )
    }
}
