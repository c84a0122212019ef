// Examples for the text files: register lists at each way to be bad, numbers and names at their edges, printing into a lent
// buffer, and whole runs.
#![tactic(auto)]

#[cfg(test)]
mod registers {
    use files::{FileFault, FileFaultKind, ReadFault, RegisterList, read_registers};
    use std::alloc::Global;
    use std::process::Abort;
    use std::test::Fail;

    // The place of the fault in a text that is no register list.
    fn bad_at(rt: &impl Abort, heap: Global, text: &[u8], place: usize) -> Result<(), Fail> {
        match read_registers(heap, text) {
            Ok(_) => Err(Fail::new("a bad list was read")),
            Err(fault) => {
                assert_eq!(rt;
                    fault,
                    ReadFault::File(FileFault {
                        kind: FileFaultKind::RegisterLine,
                        place,
                    })
                );
                Ok(())
            },
        }
    }

    #[test]
    fn bad_first_lines(rt: HostRuntime) -> Result<(), Fail> {
        let heap = rt.alloc();
        // missing, unended, unknown, empty, with a space, with a CR, in capitals
        bad_at(&rt, heap, b"", 0)?;
        bad_at(&rt, heap, b"word", 0)?;
        bad_at(&rt, heap, b"words\n", 0)?;
        bad_at(&rt, heap, b"\n", 0)?;
        bad_at(&rt, heap, b"word \n", 0)?;
        bad_at(&rt, heap, b" mask\n", 0)?;
        bad_at(&rt, heap, b"word\r\n", 0)?;
        bad_at(&rt, heap, b"Word\n", 0)?;
        bad_at(&rt, heap, b"00000000\n", 0)
    }

    #[test]
    fn bad_word_lines(rt: HostRuntime) -> Result<(), Fail> {
        let heap = rt.alloc();
        // too short, too long, a capital, no digit, empty, a space behind, a CR behind, unended though good, the second one bad
        bad_at(&rt, heap, b"word\n0000000\n", 5)?;
        bad_at(&rt, heap, b"word\n000000000\n", 5)?;
        bad_at(&rt, heap, b"word\n0000000A\n", 5)?;
        bad_at(&rt, heap, b"word\n0000000g\n", 5)?;
        bad_at(&rt, heap, b"word\n\n", 5)?;
        bad_at(&rt, heap, b"word\n00000000 \n", 5)?;
        bad_at(&rt, heap, b"word\n00000000\r\n", 5)?;
        bad_at(&rt, heap, b"word\n00000000", 5)?;
        bad_at(&rt, heap, b"word\n00000000\n0x000000\n", 14)?;
        // a mask list has 16 bits
        bad_at(&rt, heap, b"mask\n0000ffff\n00010000\n", 14)?;
        bad_at(&rt, heap, b"mask\n80000000\n", 5)
    }

    // A list with `count` words of 0.
    fn zeros(heap: Global, count: usize) -> Result<Vec<u8>, Fail> {
        let mut text = Vec::new(heap);
        text.extend_from_slice(b"mask\n")?;
        for _ in 0..count {
            text.extend_from_slice(b"00000000\n")?;
        }
        Ok(text)
    }

    #[test]
    fn at_most_64_words(rt: HostRuntime) -> Result<(), Fail> {
        let heap = rt.alloc();
        let most = zeros(heap, 64)?;
        match read_registers(heap, most.as_slice()) {
            Ok(RegisterList::MaskList(words)) => assert_eq!(rt; words.len(), 64),
            _ => return Err(Fail::new("no mask list")),
        }
        // the 65th is one too many, also where it is bad or unended
        let mut more = zeros(heap, 65)?;
        bad_at(&rt, heap, more.as_slice(), 581)?;
        more.truncate(582);
        bad_at(&rt, heap, more.as_slice(), 581)
    }

    #[test]
    fn good_lists(rt: HostRuntime) -> Result<(), Fail> {
        match read_registers(rt.alloc(), b"word\n") {
            Ok(RegisterList::WordList(words)) => assert_eq!(rt; words.len(), 0),
            _ => return Err(Fail::new("no word list")),
        }
        match read_registers(rt.alloc(), b"word\n80000641\nffffffff\n") {
            Ok(RegisterList::WordList(words)) => {
                assert!(rt; words.len() == 2);
                assert_eq!(rt; words[0], 0x8000_0641);
                assert_eq!(rt; words[1], 0xffff_ffff);
            }
            _ => return Err(Fail::new("no word list")),
        }
        match read_registers(rt.alloc(), b"mask\n0000ffff\n") {
            Ok(RegisterList::MaskList(words)) => {
                assert!(rt; words.len() == 1);
                assert_eq!(rt; words[0], 0xffff);
                Ok(())
            }
            _ => Err(Fail::new("no mask list")),
        }
    }
}

#[cfg(test)]
mod line_words {
    use std::process::Abort;
    use words::{Line, Lines, hex_word, is_name, is_word, number};

    #[test]
    fn numbers(rt: HostRuntime) {
        assert_eq!(rt; number(b"0"), Some(0));
        assert_eq!(rt;
            number(b"999999999999999999"),
            Some(999_999_999_999_999_999)
        );
        assert_eq!(rt; number(b"1000000000000000000"), None);
        assert_eq!(rt; number(b""), None);
        assert_eq!(rt; number(b"00"), None);
        assert_eq!(rt; number(b"01"), None);
        assert_eq!(rt; number(b"+1"), None);
        assert_eq!(rt; number(b"1a"), None);
        assert_eq!(rt; hex_word(b"00c0ffee"), Some(0x00c0_ffee));
        assert_eq!(rt; hex_word(b"00C0ffee"), None);
        assert_eq!(rt; hex_word(b"0c0ffee"), None);
    }

    #[test]
    fn names(rt: HostRuntime) {
        assert!(rt; is_name(b"a"));
        assert!(rt; is_name(b"_0z"));
        assert!(rt; is_name(b"abcdefghijkl"));
        assert!(rt; !is_name(b"abcdefghijklm"));
        assert!(rt; !is_name(b""));
        assert!(rt; !is_name(b"A"));
        assert!(rt; !is_name(b"a-b"));
        assert!(rt; is_word(b"mask", b"mask"));
        assert!(rt; !is_word(b"mas", b"mask"));
        assert!(rt; !is_word(b"mask ", b"mask"));
    }

    // Each word of each line by its place, and how many words there are.
    fn words_at(rt: &impl Abort, text: &[u8], places: &[usize]) {
        let mut expected = places.iter();
        for line in Lines::of(text) {
            for word in line.words() {
                assert_eq!(rt; Some(&word.place), expected.next());
            }
        }
        assert_eq!(rt; expected.next(), None);
    }

    #[test]
    fn places_of_words(rt: HostRuntime) {
        words_at(&rt, b"ab c\nd\n", &[0, 3, 5]);
        // two spaces in a row, and one at the end, make empty words
        words_at(&rt, b"a  b \n", &[0, 2, 3, 5]);
        // an empty line has one empty word; what stands behind the last LF is a line
        words_at(&rt, b"\n\nx", &[0, 1, 2]);
        words_at(&rt, b"", &[]);
    }

    // The first line of a text, with another place.
    fn moved(text: &[u8], place: usize) -> Option<Line<'_>> {
        let mut line = Lines::of(text).next()?;
        line.place = place;
        Some(line)
    }

    #[test]
    fn lines_that_are_moved(rt: HostRuntime) {
        // a line is what stands from its place on; behind the text's end it is empty, wherever it is put
        assert!(rt; moved(b"ab cd\n", 3).is_some_and(|line| line.bytes() == b"cd".as_slice()));
        let far = moved(b"ab cd\n", 18446744073709551615);
        assert!(rt; far.is_some_and(|line| line.bytes().is_empty()));
        assert_eq!(rt;
            far.and_then(|line| line.words().next())
                .map(|word| word.place),
            Some(18446744073709551615)
        );
    }
}

#[cfg(test)]
mod printing {
    use bank::{Entry, FieldValue, Place};
    use files::{
        FileFault, FileFaultKind, Make, PrintFault, ShortText, no_at_line, no_line, number_text,
        ok_line, print_registers, write_line,
    };
    use std::process::Abort;
    use words::is_word;

    // Prints into a buffer with room to spare, into one that has just room, and into one that is too short and stays as it was.
    fn prints(rt: &impl Abort, text: &ShortText, expected: &[u8]) {
        let len = expected.len();
        assert!(rt; len > 1 && len < 40);
        assert!(rt; is_word(text.as_bytes(), expected));
        let mut out = [b'.'; 40];
        assert_eq!(rt; text.print(&mut out), Ok(len));
        assert!(rt; is_word(&out[0..len], expected));
        assert_eq!(rt; out[len], b'.');
        assert_eq!(rt; text.print(&mut out[0..len]), Ok(len));
        let mut short = [b'.'; 1];
        assert_eq!(rt; text.print(&mut short), Err(PrintFault::ShortBuffer));
        assert_eq!(rt; short[0], b'.');
    }

    #[test]
    fn lines(rt: HostRuntime) {
        let widest = Entry {
            place: Place {
                register: 255,
                shift: 255,
                width: 255,
            },
            value: FieldValue(4_294_967_295),
        };
        prints(&rt, &write_line(widest), b"w 255 255 255 4294967295\n");
        prints(&rt, &ok_line(), b"ok\n");
        prints(&rt, &no_line(41), b"no 41\n");
        prints(&rt, &no_line(0), b"no 0\n");
        prints(&rt, &number_text(10), b"10");
        prints(
            &rt,
            &number_text(18446744073709551615),
            b"18446744073709551615",
        );
        prints(&rt, &no_at_line(9, 581), b"no 9 581\n");
        prints(
            &rt,
            &no_at_line(31, 18_446_744_073_709_551_615),
            b"no 31 18446744073709551615\n",
        );
    }

    #[test]
    fn register_lists(rt: HostRuntime) {
        let mut out = [b'.'; 24];
        assert_eq!(rt;
            print_registers(Make::Word, &[0x641, 0xdead_beef], &mut out),
            Ok(23)
        );
        assert!(rt; is_word(&out, b"word\n00000641\ndeadbeef\n."));
        assert_eq!(rt;
            print_registers(Make::Mask, &[1, 2], &mut out[0..22]),
            Err(PrintFault::ShortBuffer)
        );
        assert!(rt; is_word(&out, b"word\n00000641\ndeadbeef\n."));
        assert_eq!(rt; print_registers(Make::Mask, &[], &mut out[0..5]), Ok(5));
        assert!(rt; is_word(&out, b"mask\n00000641\ndeadbeef\n."));
        assert_eq!(rt;
            print_registers(Make::Mask, &[], &mut out[0..4]),
            Err(PrintFault::ShortBuffer)
        );
    }

    #[test]
    fn numbers_of_faults(rt: HostRuntime) {
        let list = FileFault {
            kind: FileFaultKind::RegisterLine,
            place: 0,
        };
        let script = FileFault {
            kind: FileFaultKind::ScriptLine,
            place: 0,
        };
        assert_eq!(rt; list.number(), 9);
        assert_eq!(rt; script.number(), 31);
        assert_eq!(rt; PrintFault::ShortBuffer.number(), 33);
    }
}

#[cfg(test)]
mod runs {
    use replay::transcript;
    use std::alloc::Global;
    use std::process::Abort;
    use std::test::Fail;
    use words::is_word;

    // What is printed for a register list and a script.
    fn prints(
        rt: &impl Abort,
        heap: Global,
        registers: &[u8],
        script: &[u8],
        expected: &[u8],
    ) -> Result<(), Fail> {
        let printed = transcript(heap, registers, script)?;
        assert!(rt; is_word(printed.as_slice(), expected));
        Ok(())
    }

    #[test]
    fn faults_end_the_run(rt: HostRuntime) -> Result<(), Fail> {
        let heap = rt.alloc();
        prints(&rt, heap, b"word\n0\n", b"w 0 0 1 1\n", b"no 9 5\n")?;
        // a fault in the list comes before one in the script
        prints(&rt, heap, b"", b"x\n", b"no 9 0\n")?;
        // the lines before the fault are played, and no register list follows
        prints(
            &rt,
            heap,
            b"word\n00000000\n",
            b"w 0 0 1 1\nw 0 0 1 1",
            b"w 0 0 1 1\nok\nno 31 10\n",
        )?;
        prints(
            &rt,
            heap,
            b"word\n00000000\n",
            b"w 0 9 24 0\n\n",
            b"w 0 9 24 0\nno 41\nno 31 11\n",
        )
    }

    #[test]
    fn malformed_lines(rt: HostRuntime) -> Result<(), Fail> {
        let heap = rt.alloc();
        // words: too few, too many, another kind, empty ones
        prints(&rt, heap, b"word\n", b"w 0 0 1\n", b"no 31 0\n")?;
        prints(&rt, heap, b"word\n", b"w 0 0 1 1 1\n", b"no 31 0\n")?;
        prints(&rt, heap, b"word\n", b"r 0 0 1 1\n", b"no 31 0\n")?;
        prints(&rt, heap, b"word\n", b"w 0 0 1 1 \n", b"no 31 0\n")?;
        prints(&rt, heap, b"word\n", b"w  0 0 1 1\n", b"no 31 0\n")?;
        // numbers: over 255, over 32 bits, a leading zero, a sign, a CR
        prints(&rt, heap, b"word\n", b"w 256 0 1 1\n", b"no 31 0\n")?;
        prints(&rt, heap, b"word\n", b"w 0 256 1 1\n", b"no 31 0\n")?;
        prints(&rt, heap, b"word\n", b"w 0 0 256 1\n", b"no 31 0\n")?;
        prints(&rt, heap, b"word\n", b"w 0 0 1 4294967296\n", b"no 31 0\n")?;
        prints(&rt, heap, b"word\n", b"w 0 0 1 01\n", b"no 31 0\n")?;
        prints(&rt, heap, b"word\n", b"w 0 0 1 -1\n", b"no 31 0\n")?;
        prints(&rt, heap, b"word\n", b"w 0 0 1 1\r\n", b"no 31 0\n")
    }

    #[test]
    fn word_and_mask_banks(rt: HostRuntime) -> Result<(), Fail> {
        let heap = rt.alloc();
        let script = b"w 0 12 5 17\nw 0 255 255 4294967295\n";
        prints(
            &rt,
            heap,
            b"word\n00000001\n",
            script,
            b"w 0 12 5 17\nok\nw 0 255 255 4294967295\nno 41\nword\n00011001\n",
        )?;
        prints(
            &rt,
            heap,
            b"mask\n00000001\n",
            script,
            b"w 0 12 5 17\nno 41\nw 0 255 255 4294967295\nno 41\nmask\n00000001\n",
        )?;
        prints(&rt, heap, b"mask\n", b"", b"mask\n")
    }
}
