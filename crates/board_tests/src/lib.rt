// Examples for board files: each way in which a line is bad, with its place, boards at their limits, what is read of each kind
// of line, and the word at a fault.
#![tactic(auto)]

#[cfg(test)]
mod list {
    use piece::Piece;

    // A list in which nothing is filled yet.
    pub fn blank() -> [Piece; 64] {
        [Piece::blank(); 64]
    }
}

#[cfg(test)]
mod faults {
    use crate::list::blank;
    use board::read_board;
    use std::process::Abort;
    use std::test::Fail;

    // Each text is refused with its number at its place.
    fn all_refused(rt: &impl Abort, table: &[(&[u8], u8, usize)]) -> Result<(), Fail> {
        let mut list = blank();
        for (text, number, place) in table {
            match read_board(text, &mut list) {
                Ok(_) => return Err(Fail::new("a bad board was read")),
                Err(fault) => {
                    assert_eq!(rt; fault.number(), *number);
                    assert_eq!(rt; fault.place, *place);
                }
            }
        }
        Ok(())
    }

    #[test]
    fn whole_files(rt: HostRuntime) -> Result<(), Fail> {
        all_refused(
            &rt,
            &[
                // no line at all, and an empty line
                (b"", 2, 0),
                (b"\n", 5, 0),
                // unended, also where an earlier line is bad
                (b"src x 5", 2, 0),
                (b"src x 5\nsrc y 5", 2, 0),
                (b"x\nsrc y 5", 2, 0),
                // the first line at fault is told
                (b"src x 5\nsrc y\nsrc Z 0\n", 5, 8),
                (b"src x 5\nsrc Y 5\nsrc\n", 6, 12),
                (b"src x 5\nsrc y 5\n\n", 5, 16),
            ],
        )
    }

    #[test]
    fn spaces(rt: HostRuntime) -> Result<(), Fail> {
        all_refused(
            &rt,
            &[
                // one behind the line, two in a row, one ahead
                (b"src x 5 \n", 5, 0),
                (b"src  5\n", 6, 4),
                (b" src x 5\n", 5, 0),
                (b"src x 5\nsrc y \n", 8, 14),
                (b"src x 5\ngate g  3 4 -\n", 7, 15),
                // a tab is none
                (b"src\tx\t5\n", 5, 0),
                // a CR belongs to the last word
                (b"src x 5\r\n", 8, 6),
                (b"src x 5\nmux m 1 8 2 plain ls x x\r\n", 7, 31),
                (b"src x 5\ngate g x 3 4 -\r\n", 8, 21),
            ],
        )
    }

    #[test]
    fn kinds_of_line(rt: HostRuntime) -> Result<(), Fail> {
        all_refused(
            &rt,
            &[
                // unknown
                (b"src x 5\nclk y 5\n", 5, 8),
                (b"src x 5\nSRC y 5\n", 5, 8),
                (b"src x 5\nsr y 5\n", 5, 8),
                (b"src x 5\nsrcs y 5\n", 5, 8),
                // one word too few, one too many
                (b"src x 5\nsrc\n", 5, 8),
                (b"src x 5\nsrc y\n", 5, 8),
                (b"src x 5\nsrc y 5 5\n", 5, 8),
                (b"src x 5\ngate g x 3 4\n", 5, 8),
                (b"src x 5\ngate g x 3 4 - -\n", 5, 8),
                (b"src x 5\nfix f x 2 3\n", 5, 8),
                (b"src x 5\nfix f x 2 3 l l\n", 5, 8),
                (b"src x 5\ndiv d x 1 0 8 zero\n", 5, 8),
                (b"src x 5\ndiv d x 1 0 8 zero s s\n", 5, 8),
                (b"src x 5\npll p x 2 0 8 6 - 100\n", 5, 8),
                (b"src x 5\npll p x 2 0 8 6 - 100 200 300\n", 5, 8),
                // no parent, and nine of them
                (b"src x 5\nmux m 1 8 4 plain ls\n", 5, 8),
                (b"src x 5\nmux m 1 8 4 plain ls x x x x x x x x x\n", 5, 8),
                // the number of words comes before what they say
                (b"src x 5\ngate X Z 64 32\n", 5, 8),
            ],
        )
    }

    #[test]
    fn names_of_clocks(rt: HostRuntime) -> Result<(), Fail> {
        all_refused(
            &rt,
            &[
                // no names: a capital, a sign, empty, 13 letters
                (b"src x 5\nsrc Y 5\n", 6, 12),
                (b"src x 5\nsrc y- 5\n", 6, 12),
                (b"src x 5\nsrc  5\n", 6, 12),
                (b"src abcdefghijklm 5\n", 6, 4),
                // a name that an earlier line has, at each kind of line
                (b"src x 5\nsrc x 5\n", 6, 12),
                (b"src x 5\ngate x x 3 4 -\n", 6, 13),
                (b"src x 5\nfix x x 2 3 l\n", 6, 12),
                (b"src x 5\ndiv x x 1 0 8 zero s\n", 6, 12),
                (b"src x 5\nmux x 1 8 2 plain ls x\n", 6, 12),
                (b"src x 5\npll x x 2 0 8 6 - 100 200\n", 6, 12),
                // the name comes before all other words
                (b"src x 5\nsrc X 0\n", 6, 12),
                (b"src x 5\ngate X z 64 32 no\n", 6, 13),
                (b"src x 5\nmux X 64 32 9 no no z\n", 6, 12),
                (b"src x 5\npll X z 64 32 0 0 no 0 0\n", 6, 12),
            ],
        )
    }

    #[test]
    fn parents_of_clocks(rt: HostRuntime) -> Result<(), Fail> {
        all_refused(
            &rt,
            &[
                // no clock, at each kind of line
                (b"src x 5\ngate g z 3 4 -\n", 7, 15),
                (b"src x 5\nfix f z 2 3 l\n", 7, 14),
                (b"src x 5\ndiv d z 1 0 8 zero s\n", 7, 14),
                (b"src x 5\nmux m 1 8 2 plain ls z\n", 7, 29),
                (b"src x 5\nmux m 1 8 2 plain ls x z x\n", 7, 31),
                (b"src x 5\nmux m 1 8 2 plain ls x x z\n", 7, 33),
                (b"src x 5\npll p z 2 0 8 6 - 100 200\n", 7, 14),
                // a part of a name, and no name at all
                (b"src x 5\ngate g xx 3 4 -\n", 7, 15),
                (b"src x 5\ngate g X 3 4 -\n", 7, 15),
                // its own line, and a later one
                (b"src x 5\ngate g g 3 4 -\n", 7, 15),
                (b"src x 5\nmux m 1 8 2 plain ls x m\n", 7, 31),
                (b"src x 5\ngate g h 3 4 -\nsrc h 5\n", 7, 15),
                // the parent comes before the numbers
                (b"src x 5\ngate g z 64 32 no\n", 7, 15),
                (b"src x 5\nfix f z 0 0 no\n", 7, 14),
                (b"src x 5\ndiv d z 64 32 0 no no\n", 7, 14),
                (b"src x 5\npll p z 64 32 0 0 no 0 0\n", 7, 14),
                // and behind the flags of a mux, but before the check of its width
                (b"src x 5\nmux m 1 8 2 plain no z\n", 8, 26),
                (b"src x 5\nmux m 1 8 1 plain ls x x z\n", 7, 33),
            ],
        )
    }

    #[test]
    fn words_of_sources_and_gates(rt: HostRuntime) -> Result<(), Fail> {
        all_refused(
            &rt,
            &[
                (b"src x 5\nsrc y 0\n", 8, 14),
                (b"src x 5\nsrc y 4294967296\n", 8, 14),
                (b"src x 5\nsrc y 05\n", 8, 14),
                (b"src x 5\nsrc y -5\n", 8, 14),
                (b"src x 5\nsrc y 5a\n", 8, 14),
                (b"src x 5\nsrc y z\n", 8, 14),
                // 18 digits, and 19
                (b"src x 5\nsrc y 100000000000000000\n", 8, 14),
                (b"src x 5\nsrc y 1000000000000000000\n", 8, 14),
                (b"src x 5\ngate g x 64 4 -\n", 8, 17),
                (b"src x 5\ngate g x x 4 -\n", 8, 17),
                (b"src x 5\ngate g x 3 32 -\n", 8, 19),
                (b"src x 5\ngate g x 3  -\n", 8, 19),
                (b"src x 5\ngate g x 3 4 sl\n", 8, 21),
                (b"src x 5\ngate g x 3 4 L\n", 8, 21),
                (b"src x 5\ngate g x 3 4 --\n", 8, 21),
                (b"src x 5\ngate g x 3 4 \n", 8, 21),
                // the first bad word of several
                (b"src x 5\ngate g x 64 32 no\n", 8, 17),
                (b"src x 5\ngate g x 3 32 no\n", 8, 19),
            ],
        )
    }

    #[test]
    fn words_of_ratios_and_dividers(rt: HostRuntime) -> Result<(), Fail> {
        all_refused(
            &rt,
            &[
                (b"src x 5\nfix f x 0 3 l\n", 8, 16),
                (b"src x 5\nfix f x 65536 3 l\n", 8, 16),
                (b"src x 5\nfix f x 2 0 l\n", 8, 18),
                (b"src x 5\nfix f x 2 65536 l\n", 8, 18),
                (b"src x 5\nfix f x 2 3 no\n", 8, 20),
                (b"src x 5\nfix f x 0 0 no\n", 8, 16),
                (b"src x 5\ndiv d x 64 0 8 zero s\n", 8, 16),
                (b"src x 5\ndiv d x 1 32 8 zero s\n", 8, 18),
                (b"src x 5\ndiv d x 1 0 0 zero s\n", 8, 20),
                (b"src x 5\ndiv d x 1 0 9 zero s\n", 8, 20),
                (b"src x 5\ndiv d x 1 0 8 two s\n", 8, 22),
                (b"src x 5\ndiv d x 1 0 8 plain s\n", 8, 22),
                (b"src x 5\ndiv d x 1 0 8 0 s\n", 8, 22),
                (b"src x 5\ndiv d x 1 0 8 zero no\n", 8, 27),
                (b"src x 5\ndiv d x 1 0 9 two no\n", 8, 20),
            ],
        )
    }

    #[test]
    fn words_of_muxes(rt: HostRuntime) -> Result<(), Fail> {
        all_refused(
            &rt,
            &[
                (b"src x 5\nmux m 64 8 2 plain ls x\n", 8, 14),
                (b"src x 5\nmux m 1 32 2 plain ls x\n", 8, 16),
                (b"src x 5\nmux m 1 8 0 plain ls x\n", 8, 18),
                (b"src x 5\nmux m 1 8 9 plain ls x\n", 8, 18),
                (b"src x 5\nmux m 1 8 2 zero ls x\n", 8, 20),
                (b"src x 5\nmux m 1 8 2 Plain ls x\n", 8, 20),
                (b"src x 5\nmux m 1 8 2 plain sl x\n", 8, 26),
                // a last parent whose value does not fit: 2, 4 and 7 of the plain ones, 2, 4 and 128 by bits
                (b"src x 5\nmux m 1 8 1 plain ls x x x\n", 8, 18),
                (b"src x 5\nmux m 1 8 2 plain ls x x x x x\n", 8, 18),
                (b"src x 5\nmux m 1 8 2 plain ls x x x x x x x x\n", 8, 18),
                (b"src x 5\nmux m 1 8 1 bit ls x x\n", 8, 18),
                (b"src x 5\nmux m 1 8 2 bit ls x x x\n", 8, 18),
                (b"src x 5\nmux m 1 8 7 bit ls x x x x x x x x\n", 8, 18),
            ],
        )
    }

    #[test]
    fn words_of_plls(rt: HostRuntime) -> Result<(), Fail> {
        all_refused(
            &rt,
            &[
                (b"src x 5\npll p x 64 0 8 6 - 100 200\n", 8, 16),
                (b"src x 5\npll p x 2 32 8 6 - 100 200\n", 8, 18),
                (b"src x 5\npll p x 2 0 0 6 - 100 200\n", 8, 20),
                (b"src x 5\npll p x 2 0 9 6 - 100 200\n", 8, 20),
                (b"src x 5\npll p x 2 0 8 0 - 100 200\n", 8, 22),
                (b"src x 5\npll p x 2 0 8 7 - 100 200\n", 8, 22),
                (b"src x 5\npll p x 2 0 8 6 no 100 200\n", 8, 24),
                (b"src x 5\npll p x 2 0 8 6 - 0 200\n", 8, 26),
                (b"src x 5\npll p x 2 0 8 6 - 4294967296 200\n", 8, 26),
                (b"src x 5\npll p x 2 0 8 6 - 100 0\n", 8, 30),
                (b"src x 5\npll p x 2 0 8 6 - 100 4294967296\n", 8, 30),
                // HI below LO
                (b"src x 5\npll p x 2 0 8 6 - 100 99\n", 8, 30),
                // the flags come before LO and HI
                (b"src x 5\npll p x 2 0 8 6 no 0 0\n", 8, 24),
            ],
        )
    }

    // 32,768 bytes are not too many.
    #[test]
    fn longest_file(rt: HostRuntime) -> Result<(), Fail> {
        let mut text = [b'a'; 32769];
        all_refused(&rt, &[(&text, 1, 0), (&text[0..32768], 2, 0)])?;
        text[32767] = b'\n';
        all_refused(&rt, &[(&text[0..32768], 5, 0), (&text, 1, 0)])
    }
}

#[cfg(test)]
mod limits {
    use crate::list::blank;
    use board::read_board;
    use files::{FileFault, FileFaultKind};
    use std::alloc::Global;
    use std::process::Abort;
    use std::test::Fail;

    // Each text is read, and has so many clocks.
    fn all_read(rt: &impl Abort, table: &[(&[u8], usize)]) {
        let mut list = blank();
        for (text, count) in table {
            assert_eq!(rt; read_board(text, &mut list), Ok(*count));
        }
    }

    #[test]
    fn names(rt: HostRuntime) {
        all_read(
            &rt,
            &[
                (b"src abcdefghijkl 5\n", 1),
                // digits alone, a `_` alone, and the words of the files themselves
                (b"src 123 5\nsrc _ 5\n", 2),
                (
                    b"src src 5\ngate gate src 0 0 -\nsrc mux 5\ngate pll mux 0 1 -\n",
                    4,
                ),
                // one name in front of another
                (b"src a 5\nsrc aa 5\ngate b aa 0 0 -\n", 3),
            ],
        );
    }

    #[test]
    fn numbers(rt: HostRuntime) {
        all_read(
            &rt,
            &[
                (b"src x 1\nsrc y 4294967295\n", 2),
                (b"src x 5\ngate g x 0 0 -\ngate h g 63 31 ls\n", 3),
                (b"src x 5\nfix f x 1 1 -\nfix g x 65535 65535 s\n", 3),
                (b"src x 5\ndiv d x 0 0 1 one -\ndiv e x 63 31 8 zero l\n", 3),
                (
                    b"src x 5\npll p x 0 0 1 1 - 1 1\npll q x 63 31 8 6 ls 1 4294967295\n",
                    3,
                ),
                (b"src x 5\npll p x 0 0 1 1 - 4294967295 4294967295\n", 2),
            ],
        );
    }

    #[test]
    fn muxes(rt: HostRuntime) {
        all_read(
            &rt,
            &[
                // one parent in one bit, and one parent twice
                (
                    b"src x 5\nmux m 0 0 1 plain - x\nmux n 63 31 1 bit - x\n",
                    3,
                ),
                (b"src x 5\nmux m 0 0 1 plain - x x\n", 2),
                // the last value just fits: 3 and 7, then 2, 4 and 128
                (b"src x 5\nmux m 0 0 2 plain - x x x x\n", 2),
                (b"src x 5\nmux m 0 0 3 plain - x x x x x x x x\n", 2),
                (b"src x 5\nmux m 0 0 2 bit - x x\n", 2),
                (b"src x 5\nmux m 0 0 3 bit - x x x\n", 2),
                (b"src x 5\nmux m 0 0 8 bit - x x x x x x x x\n", 2),
            ],
        );
    }

    // A board of so many sources, named by two digits each.
    fn sources(heap: Global, count: u8) -> Result<Vec<u8>, Fail> {
        let mut text = String::new(heap);
        for i in 0..count {
            write!(text, "src {i:02} 5\n")?;
        }
        Ok(text.into_bytes())
    }

    #[test]
    fn lines(rt: HostRuntime) -> Result<(), Fail> {
        let heap = rt.alloc();
        let mut list = blank();
        let most = sources(heap, 64)?;
        assert_eq!(rt; read_board(most.as_slice(), &mut list), Ok(64));
        let more = sources(heap, 65)?;
        assert_eq!(rt;
            read_board(more.as_slice(), &mut list),
            Err(FileFault {
                kind: FileFaultKind::BoardLines,
                place: 0,
            })
        );
        Ok(())
    }
}

#[cfg(test)]
mod pieces {
    use crate::list::blank;
    use bank::Place;
    use board::read_board;
    use files::{FileFault, FileFaultKind};
    use part::Marks;
    use piece::{DividerStyle, MuxStyle, Piece, PieceKind};
    use std::process::Abort;
    use std::test::Fail;
    use words::is_word;

    const BOARD: &[u8] =
        b"src x 24000000\nsrc y 5\ngate g y 3 4 -\nfix f g 2 7 l\ndiv d f 1 6 5 one s\nmux m 9 8 2 plain ls d x y\npll p m 10 11 7 4 l 100 200\nmux n 12 0 4 bit - p x\n";

    fn is_named(rt: &impl Abort, piece: &Piece, name: &[u8]) {
        assert!(rt; is_word(piece.name.as_bytes(), name));
    }

    // A list that holds that board.
    fn filled(rt: &impl Abort) -> [Piece; 64] {
        let mut list = blank();
        assert_eq!(rt; read_board(BOARD, &mut list), Ok(8));
        list
    }

    fn is_source(rt: &impl Abort, piece: &Piece, number: u8, rate: u32) -> Result<(), Fail> {
        let PieceKind::Src(p) = piece.kind else {
            return Err(Fail::new("no source"));
        };
        assert_eq!(rt; p.number, number);
        assert_eq!(rt; p.rate, rate);
        Ok(())
    }

    #[test]
    fn sources(rt: HostRuntime) -> Result<(), Fail> {
        let list = filled(&rt);
        is_named(&rt, &list[0], b"x");
        is_source(&rt, &list[0], 0, 24_000_000)?;
        is_named(&rt, &list[1], b"y");
        is_source(&rt, &list[1], 1, 5)?;
        // behind the last line the list is as it was
        is_named(&rt, &list[8], b"_");
        is_source(&rt, &list[8], 0, 1)?;
        is_named(&rt, &list[63], b"_");
        Ok(())
    }

    #[test]
    fn gates(rt: HostRuntime) -> Result<(), Fail> {
        let list = filled(&rt);
        let piece = &list[2];
        is_named(&rt, piece, b"g");
        let PieceKind::Gate(p) = piece.kind else {
            return Err(Fail::new("no gate"));
        };
        assert_eq!(rt; p.number, 2);
        assert_eq!(rt; p.parent, 1);
        assert_eq!(rt;
            p.bit,
            Place {
                register: 3,
                shift: 4,
                width: 1,
            }
        );
        assert_eq!(rt;
            p.marks,
            Marks {
                lift: false,
                still: false,
            }
        );
        Ok(())
    }

    #[test]
    fn ratios(rt: HostRuntime) -> Result<(), Fail> {
        let list = filled(&rt);
        let piece = &list[3];
        is_named(&rt, piece, b"f");
        let PieceKind::Fix(p) = piece.kind else {
            return Err(Fail::new("no ratio"));
        };
        assert_eq!(rt; p.number, 3);
        assert_eq!(rt; p.parent, 2);
        assert_eq!(rt; p.n, 2);
        assert_eq!(rt; p.d, 7);
        assert_eq!(rt;
            p.marks,
            Marks {
                lift: true,
                still: false,
            }
        );
        Ok(())
    }

    #[test]
    fn dividers(rt: HostRuntime) -> Result<(), Fail> {
        let list = filled(&rt);
        let piece = &list[4];
        is_named(&rt, piece, b"d");
        let PieceKind::Div(p) = piece.kind else {
            return Err(Fail::new("no divider"));
        };
        assert_eq!(rt; p.number, 4);
        assert_eq!(rt; p.parent, 3);
        assert_eq!(rt;
            p.field,
            Place {
                register: 1,
                shift: 6,
                width: 5,
            }
        );
        assert_eq!(rt; p.style, DividerStyle::One);
        assert_eq!(rt;
            p.marks,
            Marks {
                lift: false,
                still: true,
            }
        );
        Ok(())
    }

    #[test]
    fn muxes(rt: HostRuntime) -> Result<(), Fail> {
        let list = filled(&rt);
        let piece = &list[5];
        is_named(&rt, piece, b"m");
        let PieceKind::Mux(p) = piece.kind else {
            return Err(Fail::new("no mux"));
        };
        let parents = p.parents.as_slice();
        assert_eq!(rt; p.number, 5);
        assert_eq!(rt; parents.len(), 3);
        assert_eq!(rt; parents[0], 4);
        assert_eq!(rt; parents[1], 0);
        assert_eq!(rt; parents[2], 1);
        assert_eq!(rt;
            p.field,
            Place {
                register: 9,
                shift: 8,
                width: 2,
            }
        );
        assert_eq!(rt; p.style, MuxStyle::Plain);
        assert_eq!(rt;
            p.marks,
            Marks {
                lift: true,
                still: true,
            }
        );
        Ok(())
    }

    #[test]
    fn muxes_by_bits(rt: HostRuntime) -> Result<(), Fail> {
        let list = filled(&rt);
        let piece = &list[7];
        is_named(&rt, piece, b"n");
        let PieceKind::Mux(p) = piece.kind else {
            return Err(Fail::new("no mux"));
        };
        let parents = p.parents.as_slice();
        assert_eq!(rt; p.number, 7);
        assert_eq!(rt; parents.len(), 2);
        assert_eq!(rt; parents[0], 6);
        assert_eq!(rt; parents[1], 0);
        assert_eq!(rt; p.style, MuxStyle::Bit);
        Ok(())
    }

    #[test]
    fn plls(rt: HostRuntime) -> Result<(), Fail> {
        let list = filled(&rt);
        let piece = &list[6];
        is_named(&rt, piece, b"p");
        let PieceKind::Pll(p) = piece.kind else {
            return Err(Fail::new("no PLL"));
        };
        assert_eq!(rt; p.number, 6);
        assert_eq!(rt; p.parent, 5);
        assert_eq!(rt; p.register, 10);
        assert_eq!(rt; p.shift, 11);
        assert_eq!(rt; p.nw, 7);
        assert_eq!(rt; p.dw, 4);
        assert_eq!(rt; p.lo, 100);
        assert_eq!(rt; p.hi, 200);
        assert_eq!(rt;
            p.marks,
            Marks {
                lift: true,
                still: false,
            }
        );
        Ok(())
    }

    // The clocks of the lines before a fault stand in the list, and later places are untouched.
    #[test]
    fn up_to_a_fault(rt: HostRuntime) -> Result<(), Fail> {
        let mut list = filled(&rt);
        assert_eq!(rt;
            read_board(b"src a 7\ngate b z 0 0 -\nsrc c 9\n", &mut list),
            Err(FileFault {
                kind: FileFaultKind::ClockParent,
                place: 15,
            })
        );
        is_named(&rt, &list[0], b"a");
        is_source(&rt, &list[0], 0, 7)?;
        is_named(&rt, &list[1], b"y");
        is_source(&rt, &list[1], 1, 5)?;
        is_named(&rt, &list[2], b"g");
        // nothing is written where the file as a whole is bad
        assert_eq!(rt;
            read_board(b"src b 8", &mut list),
            Err(FileFault {
                kind: FileFaultKind::BoardLines,
                place: 0,
            })
        );
        is_named(&rt, &list[0], b"a");
        Ok(())
    }
}

#[cfg(test)]
mod words_at_faults {
    use files::{FileFault, FileFaultKind, word_at_fault};
    use std::process::Abort;
    use std::test::Fail;
    use words::is_word;

    const BOARD: &[u8] = b"src x 0\nsrc  5\nend";

    const SCRIPT: &[u8] = b"on x\noff";

    fn is_at(rt: &impl Abort, kind: FileFaultKind, place: usize, word: &[u8]) -> Result<(), Fail> {
        match word_at_fault(BOARD, SCRIPT, FileFault { kind, place }) {
            Some(found) => {
                assert!(rt; is_word(found, word));
                Ok(())
            },
            None => Err(Fail::new("no word")),
        }
    }

    fn is_nowhere(rt: &impl Abort, kind: FileFaultKind, place: usize) {
        assert!(rt; word_at_fault(BOARD, SCRIPT, FileFault { kind, place }).is_none());
    }

    #[test]
    fn in_the_board(rt: HostRuntime) -> Result<(), Fail> {
        is_at(&rt, FileFaultKind::BoardLength, 0, b"src")?;
        is_at(&rt, FileFaultKind::BoardLines, 0, b"src")?;
        is_at(&rt, FileFaultKind::ClockLine, 8, b"src")?;
        is_at(&rt, FileFaultKind::ClockName, 4, b"x")?;
        is_at(&rt, FileFaultKind::ClockParent, 13, b"5")?;
        is_at(&rt, FileFaultKind::ClockWord, 6, b"0")?;
        // from the middle of a word; at a space, at an LF and at the end there is an empty word
        is_at(&rt, FileFaultKind::ClockWord, 9, b"rc")?;
        is_at(&rt, FileFaultKind::ClockName, 12, b"")?;
        is_at(&rt, FileFaultKind::ClockWord, 7, b"")?;
        is_at(&rt, FileFaultKind::ClockLine, 15, b"end")?;
        is_at(&rt, FileFaultKind::ClockLine, 18, b"")?;
        is_nowhere(&rt, FileFaultKind::ClockLine, 19);
        Ok(())
    }

    #[test]
    fn in_the_script(rt: HostRuntime) -> Result<(), Fail> {
        is_at(&rt, FileFaultKind::ScriptLine, 0, b"on")?;
        is_at(&rt, FileFaultKind::ScriptLine, 3, b"x")?;
        is_at(&rt, FileFaultKind::ScriptLine, 4, b"")?;
        is_at(&rt, FileFaultKind::ScriptLine, 5, b"off")?;
        is_at(&rt, FileFaultKind::ScriptLine, 8, b"")?;
        is_nowhere(&rt, FileFaultKind::ScriptLine, 9);
        // a register list is neither
        is_nowhere(&rt, FileFaultKind::RegisterLine, 0);
        Ok(())
    }
}

#[cfg(test)]
mod listings {
    use listing::listing;
    use std::process::Abort;
    use std::test::Fail;

    // What is printed for a board.
    fn prints(rt: &(impl Abort + AllocGlobal), text: &[u8], printed: &[u8]) -> Result<(), Fail> {
        let out = listing(rt.alloc(), text)?;
        assert!(rt; out.as_slice() == printed);
        Ok(())
    }

    #[test]
    fn clocks(rt: HostRuntime) -> Result<(), Fail> {
        prints(
            &rt,
            b"src x 5\ngate g x 63 31 ls\n",
            b"0 x src rows 0 field - gate - marks - band 0 1099511627776\n1 g gate rows 1 field - gate 63 31 1 marks ls band 0 1099511627776\n",
        )
    }

    #[test]
    fn the_word_at_fault(rt: HostRuntime) -> Result<(), Fail> {
        // nothing is listed of the lines before the fault
        prints(&rt, b"src x 5\ngate g xx 3 0 l\n", b"no 7 15\nword xx\n")?;
        prints(&rt, b"src x 5\nclk y\n", b"no 5 8\nword clk\n")?;
        prints(&rt, b"src  5\n", b"no 6 4\nword \n")?;
        prints(&rt, b"src x 5", b"no 2 0\nword src\n")?;
        prints(&rt, b"", b"no 2 0\nword \n")
    }
}
