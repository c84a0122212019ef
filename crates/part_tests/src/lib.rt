// Examples for parts: how field values read for each kind of piece, rows at their edges, short lists, and sheets that keep or
// break a duty.
#![tactic(auto)]

ghost use Rattle.std.specs.Prelude.{◌≡◌};

use bank::Place;
use part::{Marks, ShortList};
use piece::{MuxPiece, MuxStyle};

// A mux, as a literal: the same parent stands in it twice.
pub(crate) fn mux(style: MuxStyle) -> MuxPiece {
    MuxPiece {
        parents: ShortList {
            places: [8, 0, 8, 0, 0, 0, 0, 0],
            len: 3,
        },
        number: 9,
        field: Place {
            register: 2,
            shift: 4,
            width: 3,
        },
        style,
        marks: Marks {
            lift: false,
            still: false,
        },
    }
}

#[cfg(test)]
mod pieces {
    use bank::{FieldValue, Place};
    use part::{Band, Marks, Part, Row, RowNumber, row_again, value_again};
    use piece::{
        DivPiece, DividerStyle, FixPiece, GatePiece, MuxPiece, MuxStyle, Piece, PieceKind,
        PllPiece, SrcPiece,
    };
    use std::process::Abort;
    use words::Name;

    fn place(width: u8) -> Place
        ensures { result.width ≡ width }
    {
        Place {
            register: 2,
            shift: 4,
            width,
        }
    }

    fn named(kind: PieceKind) -> Piece {
        Piece {
            name: Name::blank(),
            kind,
        }
    }

    fn marks(lift: bool, still: bool) -> Marks {
        Marks { lift, still }
    }

    // That a value names the row of a number, which has this ratio of this parent.
    fn reads(rt: &impl Abort, piece: &Piece, value: u32, at: u16, parent: u8, n: u16, d: u16) {
        let row = Row {
            value: FieldValue(value),
            parent,
            n,
            d,
        };
        assert_eq!(rt; piece.row_of(FieldValue(value)), Some(RowNumber(at)));
        assert_eq!(rt; piece.row(RowNumber(at)), Some(row));
        assert_eq!(rt; piece.reading(FieldValue(value)), Some(row));
        assert_eq!(rt; row_again(piece, RowNumber(at)), Some(RowNumber(at)));
        assert_eq!(rt;
            value_again(piece, FieldValue(value)),
            Some(FieldValue(value))
        );
    }

    fn reads_nothing(rt: &impl Abort, piece: &Piece, value: u32) {
        assert_eq!(rt; piece.row_of(FieldValue(value)), None);
        assert_eq!(rt; piece.reading(FieldValue(value)), None);
        assert_eq!(rt; value_again(piece, FieldValue(value)), None);
    }

    fn ends_at(rt: &impl Abort, piece: &Piece, count: u16) {
        assert_eq!(rt; piece.row_count(), count);
        assert_eq!(rt; piece.row(RowNumber(count)), None);
        assert_eq!(rt; piece.row(RowNumber(65535)), None);
        assert_eq!(rt; row_again(piece, RowNumber(count)), None);
    }

    #[test]
    fn a_source(rt: HostRuntime) {
        let piece = named(PieceKind::Src(SrcPiece {
            number: 7,
            rate: 4294967295,
        }));
        assert_eq!(rt; piece.number(), 7);
        assert_eq!(rt; piece.source_rate(), Some(4294967295));
        ends_at(&rt, &piece, 0);
        reads_nothing(&rt, &piece, 0);
        assert_eq!(rt; piece.rate_field(), None);
        assert_eq!(rt; piece.gate_bit(), None);
        assert!(rt; !piece.lift() && !piece.still());
        assert_eq!(rt;
            piece.band(),
            Band {
                lo: 0,
                hi: 1099511627776,
            }
        );
    }

    #[test]
    fn a_gate_and_a_fixed_ratio(rt: HostRuntime) {
        let gate = named(PieceKind::Gate(GatePiece {
            number: 3,
            parent: 2,
            bit: place(1),
            marks: marks(true, false),
        }));
        reads(&rt, &gate, 0, 0, 2, 1, 1);
        reads_nothing(&rt, &gate, 1);
        ends_at(&rt, &gate, 1);
        assert_eq!(rt; gate.gate_bit(), Some(place(1)));
        assert_eq!(rt; gate.rate_field(), None);
        assert!(rt; gate.lift() && !gate.still());
        let fixed = named(PieceKind::Fix(FixPiece {
            number: 3,
            parent: 0,
            n: 65535,
            d: 2,
            marks: marks(false, true),
        }));
        reads(&rt, &fixed, 0, 0, 0, 65535, 2);
        ends_at(&rt, &fixed, 1);
        assert_eq!(rt; fixed.gate_bit(), None);
        assert!(rt; !fixed.lift() && fixed.still());
        assert_eq!(rt; fixed.source_rate(), None);
    }

    fn divider(rt: &impl Abort, width: u8, style: DividerStyle) -> Piece {
        assert!(rt; 1 <= width && width <= 8);
        named(PieceKind::Div(DivPiece {
            number: 5,
            parent: 4,
            field: place(width),
            style,
            marks: marks(true, true),
        }))
    }

    #[test]
    fn dividers(rt: HostRuntime) {
        // zero: 0 divides by 1, the last value by 2^width; one: 0 has no row, the last value divides by itself
        let zero = divider(&rt, 4, DividerStyle::Zero);
        reads(&rt, &zero, 0, 0, 4, 1, 1);
        reads(&rt, &zero, 15, 15, 4, 1, 16);
        reads_nothing(&rt, &zero, 16);
        ends_at(&rt, &zero, 16);
        ends_at(&rt, &divider(&rt, 8, DividerStyle::Zero), 256);
        let one = divider(&rt, 4, DividerStyle::One);
        reads_nothing(&rt, &one, 0);
        reads(&rt, &one, 1, 0, 4, 1, 1);
        reads(&rt, &one, 15, 14, 4, 1, 15);
        reads_nothing(&rt, &one, 16);
        ends_at(&rt, &one, 15);
        // a single bit of style one has a single row
        let single = divider(&rt, 1, DividerStyle::One);
        reads(&rt, &single, 1, 0, 4, 1, 1);
        ends_at(&rt, &single, 1);
        assert_eq!(rt; single.rate_field(), Some(place(1)));
    }

    #[test]
    fn muxes(rt: HostRuntime) {
        // the same parent may stand twice
        let plain = named(PieceKind::Mux(crate::mux(MuxStyle::Plain)));
        reads(&rt, &plain, 0, 0, 8, 1, 1);
        reads(&rt, &plain, 1, 1, 0, 1, 1);
        reads(&rt, &plain, 2, 2, 8, 1, 1);
        reads_nothing(&rt, &plain, 3);
        ends_at(&rt, &plain, 3);
        let bit = named(PieceKind::Mux(crate::mux(MuxStyle::Bit)));
        reads_nothing(&rt, &bit, 0);
        reads(&rt, &bit, 1, 0, 8, 1, 1);
        reads(&rt, &bit, 2, 1, 0, 1, 1);
        reads_nothing(&rt, &bit, 3);
        reads(&rt, &bit, 4, 2, 8, 1, 1);
        reads_nothing(&rt, &bit, 8);
        ends_at(&rt, &bit, 3);
    }

    #[test]
    fn plls(rt: HostRuntime) {
        let full = named(PieceKind::Pll(PllPiece {
            number: 2,
            parent: 0,
            register: 1,
            shift: 3,
            nw: 8,
            dw: 6,
            marks: marks(true, false),
            lo: 400000000,
            hi: 1000000000,
        }));
        // 255 times 63 rows; N or D of 0 has none
        ends_at(&rt, &full, 16065);
        reads(&rt, &full, 65, 0, 0, 1, 1);
        reads(&rt, &full, 127, 62, 0, 1, 63);
        reads_nothing(&rt, &full, 128);
        reads(&rt, &full, 129, 63, 0, 2, 1);
        reads(&rt, &full, 1601, 1512, 0, 25, 1);
        reads(&rt, &full, 16383, 16064, 0, 255, 63);
        reads_nothing(&rt, &full, 0);
        reads_nothing(&rt, &full, 63);
        reads_nothing(&rt, &full, 64);
        reads_nothing(&rt, &full, 16384 + 65);
        assert_eq!(rt;
            full.rate_field(),
            Some(Place {
                register: 1,
                shift: 3,
                width: 14,
            })
        );
        assert_eq!(rt;
            full.band(),
            Band {
                lo: 400000000,
                hi: 1000000000,
            }
        );
    }

    #[test]
    fn the_smallest_pll(rt: HostRuntime) {
        let small = named(PieceKind::Pll(PllPiece {
            number: 1,
            parent: 0,
            register: 0,
            shift: 0,
            nw: 1,
            dw: 1,
            marks: marks(false, false),
            lo: 1,
            hi: 1,
        }));
        ends_at(&rt, &small, 1);
        reads(&rt, &small, 3, 0, 0, 1, 1);
        reads_nothing(&rt, &small, 1);
        reads_nothing(&rt, &small, 2);
    }
}

#[cfg(test)]
mod short_lists {
    use part::{Full, ShortList};

    #[test]
    fn values_up_to_the_room(rt: HostRuntime) {
        let mut list: ShortList<u8, 2> = ShortList::empty(9);
        assert_eq!(rt; list.len(), 0);
        assert_eq!(rt; list.push(7), Ok(()));
        assert_eq!(rt; list.push(0), Ok(()));
        // a full list refuses one more, and stays as it was
        assert_eq!(rt; list.push(5), Err(Full));
        assert_eq!(rt; list.len(), 2);
        assert!(rt; list.as_slice() == [7, 0].as_slice());
    }

    #[test]
    fn values_of_a_slice(rt: HostRuntime) {
        let most: Option<ShortList<u8, 2>> = ShortList::from_slice(9, &[7, 0]);
        assert!(rt; most.is_some_and(|list| list.as_slice() == [7, 0].as_slice()));
        let less: Option<ShortList<u8, 2>> = ShortList::from_slice(9, &[7]);
        assert!(rt; less.is_some_and(|list| list.as_slice() == [7].as_slice()));
        let more: Option<ShortList<u8, 2>> = ShortList::from_slice(9, &[7, 0, 5]);
        assert!(rt; more.is_none());
    }
}

#[cfg(test)]
mod sheets {
    use bank::{FieldValue, Place};
    use part::{Band, Marks, Part, PartFault, Row, RowNumber};
    use sheet::{Sheet, SheetPart};
    use std::array;
    use std::process::Abort;
    use std::test::Fail;

    fn row(value: u32, parent: u8, n: u16, d: u16) -> Row {
        Row {
            value: FieldValue(value),
            parent,
            n,
            d,
        }
    }

    fn place(width: u8) -> Place {
        Place {
            register: 200,
            shift: 40,
            width,
        }
    }

    // A sheet with a rate field of 4 bits and these rows.
    fn sheet(rows: &[Row]) -> Sheet<'_> {
        Sheet {
            number: 6,
            source: None,
            rows,
            field: Some(place(4)),
            gate: Some(place(1)),
            marks: Marks {
                lift: true,
                still: true,
            },
            band: Band {
                lo: 5,
                hi: 1099511627776,
            },
        }
    }

    fn source(rate: u32) -> Sheet<'static> {
        Sheet {
            number: 0,
            source: Some(rate),
            rows: &[],
            field: None,
            gate: None,
            marks: Marks {
                lift: false,
                still: false,
            },
            band: Band { lo: 0, hi: 0 },
        }
    }

    fn kept(sheet: Sheet) -> Result<(), Fail> {
        match SheetPart::from_sheet(&sheet) {
            Ok(_) => Ok(()),
            Err(_) => Err(Fail::new("a good sheet was refused")),
        }
    }

    // That a sheet is refused with 10, and a place that it was to fill keeps its part.
    fn broken(rt: &impl Abort, sheet: Sheet) -> Result<(), Fail> {
        let Ok(mut slot) = SheetPart::from_sheet(&source(77)) else {
            return Err(Fail::new("a good source was refused"));
        };
        assert_eq!(rt; slot.fill(&sheet), Err(PartFault::BrokenDuty));
        assert_eq!(rt; slot.source_rate(), Some(77));
        assert_eq!(rt; slot.row_count(), 0);
        assert_eq!(rt; PartFault::BrokenDuty.number(), 10);
        Ok(())
    }

    #[test]
    fn a_sheet_is_answered_as_it_stands(rt: HostRuntime) -> Result<(), Fail> {
        let rows = [row(3, 5, 65535, 1), row(15, 0, 1, 65535)];
        let Ok(mut slot) = SheetPart::from_sheet(&source(1)) else {
            return Err(Fail::new("a good source was refused"));
        };
        assert_eq!(rt; slot.fill(&sheet(&rows)), Ok(()));
        assert_eq!(rt; slot.number(), 6);
        assert_eq!(rt; slot.source_rate(), None);
        assert_eq!(rt; slot.row_count(), 2);
        assert_eq!(rt; slot.row(RowNumber(1)), Some(row(15, 0, 1, 65535)));
        assert_eq!(rt; slot.row(RowNumber(2)), None);
        assert_eq!(rt; slot.row_of(FieldValue(3)), Some(RowNumber(0)));
        assert_eq!(rt; slot.row_of(FieldValue(15)), Some(RowNumber(1)));
        assert_eq!(rt; slot.row_of(FieldValue(0)), None);
        assert_eq!(rt; slot.rate_field(), Some(place(4)));
        assert_eq!(rt; slot.gate_bit(), Some(place(1)));
        assert!(rt; slot.lift() && slot.still());
        assert_eq!(rt; slot.band().lo, 5);
        assert_eq!(rt; slot.band().hi, 1099511627776);
        Ok(())
    }

    // That a sheet with these rows is refused.
    fn bad_rows(rt: &impl Abort, rows: &[Row]) -> Result<(), Fail> {
        broken(rt, sheet(rows))
    }

    #[test]
    fn rows_that_break_a_duty(rt: HostRuntime) -> Result<(), Fail> {
        bad_rows(&rt, &[])?;
        // a multiplier or divisor of 0, a parent that is not below, values that fall, repeat or don't fit
        bad_rows(&rt, &[row(0, 0, 0, 1)])?;
        bad_rows(&rt, &[row(0, 0, 1, 0)])?;
        bad_rows(&rt, &[row(0, 6, 1, 1)])?;
        bad_rows(&rt, &[row(0, 0, 1, 1), row(1, 7, 1, 1)])?;
        bad_rows(&rt, &[row(2, 0, 1, 1), row(1, 0, 1, 1)])?;
        bad_rows(&rt, &[row(2, 0, 1, 1), row(2, 1, 1, 1)])?;
        bad_rows(&rt, &[row(0, 0, 1, 1), row(16, 0, 1, 1)])?;
        let good = [row(0, 5, 1, 1), row(15, 0, 1, 1)];
        kept(sheet(&good))
    }

    // Rows with the values from 0 on.
    fn rising() -> [Row; 9] {
        array::from_fn(|i| row(i as u32, 0, 1, 1))
    }

    #[test]
    fn at_most_eight_rows(rt: HostRuntime) -> Result<(), Fail> {
        let rows = rising();
        kept(sheet(&rows[0..1]))?;
        kept(sheet(&rows[0..8]))?;
        broken(&rt, sheet(&rows[0..9]))
    }

    #[test]
    fn sources_and_places(rt: HostRuntime) -> Result<(), Fail> {
        kept(source(1))?;
        kept(source(4294967295))?;
        broken(&rt, source(0))?;
        let mut bad = source(5);
        bad.gate = Some(place(1));
        broken(&rt, bad)?;
        bad = source(5);
        bad.field = Some(place(4));
        broken(&rt, bad)?;
        bad = source(5);
        bad.marks.lift = true;
        broken(&rt, bad)?;
        bad = source(5);
        bad.marks.still = true;
        broken(&rt, bad)?;
        bad = source(5);
        let one = [row(0, 0, 1, 1)];
        let with_a_row = Sheet {
            number: 1,
            source: Some(5),
            rows: &one,
            field: None,
            gate: None,
            marks: bad.marks,
            band: bad.band,
        };
        broken(&rt, with_a_row)
    }

    #[test]
    fn parts_without_a_rate_field(rt: HostRuntime) -> Result<(), Fail> {
        let one = [row(0, 0, 1, 1)];
        let other = [row(1, 0, 1, 1)];
        let two = [row(0, 0, 1, 1), row(1, 0, 1, 1)];
        let mut bare = sheet(&one);
        bare.field = None;
        kept(bare)?;
        bare = sheet(&other);
        bare.field = None;
        broken(&rt, bare)?;
        bare = sheet(&two);
        bare.field = None;
        broken(&rt, bare)
    }

    #[test]
    fn widths_and_bands(rt: HostRuntime) -> Result<(), Fail> {
        let rows = [row(0, 0, 1, 1), row(4294967295, 0, 1, 1)];
        // a rate field of 32 bits or more takes every value; one of 0 bits takes only 0
        let mut wide = sheet(&rows);
        wide.field = Some(place(32));
        kept(wide)?;
        wide.field = Some(place(255));
        kept(wide)?;
        wide.field = Some(place(31));
        broken(&rt, wide)?;
        let mut narrow = sheet(&rows[0..1]);
        narrow.field = Some(place(0));
        kept(narrow)?;
        // a gate bit has width 1
        narrow.gate = Some(place(2));
        broken(&rt, narrow)?;
        narrow.gate = Some(place(0));
        broken(&rt, narrow)?;
        narrow.gate = None;
        kept(narrow)?;
        // a band has its ends in order, and ends at 2^40
        narrow.band = Band { lo: 7, hi: 7 };
        kept(narrow)?;
        narrow.band = Band { lo: 8, hi: 7 };
        broken(&rt, narrow)?;
        narrow.band = Band {
            lo: 0,
            hi: 1099511627777,
        };
        broken(&rt, narrow)
    }
}
