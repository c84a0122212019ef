// Parts that are taken from a maker's sheet.
ghost use Rattle.std.specs.Prelude.{◌≡◌, true};
ghost use Rattle.part.specs.Lists.{listed};
ghost use Rattle.part.specs.Duties.{keeps_duties};
ghost use Rattle.sheet.specs.Sheets.{told};

use bank::Place;
use part::{Band, Marks, Row, ShortList};

// What a maker's sheet says of a clock. It may say anything.
#[derive(Clone, Copy)]
pub struct Sheet<'a> {
    pub number: u8,
    pub source: Option<u32>,
    pub rows: &'a [Row],
    pub field: Option<Place>,
    pub gate: Option<Place>,
    pub marks: Marks,
    pub band: Band,
}

// A part with up to 8 rows. It has the fields of a sheet, with rows of its own: a sheet that is generic in its rows is no plainer for
// who writes one.
#[derive(Clone, Copy)]
pub struct SheetPart {
    pub(crate) number: u8,
    pub(crate) source: Option<u32>,
    pub(crate) rows: ShortList<Row, 8>,
    pub(crate) field: Option<Place>,
    pub(crate) gate: Option<Place>,
    pub(crate) marks: Marks,
    pub(crate) band: Band,
    ghost keeps: { keeps_duties (told number source (listed rows) field gate marks band) ≡ true },
}
