// What is wrong with a file, or with a buffer that is printed into.
ghost use Rattle.std.specs.Prelude.{◌≡◌};
ghost use Rattle.files.specs.Faults.{kind_number, print_number};

// Which rule of a file is broken, with its number.
#[derive(Clone, Copy, PartialEq, Eq, Debug)]
pub enum FileFaultKind {
    // A board that is over 32,768 bytes.
    BoardLength = 1,
    // A board that has not 1 to 64 lines, or whose last line is unended.
    BoardLines = 2,
    // A clock line of an unknown kind, or with the wrong number of words.
    ClockLine = 5,
    // A clock's name that is none, or that an earlier line has.
    ClockName = 6,
    // A parent that is the name of no earlier line.
    ClockParent = 7,
    // Any other word of a clock line that is out of its range.
    ClockWord = 8,
    // A line of a register list that is bad, missing, unended or one too many.
    RegisterLine = 9,
    // A line of a script that is malformed or unended.
    ScriptLine = 31,
}

impl FileFaultKind {
    // A fault of this kind at a byte place.
    pub fn at(self, place: usize) -> FileFault
        ensures { result ≡ record { kind = self; place = place } }
    {
        FileFault { kind: self, place }
    }
}

// What is wrong with a file, and the byte place at which it is.
#[derive(Clone, Copy, PartialEq, Eq, Debug)]
pub struct FileFault {
    pub kind: FileFaultKind,
    pub place: usize,
}

impl FileFault {
    // The number that is printed of it.
    pub fn number(self) -> u8
        ensures { result ≡ kind_number self.kind }
    {
        self.kind as u8
    }
}

// Why nothing is printed, with its number.
#[derive(Clone, Copy, PartialEq, Eq, Debug)]
pub enum PrintFault {
    // The buffer is too short for the text.
    ShortBuffer = 33,
}

impl PrintFault {
    // The number that is printed of it.
    pub fn number(self) -> u8
        ensures { result ≡ print_number self }
    {
        self as u8
    }
}
