// Why a part is refused.
ghost use Rattle.std.specs.Prelude.{◌≡◌};
ghost use Rattle.part.specs.Faults.{part_number};

// Each refusal with its number.
#[derive(Clone, Copy, PartialEq, Eq, Debug)]
pub enum PartFault {
    // It breaks a duty of every part, or has more rows than it has room for.
    BrokenDuty = 10,
}

impl PartFault {
    pub fn number(self) -> u8
        ensures { result ≡ part_number self }
    {
        self as u8
    }
}
