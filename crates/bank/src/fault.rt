// Why a bank refuses.
ghost use Rattle.std.specs.Prelude.{◌≡◌};
ghost use Rattle.bank.specs.Banks.{fault_number};

// Each refusal with its number.
#[derive(Clone, Copy, PartialEq, Eq, Debug)]
pub enum BankFault {
    // The register isn't in the list, the width is 0, or the field passes the word.
    OutsideBank = 41,
    // The value doesn't fit the field.
    TooWide = 42,
}

impl BankFault {
    pub fn number(self) -> u8
        ensures { result ≡ fault_number self }
    {
        self as u8
    }
}
