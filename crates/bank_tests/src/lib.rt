// Examples for the banks: each make at its edges, device words, and entries in order.
#![tactic(auto)]

#[cfg(test)]
mod tests {
    use bank::{
        Bank, BankFault, Entry, FieldValue, MaskBank, Place, WordBank, device_word, play, rewrite,
        write_beside, write_then_read,
    };
    use std::process::Abort;
    use std::test::Fail;

    const fn place(register: u8, shift: u8, width: u8) -> Place {
        Place {
            register,
            shift,
            width,
        }
    }

    // A write, what the bank answers, and the register's word afterwards (0 where there is none).
    #[derive(Clone, Copy)]
    struct Case {
        at: Place,
        value: u32,
        answer: Result<(), BankFault>,
        word: u32,
    }

    const fn write(at: Place, value: u32, answer: Result<(), BankFault>, word: u32) -> Case {
        Case {
            at,
            value,
            answer,
            word,
        }
    }

    fn run<B: Bank>(rt: &impl Abort, bank: &mut B, cases: &[Case]) {
        for c in cases {
            assert_eq!(rt; bank.write(c.at, FieldValue(c.value)), c.answer);
            assert_eq!(rt; bank.word(c.at.register as usize).unwrap_or(0), c.word);
        }
    }

    const OUTSIDE: Result<(), BankFault> = Err(BankFault::OutsideBank);

    const TOO_WIDE: Result<(), BankFault> = Err(BankFault::TooWide);

    #[test]
    fn word_bank_at_its_edges(rt: HostRuntime) -> Result<(), Fail> {
        let mut bank = WordBank::from_words(rt.alloc(), &[0x1234_5678, 0xffff_ffff])?;
        let cases = [
            // shift + width exactly the word, and one past it
            write(place(0, 28, 4), 0xf, Ok(()), 0xf234_5678),
            write(place(0, 28, 5), 0, OUTSIDE, 0xf234_5678),
            write(place(0, 0, 32), 0x8000_0001, Ok(()), 0x8000_0001),
            write(place(0, 1, 32), 0, OUTSIDE, 0x8000_0001),
            // a sum that would wrap at 8 bits
            write(place(0, 255, 1), 0, OUTSIDE, 0x8000_0001),
            write(place(0, 128, 128), 0, OUTSIDE, 0x8000_0001),
            // width 0
            write(place(0, 0, 0), 0, OUTSIDE, 0x8000_0001),
            // the last register, and one past it
            write(place(1, 8, 8), 0, Ok(()), 0xffff_00ff),
            write(place(2, 8, 8), 0, OUTSIDE, 0),
            // the greatest value, and one more
            write(place(0, 4, 4), 15, Ok(()), 0x8000_00f1),
            write(place(0, 4, 4), 16, TOO_WIDE, 0x8000_00f1),
            // a bad place comes before a value that doesn't fit
            write(place(2, 4, 4), 16, OUTSIDE, 0),
        ];
        run(&rt, &mut bank, &cases);
        Ok(())
    }

    #[test]
    fn mask_bank_at_its_edges(rt: HostRuntime) -> Result<(), Fail> {
        let mut bank = MaskBank::from_words(rt.alloc(), &[0x5678, 0xffff])?;
        let cases = [
            write(place(0, 12, 4), 0xf, Ok(()), 0xf678),
            write(place(0, 12, 5), 0, OUTSIDE, 0xf678),
            write(place(0, 0, 16), 0x8001, Ok(()), 0x8001),
            write(place(0, 1, 16), 0, OUTSIDE, 0x8001),
            write(place(0, 255, 1), 0, OUTSIDE, 0x8001),
            write(place(0, 0, 0), 0, OUTSIDE, 0x8001),
            write(place(1, 4, 8), 0, Ok(()), 0xf00f),
            write(place(2, 4, 8), 0, OUTSIDE, 0),
            write(place(0, 4, 4), 15, Ok(()), 0x80f1),
            write(place(0, 4, 4), 16, TOO_WIDE, 0x80f1),
            write(place(2, 4, 4), 16, OUTSIDE, 0),
        ];
        run(&rt, &mut bank, &cases);
        Ok(())
    }

    #[test]
    fn reads_answer_the_bits(rt: HostRuntime) -> Result<(), Fail> {
        let bank = WordBank::from_words(rt.alloc(), &[0x1234_5678])?;
        assert_eq!(rt; bank.read(place(0, 8, 12)), Ok(FieldValue(0x456)));
        assert_eq!(rt; bank.read(place(0, 31, 1)), Ok(FieldValue(0)));
        assert_eq!(rt; bank.read(place(0, 31, 2)), Err(BankFault::OutsideBank));
        assert_eq!(rt; bank.read(place(1, 0, 1)), Err(BankFault::OutsideBank));
        assert_eq!(rt; bank.word_count(), 1);
        assert_eq!(rt; bank.word(1), None);
        Ok(())
    }

    #[test]
    fn a_bank_may_be_empty(rt: HostRuntime) -> Result<(), Fail> {
        let mut bank = WordBank::from_words(rt.alloc(), &[])?;
        assert_eq!(rt; bank.word_count(), 0);
        assert_eq!(rt; bank.read(place(0, 0, 1)), Err(BankFault::OutsideBank));
        assert_eq!(rt; bank.write(place(0, 0, 1), FieldValue(0)), OUTSIDE);
        Ok(())
    }

    #[test]
    fn device_words(rt: HostRuntime) {
        assert_eq!(rt; device_word(place(0, 4, 4), FieldValue(9)), Ok(0x00f0_0090));
        assert_eq!(rt;
            device_word(place(0, 15, 1), FieldValue(1)),
            Ok(0x8000_8000)
        );
        assert_eq!(rt;
            device_word(place(0, 0, 16), FieldValue(0)),
            Ok(0xffff_0000)
        );
        assert_eq!(rt;
            device_word(place(0, 0, 17), FieldValue(0)),
            Err(BankFault::OutsideBank)
        );
        assert_eq!(rt;
            device_word(place(0, 3, 0), FieldValue(0)),
            Err(BankFault::OutsideBank)
        );
        assert_eq!(rt;
            device_word(place(0, 3, 2), FieldValue(4)),
            Err(BankFault::TooWide)
        );
    }

    #[test]
    fn entries_stop_at_the_first_refusal(rt: HostRuntime) -> Result<(), Fail> {
        let mut bank = MaskBank::from_words(rt.alloc(), &[0, 0])?;
        let entries = [
            Entry {
                place: place(0, 0, 4),
                value: FieldValue(5),
            },
            Entry {
                place: place(1, 0, 4),
                value: FieldValue(16),
            },
            Entry {
                place: place(1, 0, 4),
                value: FieldValue(7),
            },
        ];
        assert_eq!(rt; play(&mut bank, &entries), TOO_WIDE);
        assert_eq!(rt; bank.word(0), Some(5));
        assert_eq!(rt; bank.word(1), Some(0));
        Ok(())
    }

    #[test]
    fn reading_back(rt: HostRuntime) -> Result<(), Fail> {
        let mut bank = WordBank::from_words(rt.alloc(), &[0xa5a5_a5a5])?;
        assert_eq!(rt;
            write_then_read(&mut bank, place(0, 8, 8), FieldValue(0x3c)),
            Ok(FieldValue(0x3c))
        );
        assert_eq!(rt;
            write_beside(&mut bank, place(0, 16, 8), FieldValue(0), place(0, 8, 8)),
            Ok(FieldValue(0x3c))
        );
        assert_eq!(rt; rewrite(&mut bank, place(0, 0, 8)), Ok(FieldValue(0xa5)));
        assert_eq!(rt; bank.word(0), Some(0xa500_3ca5));
        Ok(())
    }

    #[test]
    fn numbers(rt: HostRuntime) {
        assert_eq!(rt; BankFault::OutsideBank.number(), 41);
        assert_eq!(rt; BankFault::TooWide.number(), 42);
    }
}
