// The tests of `journal`, in a crate of their own: a crate with tests is proved twice.
#![tactic(auto)]

#[cfg(test)]
mod tests {
    use journal::read::journal_of;
    use journal::said::Journal;
    use lines::said::{Base, Call, Event, Quote, Source, Trade};
    use sheets::fault::{Fault, Layer, Rule};
    use shows::{Currency, Day, Money, Price, Rate, Refusal, Value};
    use std::alloc::Global;
    use std::process::Abort;
    use std::test::Fail;

    // A journal that cannot be read: the whole message.
    fn refused(rt: &impl Abort, heap: Global, text: &[u8], message: &str) -> Result<(), Fail> {
        match journal_of(heap, text) {
            Err(why) => {
                assert_eq!(rt; why.to_string(heap)?.as_str(), message);
                Ok(())
            },
            Ok(_journal) => Err(Fail::new("it was read")),
        }
    }

    // A journal that is refused only for want of a source.
    fn taken(rt: &impl Abort, heap: Global, text: &[u8]) -> Result<(), Fail> {
        match journal_of(heap, text) {
            Err(why) => {
                assert!(rt;
                    why.to_string(heap)?.as_str().starts_with(
                        "line 1: expected a source line in the journal, since it has calls: ",
                    )
                );
                Ok(())
            },
            Ok(_journal) => Err(Fail::new("it has no source")),
        }
    }

    // A line that cannot be read, and what was expected on it.
    struct Unreadable {
        line: &'static str,
        expected: &'static str,
    }

    const UNREADABLE: [Unreadable; 69] = [
        Unreadable {
            line: "sheets security 17 day 02-10",
            expected: "business, opted, source, security, currency, sheet or quote",
        },
        Unreadable {
            line: "Business 01-01",
            expected: "business, opted, source, security, currency, sheet or quote",
        },
        Unreadable {
            line: "\tsource steps 1",
            expected: "the end of the line",
        },
        Unreadable {
            line: "currency DKK day 02-10 rate 0.00006000 value 0.134000 x",
            expected: "the end of the line",
        },
        Unreadable {
            line: "security",
            expected: "a security's number up to 65535",
        },
        Unreadable {
            line: "security 17",
            expected: "the word day",
        },
        Unreadable {
            line: "security 17 day 2-10",
            expected: "a day MM-DD",
        },
        Unreadable {
            line: "security 17 day 02-10 25.0000",
            expected: "the word price",
        },
        Unreadable {
            line: "security 17 day 02-10 price 25.00",
            expected: "a price with four decimals",
        },
        Unreadable {
            line: "security 17 day 02-10 price 25.0000",
            expected: "the word currency",
        },
        Unreadable {
            line: "security 17 day 02-10 price 25.0000 currency GBP",
            expected: "EUR, DKK or a currency's number up to 255",
        },
        Unreadable {
            line: "security 17 day 02-10 price 25.0000 currency EUR",
            expected: "the word class",
        },
        Unreadable {
            line: "security 17 day 02-10 price 25.0000 currency EUR class 256",
            expected: "a class up to 255",
        },
        Unreadable {
            line: "currency SEK",
            expected: "EUR, DKK or a currency's number up to 255",
        },
        Unreadable {
            line: "currency DKK",
            expected: "the word day",
        },
        Unreadable {
            line: "currency DKK day 02-10 rat",
            expected: "the word rate",
        },
        Unreadable {
            line: "currency DKK day 02-10 rate 0.0001",
            expected: "a rate with eight decimals",
        },
        Unreadable {
            line: "currency DKK day 02-10 rate 0.00006000",
            expected: "the word value",
        },
        Unreadable {
            line: "currency DKK day 02-10 rate 0.00006000 value 1",
            expected: "a euro value with six decimals",
        },
        Unreadable {
            line: "sheet",
            expected: "security or currency",
        },
        Unreadable {
            line: "sheet security x",
            expected: "a security's number up to 65535",
        },
        Unreadable {
            line: "sheet currency 256 day 02-10",
            expected: "EUR, DKK or a currency's number up to 255",
        },
        Unreadable {
            line: "quote",
            expected: "fail or late",
        },
        Unreadable {
            line: "quote fail",
            expected: "an instruction's number up to 4294967295",
        },
        Unreadable {
            line: "quote fail 1",
            expected: "the word type",
        },
        Unreadable {
            line: "quote fail 1 type 256",
            expected: "a type up to 255",
        },
        Unreadable {
            line: "quote fail 1 type 1 to",
            expected: "the word from",
        },
        Unreadable {
            line: "quote fail 1 type 1 from 65536",
            expected: "a party's number up to 65535",
        },
        Unreadable {
            line: "quote fail 1 type 1 from 1001 from",
            expected: "the word to",
        },
        Unreadable {
            line: "quote fail 1 type 1 from 1001 to x",
            expected: "a party's number up to 65535",
        },
        Unreadable {
            line: "quote fail 1 type 1 from 1001 to 2002 17",
            expected: "the word security",
        },
        Unreadable {
            line: "quote fail 1 type 1 from 1001 to 2002 security 17",
            expected: "the word quantity",
        },
        Unreadable {
            line: "quote fail 1 type 1 from 1001 to 2002 security 17 quantity -1",
            expected: "a quantity up to 18446744073709551615",
        },
        Unreadable {
            line: "quote late 1 type 1 from 1001 to 2002 security 17 quantity 1",
            expected: "the word cash",
        },
        Unreadable {
            line: "quote late 1 type 1 from 1001 to 2002 security 17 quantity 1 cash 5",
            expected: "cash with two decimals",
        },
        Unreadable {
            line: "quote fail 900001 type 1 from 1001 to 2002 security 17 quantity 1000 cash 25000.00 currency EUR reasons",
            expected: "the word day",
        },
        Unreadable {
            line: "quote fail 900001 type 1 from 1001 to 2002 security 17 quantity 1000 cash 25000.00 currency EUR day 02-10",
            expected: "the word reasons",
        },
        Unreadable {
            line: "quote fail 900001 type 1 from 1001 to 2002 security 17 quantity 1000 cash 25000.00 currency EUR day 02-10 reasons 256",
            expected: "a reason up to 255",
        },
        Unreadable {
            line: "quote fail 900001 type 1 from 1001 to 2002 security 17 quantity 1000 cash 25000.00 currency EUR day 02-10 reasons 1",
            expected: "a reason up to 255",
        },
        Unreadable {
            line: "quote fail 900001 type 1 from 1001 to 2002 security 17 quantity 1000 cash 25000.00 currency EUR day 02-10 reasons 1 2 3",
            expected: "the end of the line",
        },
        Unreadable {
            line: "quote late 900001 type 1 from 1001 to 2002 security 17 quantity 1000 cash 25000.00 currency EUR day",
            expected: "the word intended",
        },
        Unreadable {
            line: "quote late 900001 type 1 from 1001 to 2002 security 17 quantity 1000 cash 25000.00 currency EUR intended 02-10",
            expected: "the word matched",
        },
        Unreadable {
            line: "quote late 900001 type 1 from 1001 to 2002 security 17 quantity 1000 cash 25000.00 currency EUR intended 02-10 matched 02-13 then",
            expected: "before or after",
        },
        Unreadable {
            line: "quote late 900001 type 1 from 1001 to 2002 security 17 quantity 1000 cash 25000.00 currency EUR intended 02-10 matched 02-13 after",
            expected: "the word times",
        },
        Unreadable {
            line: "quote late 900001 type 1 from 1001 to 2002 security 17 quantity 1000 cash 25000.00 currency EUR intended 02-10 matched 02-13 after times 4294967296",
            expected: "a time up to 4294967295",
        },
        Unreadable {
            line: "quote late 900001 type 1 from 1001 to 2002 security 17 quantity 1000 cash 25000.00 currency EUR intended 02-10 matched 02-13 after times 1",
            expected: "a time up to 4294967295",
        },
        Unreadable {
            line: "business",
            expected: "a day MM-DD or a range MM-DD..MM-DD",
        },
        Unreadable {
            line: "business 01-02 02-01..01-31",
            expected: "a day MM-DD or a range MM-DD..MM-DD",
        },
        Unreadable {
            line: "business 01-01...12-31",
            expected: "a day MM-DD or a range MM-DD..MM-DD",
        },
        Unreadable {
            line: "opted",
            expected: "a depository from 10 to 99",
        },
        Unreadable {
            line: "opted 10 9",
            expected: "a depository from 10 to 99",
        },
        Unreadable {
            line: "opted 100",
            expected: "a depository from 10 to 99",
        },
        Unreadable {
            line: "source",
            expected: "plain, steps or carry",
        },
        Unreadable {
            line: "source plain 1000001",
            expected: "a number of rows up to 1000000",
        },
        Unreadable {
            line: "source plain 400",
            expected: "a number of rows up to 1000000",
        },
        Unreadable {
            line: "source carry 256",
            expected: "a number of days up to 255",
        },
        Unreadable {
            line: "source carry 3 carry",
            expected: "plain or steps",
        },
        Unreadable {
            line: "sheet security 65536 day 02-10",
            expected: "a security's number up to 65535",
        },
        Unreadable {
            line: "sheet security +17 day 02-10",
            expected: "a security's number up to 65535",
        },
        Unreadable {
            line: "sheet security 17 day 01-32",
            expected: "a day MM-DD",
        },
        Unreadable {
            line: "sheet security 17 day 00-01",
            expected: "a day MM-DD",
        },
        Unreadable {
            line: "sheet security 17 day 01-00",
            expected: "a day MM-DD",
        },
        Unreadable {
            line: "security 17 day 02-10 price .0000",
            expected: "a price with four decimals",
        },
        Unreadable {
            line: "security 17 day 02-10 price 25.00000",
            expected: "a price with four decimals",
        },
        Unreadable {
            line: "security 17 day 02-10 price 1844674407370955.1616",
            expected: "a price with four decimals",
        },
        Unreadable {
            line: "quote fail 4294967296",
            expected: "an instruction's number up to 4294967295",
        },
        Unreadable {
            line: "quote fail 1 type 1 from 1 to 2 security 3 quantity 18446744073709551616",
            expected: "a quantity up to 18446744073709551615",
        },
        Unreadable {
            line: "security 17 day 02-10 price 25.0000 currency 256",
            expected: "EUR, DKK or a currency's number up to 255",
        },
        Unreadable {
            line: "security 17 day 02-10 # price",
            expected: "the word price",
        },
    ];

    #[test]
    fn unreadable_lines(rt: HostRuntime) -> Result<(), Fail> {
        let heap = rt.alloc();
        for &Unreadable { line, expected } in &UNREADABLE {
            let message = format!(in heap; "line 1: expected {expected}: {line}")?;
            refused(&rt, heap, line.as_bytes(), message.as_str())?;
        }
        Ok(())
    }

    #[test]
    fn source_lines(rt: HostRuntime) -> Result<(), Fail> {
        let heap = rt.alloc();
        refused(
            &rt,
            heap,
            b"source steps\n\nsource steps\n",
            "line 3: expected only one source line: source steps",
        )?;
        refused(
            &rt,
            heap,
            b"business 01-01\nsheet security 17 day 02-10\r\nsheet security 18 day 02-10",
            "line 2: expected a source line in the journal, since it has calls: sheet security 17 day 02-10",
        )
    }

    // The greatest numbers that are read, and the ways to set a line.
    const READABLE: [&str; 8] = [
        "sheet security 65535 day 99-31",
        "sheet security 00017 day 01-31",
        "sheet currency 255 day 01-01",
        "security 0 day 13-01 price 1844674407370955.1615 currency 255 class 255",
        "quote fail 4294967295 type 255 from 65535 to 0 security 0 quantity 18446744073709551615 cash 0.00 currency 0 day 01-01 reasons 255 0",
        "quote late 0 type 0 from 0 to 0 security 0 quantity 0 cash 0.00 currency 0 intended 01-01 matched 01-01 after times 4294967295 0",
        "  sheet\tsecurity 17\t day 02-10 \t# x",
        "sheet security 17 day 02-10#x\r",
    ];

    #[test]
    fn readable_lines(rt: HostRuntime) -> Result<(), Fail> {
        let heap = rt.alloc();
        for line in READABLE {
            taken(&rt, heap, line.as_bytes())?;
        }
        Ok(())
    }

    // Blank lines and comments alone, and bytes that are no text.
    #[test]
    fn nothing_said(rt: HostRuntime) -> Result<(), Fail> {
        let heap = rt.alloc();
        refused(
            &rt,
            heap,
            b"\n \xff\n",
            "line 2: expected business, opted, source, security, currency, sheet or quote: (no UTF-8 text)",
        )?;
        let journal = journal_of(heap, b"\n  # quote\n\t\r\n#")?;
        assert!(rt;
            journal.calls.is_empty() && journal.business.is_empty() && journal.source.is_none()
        );
        Ok(())
    }

    // The first call of a journal.
    fn first(journal: &Journal) -> Result<Call, Fail> {
        let Some(call) = journal.calls.first() else {
            return Err(Fail::new("no call"));
        };
        Ok(call.said)
    }

    fn called(rt: &impl Abort, heap: Global, text: &[u8], call: Call) -> Result<(), Fail> {
        let journal = journal_of(heap, text)?;
        assert_eq!(rt; first(&journal)?, call);
        Ok(())
    }

    #[test]
    fn sheets_read(rt: HostRuntime) -> Result<(), Fail> {
        let heap = rt.alloc();
        let security = 17;
        let currency = 1;
        let day = 40;
        called(
            &rt,
            heap,
            b"source steps\nsecurity 17 day 02-10 price 25.0000 currency DKK class 1",
            Call::EnterSecurity {
                security,
                day,
                price: 250_000,
                currency,
                class: 1,
            },
        )?;
        called(
            &rt,
            heap,
            b"source steps\ncurrency DKK day 02-10 rate 0.00006000 value 0.134000",
            Call::EnterCurrency {
                currency,
                day,
                rate: 6_000,
                value: 134_000,
            },
        )?;
        called(
            &rt,
            heap,
            b"sheet security 17 day 02-10\n# x\nsource steps",
            Call::AskSecurity { security, day },
        )?;
        called(
            &rt,
            heap,
            b"source steps\r\n\r\nsheet currency DKK day 02-10\r\n",
            Call::AskCurrency { currency, day },
        )
    }

    #[test]
    fn quotes_read(rt: HostRuntime) -> Result<(), Fail> {
        let heap = rt.alloc();
        let trade = Trade {
            instruction: 900_001,
            kind: 1,
            deliverer: 1001,
            receiver: 2002,
            security: 17,
            quantity: 1000,
            cash: 2_500_000,
            currency: 0,
        };
        let fail = Event::Fail {
            day: 40,
            reasons: (1, 2),
        };
        let late = Event::Late {
            intended: 40,
            matched: 43,
            after: true,
            times: (100, 200),
        };
        called(
            &rt,
            heap,
            b"source steps\nquote fail 900001 type 1 from 1001 to 2002 security 17 quantity 1000 cash 25000.00 currency EUR day 02-10 reasons 1 2",
            Call::Quote(Quote { trade, event: fail }),
        )?;
        called(
            &rt,
            heap,
            b"source steps\nquote late 900001 type 1 from 1001 to 2002 security 17 quantity 1000 cash 25000.00 currency EUR intended 02-10 matched 02-13 after times 100 200",
            Call::Quote(Quote { trade, event: late }),
        )
    }

    fn source_is(rt: &impl Abort, heap: Global, text: &[u8], source: Source) -> Result<(), Fail> {
        let journal = journal_of(heap, text)?;
        assert_eq!(rt; journal.source, Some(source));
        Ok(())
    }

    #[test]
    fn sources_read(rt: HostRuntime) -> Result<(), Fail> {
        let heap = rt.alloc();
        let plain = Base::Plain {
            securities: 1_000_000,
            currencies: 100,
        };
        source_is(
            &rt,
            heap,
            b"source plain 1000000 100",
            Source {
                reach: None,
                base: plain,
            },
        )?;
        source_is(
            &rt,
            heap,
            b"source steps",
            Source {
                reach: None,
                base: Base::Steps,
            },
        )?;
        source_is(
            &rt,
            heap,
            b"source carry 255 plain 1000000 100",
            Source {
                reach: Some(255),
                base: plain,
            },
        )?;
        source_is(
            &rt,
            heap,
            b"source carry 3 steps",
            Source {
                reach: Some(3),
                base: Base::Steps,
            },
        )
    }

    #[test]
    fn settings_read(rt: HostRuntime) -> Result<(), Fail> {
        let heap = rt.alloc();
        let journal = journal_of(
            heap,
            b"business 01-01..01-01 99-31\nopted 10 99\nbusiness 02-01..12-31",
        )?;
        assert_eq!(rt; journal.business.len(), 3);
        assert!(rt; journal.opted[0] && journal.opted[89] && !journal.opted[1]);
        let days = journal.business[2];
        assert_eq!(rt; days.line, 3);
        assert_eq!(rt; days.said.first, 31);
        assert_eq!(rt; days.said.last, 371);
        Ok(())
    }

    #[test]
    fn shown(rt: HostRuntime) -> Result<(), Fail> {
        let heap = rt.alloc();
        let day = Day(40);
        let most = Day(u64::MAX);
        let price = Price { units: 250_001 };
        let money = Money { units: 5 };
        let rate = Rate { units: 6_000 };
        let value = Value { units: 10_000_000 };
        assert_eq!(rt;
            format!(in heap; "{day} {most} {price} {money:>6}|")?.as_str(),
            "02-10 595056260442243601-16 25.0001   0.05|"
        );
        let euro = Currency(0);
        let krone = Currency(1);
        let other = Currency(255);
        assert_eq!(rt;
            format!(in heap; "{rate} {value} {euro} {krone} {other:<4}|")?.as_str(),
            "0.00006000 10.000000 EUR DKK 255 |"
        );
        Ok(())
    }

    // A rule that was broken at a place, and what is printed of it.
    struct Broken {
        rule: Rule,
        place: (u64, u64),
        text: &'static str,
    }

    const BROKEN: [Broken; 15] = [
        Broken {
            rule: Rule::ValueOutside,
            place: (0, 0),
            text: "refused 1 3 0 0 # a price is 0.0001 to 100000.0000; a euro value is up to 10.000000, the euro's 1.000000, the krone's at least 0.010000, any other's at least 0.000001",
        },
        Broken {
            rule: Rule::NoSuchClass,
            place: (7, 0),
            text: "refused 2 3 7 0 # no class 7: classes are 1 to 6",
        },
        Broken {
            rule: Rule::NoSuchCurrency,
            place: (16, 0),
            text: "refused 3 3 16 0 # no currency 16: currencies are 0 to 15",
        },
        Broken {
            rule: Rule::RateTooHigh,
            place: (100_001, 0),
            text: "refused 4 3 100001 0 # a rate of 0.00100001: the highest is 0.00100000",
        },
        Broken {
            rule: Rule::NoSuchSecurity,
            place: (0, 0),
            text: "refused 5 3 0 0 # no security 0: securities are 1 to 9999",
        },
        Broken {
            rule: Rule::NoSuchDay,
            place: (372, 0),
            text: "refused 6 3 372 0 # no day 13-01: the year ends on 12-31",
        },
        Broken {
            rule: Rule::NotTaken,
            place: (17, 40),
            text: "refused 7 3 17 40 # no room in the source for 17 on 02-10",
        },
        Broken {
            rule: Rule::SecurityMissing,
            place: (17, 40),
            text: "refused 15 3 17 40 # no sheet of security 17 on 02-10: enter one first",
        },
        Broken {
            rule: Rule::CurrencyMissing,
            place: (1, 40),
            text: "refused 16 3 1 40 # no sheet of currency DKK on 02-10: enter one first",
        },
        Broken {
            rule: Rule::NoSuchParty,
            place: (0, 0),
            text: "refused 9 3 0 0 # instruction 0: an instruction is not 0, and a party is 1000 to 9999",
        },
        Broken {
            rule: Rule::FieldsUnfit,
            place: (5, 0),
            text: "refused 10 3 5 0 # type 5: types are 1 to 4, a quantity is at most 1000000000, cash at most 1000000000.00, and the fields fit the type",
        },
        Broken {
            rule: Rule::ReasonsUnlawful,
            place: (1, 2),
            text: "refused 11 3 1 2 # reasons 1 and 2 do not go together in this type",
        },
        Broken {
            rule: Rule::NoBusinessDay,
            place: (0, 40),
            text: "refused 12 3 0 40 # 02-10 is not a business day",
        },
        Broken {
            rule: Rule::NoUsedDay,
            place: (40, 43),
            text: "refused 13 3 40 43 # no used day from 02-10 to 02-13, and a late match needs one",
        },
        Broken {
            rule: Rule::ValueTooLarge,
            place: (17, 40),
            text: "refused 17 3 17 40 # quantity times price of security 17 on 02-10 is above 1000000000.0000",
        },
    ];

    #[test]
    fn refusals(rt: HostRuntime) -> Result<(), Fail> {
        let heap = rt.alloc();
        for &Broken { rule, place, text } in &BROKEN {
            let layer = Layer::Calculation;
            let refusal = Refusal(Fault { rule, layer, place });
            assert_eq!(rt; refusal.to_string(heap)?.as_str(), text);
        }
        Ok(())
    }
}
