// Tests of each refusal at both sides of its limit, in a crate of their own: a crate with tests is proved twice.
#![tactic(auto)]

#[cfg(test)]
mod tests {
    use calculation::charges::charges;
    use plain_rows::plain::PlainRows;
    use plain_rows::rows::Row;
    use reference::entry::{file_currency, file_security};
    use reference::raw;
    use reports::calendar::Calendar;
    use reports::open::{closed_year, open_days};
    use reports::report::{Cause, Report};
    use sheets::fault::Fault;
    use sheets::make;
    use std::process::Abort;
    use steps::entries::Steps;

    // A refusal's number, layer and place.
    #[derive(Clone, Copy, Debug, PartialEq, Eq)]
    struct Refusal {
        number: u8,
        layer: u8,
        place: (u64, u64),
    }

    // What a call is to answer: a result, whatever it is, or a refusal.
    type Answer = Result<(), Refusal>;

    const TAKEN: Answer = Ok(());

    const fn refused(number: u8, layer: u8, first: u64, second: u64) -> Answer {
        Err(Refusal {
            number,
            layer,
            place: (first, second),
        })
    }

    fn answered<T: Drop>(answer: Result<T, Fault>) -> Answer {
        answer.map(|_| ()).map_err(|fault| Refusal {
            number: fault.number(),
            layer: fault.layer_number(),
            place: fault.place,
        })
    }

    // Price, currency and class.
    #[test]
    fn security_sheets(rt: HostRuntime) {
        let cases = [
            (0, 0, 1, refused(1, 1, 0, 0)),
            (1, 0, 1, TAKEN),
            (1_000_000_000, 0, 1, TAKEN),
            (1_000_000_001, 0, 1, refused(1, 1, 1_000_000_001, 0)),
            (1, 0, 0, refused(2, 1, 0, 0)),
            (1, 0, 6, TAKEN),
            (1, 0, 7, refused(2, 1, 7, 0)),
            (1, 15, 1, TAKEN),
            (1, 16, 1, refused(3, 1, 16, 0)),
            (0, 16, 7, refused(1, 1, 0, 0)),
            (1, 16, 7, refused(2, 1, 7, 0)),
        ];
        for (price, currency, class, wanted) in cases {
            assert_eq!(rt;
                answered(make::security_sheet(price, currency, class)),
                wanted,
            );
        }
    }

    // Currency, rate and euro value.
    #[test]
    fn currency_sheets(rt: HostRuntime) {
        let cases = [
            (0, 0, 999_999, refused(1, 1, 999_999, 0)),
            (0, 0, 1_000_000, TAKEN),
            (0, 0, 1_000_001, refused(1, 1, 1_000_001, 0)),
            (1, 0, 9_999, refused(1, 1, 9_999, 0)),
            (1, 0, 10_000, TAKEN),
            (1, 0, 10_000_000, TAKEN),
            (1, 0, 10_000_001, refused(1, 1, 10_000_001, 0)),
            (2, 0, 0, refused(1, 1, 0, 0)),
            (2, 0, 1, TAKEN),
            (15, 0, 1, TAKEN),
            (16, 0, 1, refused(3, 1, 16, 0)),
            (2, 100_000, 1, TAKEN),
            (2, 100_001, 1, refused(4, 1, 100_001, 0)),
            (16, 100_001, 1, refused(3, 1, 16, 0)),
        ];
        for (currency, rate, value, wanted) in cases {
            assert_eq!(rt;
                answered(make::currency_sheet(currency, rate, value)),
                wanted,
            );
        }
    }

    // Security, day and price.
    #[test]
    fn entries(rt: HostRuntime) {
        let cases = [
            (0, 372, 0, refused(1, 1, 0, 0)),
            (0, 372, 1, refused(5, 2, 0, 0)),
            (1, 371, 1, TAKEN),
            (9_999, 0, 1, TAKEN),
            (10_000, 0, 1, refused(5, 2, 10_000, 0)),
            (1, 372, 1, refused(6, 2, 372, 0)),
        ];
        let mut steps = Steps::new();
        for (security, day, price, wanted) in cases {
            assert_eq!(rt;
                answered(file_security(&mut steps, security, day, price, 0, 1)),
                wanted,
            );
        }
        assert_eq!(rt;
            answered(file_currency(&mut steps, 0, 371, 0, 1_000_000)),
            TAKEN,
        );
        assert_eq!(rt;
            answered(file_currency(&mut steps, 0, 372, 0, 1_000_000)),
            refused(6, 2, 372, 0),
        );
    }

    #[test]
    fn questions(rt: HostRuntime) {
        let mut steps = Steps::new();
        assert_eq!(rt;
            answered(file_security(&mut steps, 9_999, 0, 1, 0, 1)),
            TAKEN,
        );
        assert_eq!(rt;
            answered(file_currency(&mut steps, 0, 0, 0, 1_000_000)),
            TAKEN,
        );
        for (security, day, some) in [
            (9_999, 371, true),
            (9_999, 372, false),
            (10_000, 371, false),
            (0, 371, false),
        ] {
            assert_eq!(rt; raw::security(&steps, security, day).is_some(), some);
        }
        for (currency, day, some) in [(0, 371, true), (0, 372, false), (16, 371, false)] {
            assert_eq!(rt; raw::currency(&steps, currency, day).is_some(), some);
        }
    }

    // One row of each kind: the same row again, and no room for another.
    #[test]
    fn room_in_plain_rows(rt: HostRuntime) {
        let mut securities = [Row::unused(); 1];
        let mut currencies = [Row::unused(); 1];
        let mut plain = PlainRows::new(&mut securities, &mut currencies);
        let cases = [
            (17, 40, TAKEN),
            (17, 40, TAKEN),
            (17, 41, refused(7, 2, 17, 41)),
            (18, 40, refused(7, 2, 18, 40)),
        ];
        for (security, day, wanted) in cases {
            assert_eq!(rt;
                answered(file_security(&mut plain, security, day, 1, 0, 1)),
                wanted,
            );
        }
        assert_eq!(rt;
            answered(file_currency(&mut plain, 0, 40, 0, 1_000_000)),
            TAKEN,
        );
        assert_eq!(rt;
            answered(file_currency(&mut plain, 1, 40, 0, 134_000)),
            refused(7, 2, 1, 40),
        );
    }

    #[test]
    fn room_in_steps(rt: HostRuntime) {
        let mut steps = Steps::new();
        for security in 1..65 {
            assert_eq!(rt;
                answered(file_security(&mut steps, security, 40, 1, 0, 1)),
                TAKEN,
            );
        }
        for (security, day, wanted) in [
            (64, 40, TAKEN),
            (65, 40, refused(7, 2, 65, 40)),
            (64, 41, refused(7, 2, 64, 41)),
        ] {
            assert_eq!(rt;
                answered(file_security(&mut steps, security, day, 1, 0, 1)),
                wanted,
            );
        }
    }

    // Business days are 02-01 to 02-28 but for 02-14.
    fn year() -> Result<Calendar, Fault> {
        let mut calendar = closed_year();
        open_days(&mut calendar, 31, 43)?;
        open_days(&mut calendar, 45, 58)?;
        Ok(calendar)
    }

    // Sheets hold from 02-08 on; security 18 is dearer, 19 in a currency without a sheet.
    fn source() -> Result<Steps, Fault> {
        let mut steps = Steps::new();
        file_security(&mut steps, 1, 38, 10_000, 0, 1)?;
        file_security(&mut steps, 9_999, 38, 10_000, 0, 1)?;
        file_security(&mut steps, 18, 38, 10_001, 0, 1)?;
        file_security(&mut steps, 19, 38, 10_000, 2, 1)?;
        file_currency(&mut steps, 0, 38, 6_000, 1_000_000)?;
        Ok(steps)
    }

    // The answer, or the fault of the sheets or days that it rests on.
    fn quoted(report: Report) -> Result<Answer, Fault> {
        let steps = source()?;
        let calendar = year()?;
        Ok(answered(charges(&steps, &calendar, &[false; 90], report)))
    }

    fn all(rt: &impl Abort, cases: &[(Report, Answer)]) {
        for (report, wanted) in cases {
            assert_eq!(rt; quoted(*report), Ok(*wanted));
        }
    }

    fn fail(day: u16, deliverer: u8, receiver: u8) -> Report {
        Report {
            instruction: 1,
            kind: 1,
            deliverer: 1000,
            receiver: 9999,
            security: 1,
            quantity: 1,
            cash: 1,
            currency: 0,
            cause: Cause::Fail {
                day,
                deliverer,
                receiver,
            },
        }
    }

    fn late(intended: u16, matched: u16, after: bool) -> Report {
        Report {
            cause: Cause::Late {
                intended,
                matched,
                after,
                deliverer: 2,
                receiver: 1,
            },
            ..fail(0, 0, 0)
        }
    }

    #[test]
    fn parties(rt: HostRuntime) {
        let good = fail(40, 1, 2);
        all(
            &rt,
            &[
                (good, TAKEN),
                (
                    Report {
                        instruction: 0,
                        ..good
                    },
                    refused(9, 4, 0, 0),
                ),
                (
                    Report {
                        deliverer: 999,
                        ..good
                    },
                    refused(9, 4, 1, 0),
                ),
                (
                    Report {
                        deliverer: 10_000,
                        ..good
                    },
                    refused(9, 4, 1, 0),
                ),
                (
                    Report {
                        receiver: 999,
                        ..good
                    },
                    refused(9, 4, 1, 0),
                ),
                (
                    Report {
                        receiver: 10_000,
                        kind: 5,
                        ..good
                    },
                    refused(9, 4, 1, 0),
                ),
            ],
        );
    }

    #[test]
    fn fields(rt: HostRuntime) {
        let good = fail(40, 3, 4);
        all(
            &rt,
            &[
                (Report { kind: 0, ..good }, refused(10, 4, 0, 0)),
                (
                    Report {
                        kind: 5,
                        security: 0,
                        ..good
                    },
                    refused(10, 4, 5, 0),
                ),
                (
                    Report {
                        quantity: 0,
                        ..good
                    },
                    refused(10, 4, 1, 0),
                ),
                (
                    Report {
                        quantity: 1_000_000_000,
                        ..good
                    },
                    TAKEN,
                ),
                (
                    Report {
                        quantity: 1_000_000_001,
                        ..good
                    },
                    refused(10, 4, 1, 0),
                ),
                (Report { cash: 0, ..good }, refused(10, 4, 1, 0)),
                (
                    Report {
                        cash: 100_000_000_000,
                        ..good
                    },
                    TAKEN,
                ),
                (
                    Report {
                        cash: 100_000_000_001,
                        ..good
                    },
                    refused(10, 4, 1, 0),
                ),
                (
                    Report {
                        currency: 2,
                        ..good
                    },
                    refused(10, 4, 1, 0),
                ),
            ],
        );
    }

    #[test]
    fn fields_by_type(rt: HostRuntime) {
        let free = Report {
            kind: 2,
            cash: 0,
            ..fail(40, 3, 4)
        };
        let payment = Report {
            kind: 4,
            security: 0,
            quantity: 0,
            ..fail(40, 3, 4)
        };
        all(
            &rt,
            &[
                (free, TAKEN),
                (Report { cash: 1, ..free }, refused(10, 4, 2, 0)),
                (
                    Report {
                        currency: 1,
                        ..free
                    },
                    refused(10, 4, 2, 0),
                ),
                (payment, TAKEN),
                (
                    Report {
                        security: 1,
                        ..payment
                    },
                    refused(10, 4, 4, 0),
                ),
                (
                    Report {
                        quantity: 1,
                        ..payment
                    },
                    refused(10, 4, 4, 0),
                ),
            ],
        );
    }

    // The intended day is judged before the matching day.
    #[test]
    fn securities_and_days(rt: HostRuntime) {
        let good = fail(40, 1, 2);
        all(
            &rt,
            &[
                (
                    Report {
                        security: 0,
                        ..fail(372, 1, 2)
                    },
                    refused(5, 4, 0, 0),
                ),
                (
                    Report {
                        security: 9_999,
                        ..good
                    },
                    TAKEN,
                ),
                (
                    Report {
                        security: 10_000,
                        ..good
                    },
                    refused(5, 4, 10_000, 0),
                ),
                (fail(371, 1, 2), refused(12, 4, 0, 371)),
                (fail(372, 0, 0), refused(6, 4, 372, 0)),
                (late(371, 40, false), refused(13, 4, 371, 40)),
                (late(372, 373, false), refused(6, 4, 372, 0)),
                (late(40, 372, false), refused(6, 4, 372, 0)),
            ],
        );
    }

    // The reasons are judged before the business day.
    #[test]
    fn reasons(rt: HostRuntime) {
        all(
            &rt,
            &[
                (fail(44, 0, 1), refused(11, 4, 0, 1)),
                (fail(40, 1, 7), refused(11, 4, 1, 7)),
                (fail(40, 6, 6), refused(11, 4, 6, 6)),
                (fail(40, 1, 4), refused(11, 4, 1, 4)),
                (fail(40, 6, 5), TAKEN),
                (fail(40, 1, 1), TAKEN),
                (
                    Report {
                        kind: 3,
                        ..fail(40, 1, 1)
                    },
                    refused(11, 4, 1, 1),
                ),
                (
                    Report {
                        kind: 3,
                        ..fail(40, 1, 3)
                    },
                    TAKEN,
                ),
            ],
        );
    }

    #[test]
    fn business_and_used_days(rt: HostRuntime) {
        all(
            &rt,
            &[
                (fail(43, 1, 2), TAKEN),
                (fail(44, 1, 2), refused(12, 4, 0, 44)),
                (late(43, 45, false), TAKEN),
                (late(43, 44, false), refused(12, 4, 0, 44)),
                (late(44, 45, false), refused(13, 4, 44, 45)),
                (late(44, 45, true), TAKEN),
                (late(46, 45, true), refused(13, 4, 46, 45)),
            ],
        );
    }

    #[test]
    fn sheets_and_worth(rt: HostRuntime) {
        let good = fail(40, 1, 2);
        all(
            &rt,
            &[
                (fail(37, 1, 2), refused(15, 3, 1, 37)),
                (fail(38, 1, 2), TAKEN),
                (
                    Report {
                        security: 20,
                        ..good
                    },
                    refused(15, 3, 20, 40),
                ),
                (
                    Report {
                        security: 19,
                        ..good
                    },
                    refused(16, 3, 2, 40),
                ),
                (
                    Report {
                        currency: 1,
                        ..fail(40, 2, 1)
                    },
                    refused(16, 3, 1, 40),
                ),
                (
                    Report {
                        quantity: 1_000_000_000,
                        ..good
                    },
                    TAKEN,
                ),
                (
                    Report {
                        security: 18,
                        quantity: 1_000_000_000,
                        ..good
                    },
                    refused(17, 3, 18, 40),
                ),
            ],
        );
    }

    #[test]
    fn opening(rt: HostRuntime) {
        let mut calendar = closed_year();
        for (first, last, wanted) in [
            (0, 371, TAKEN),
            (372, 373, refused(6, 4, 372, 0)),
            (0, 372, refused(6, 4, 372, 0)),
        ] {
            assert_eq!(rt; answered(open_days(&mut calendar, first, last)), wanted);
        }
        assert!(rt; calendar.business[0] && calendar.business[371]);
    }
}
