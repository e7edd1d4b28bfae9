// What a journal is made of, for `--help`.

// Every kind of line, with an example of each.
pub(crate) const HELP: &str =
    "pugraide FILE reads a journal from a file, pugraide alone from standard input.
A journal has one setting or one call to a line. A # starts a comment.

Settings hold for the whole journal, wherever they stand:
  business 01-01..12-31 02-10     business days: days or ranges, MM-DD; several lines add up
  opted 10 33                     depositories from 10 to 99 that have opted for the krone
  source plain 400 100            sheets in 400 rows for securities and 100 for currencies
  source steps                    sheets that hold until the next, 64 of each kind
  source carry 3 plain 400 100    either, with a security's sheet carried over 3 days more
  source carry 3 steps

Calls are carried out one after another, and each is answered with the number of its line:
  security 17 day 02-10 price 25.0000 currency EUR class 1
  currency DKK day 02-10 rate 0.00006000 value 0.134000
  sheet security 17 day 02-10
  sheet currency DKK day 02-10
  quote fail 900001 type 1 from 1001 to 2002 security 17 quantity 1000 cash 25000.00 currency EUR day 02-10 reasons 1 2
  quote late 900002 type 1 from 1001 to 2002 security 17 quantity 1000 cash 25000.00 currency EUR intended 02-10 matched 02-13 before times 100 200

A price has four decimals, cash two, a rate eight and a euro value six. A currency is EUR, DKK or its number.
A late match came before or after the matching day's cut-off; its times are the deliverer's and the receiver's.
";
