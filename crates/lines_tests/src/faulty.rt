// Faulty lines, and the length of the longest start of each that begins a line of its sort.
use lines::{read_filled, read_input, read_statement};
use std::test::Fail;

struct Case {
    line: &'static [u8],
    start: u32,
}

const INPUT: [Case; 49] = [
    Case {
        line: b"",
        start: 0,
    },
    Case {
        line: b"\n",
        start: 0,
    },
    Case {
        line: b"1",
        start: 1,
    },
    Case {
        line: b"2\n",
        start: 1,
    },
    Case {
        line: b"2a\n",
        start: 1,
    },
    Case {
        line: b"14 1\n",
        start: 1,
    },
    Case {
        line: b"18\n",
        start: 1,
    },
    Case {
        line: b"33\n",
        start: 1,
    },
    Case {
        line: b"40\n",
        start: 0,
    },
    Case {
        line: b"a\n",
        start: 0,
    },
    Case {
        line: b"0\n",
        start: 0,
    },
    Case {
        line: b"99\n",
        start: 0,
    },
    Case {
        line: b"99 : 2 0\n",
        start: 0,
    },
    Case {
        line: b"100\n",
        start: 2,
    },
    Case {
        line: b"010\n",
        start: 0,
    },
    Case {
        line: b" 28\n",
        start: 0,
    },
    Case {
        line: b"28 \n",
        start: 2,
    },
    Case {
        line: b"28",
        start: 2,
    },
    Case {
        line: b"28\r\n",
        start: 2,
    },
    Case {
        line: b"28\n\n",
        start: 3,
    },
    Case {
        line: b"28 : 0 0\n",
        start: 2,
    },
    Case {
        line: b"24 : 0 0\n",
        start: 3,
    },
    Case {
        line: b"24 5 : 0 0\n",
        start: 4,
    },
    Case {
        line: b"10 7 100 500 3 : 0 0\n",
        start: 14,
    },
    Case {
        line: b"24 05\n",
        start: 4,
    },
    Case {
        line: b"24 00\n",
        start: 4,
    },
    Case {
        line: b"32 01\n",
        start: 4,
    },
    Case {
        line: b"24 123456789\n",
        start: 11,
    },
    Case {
        line: b"24 5",
        start: 4,
    },
    Case {
        line: b"24 5 \n",
        start: 4,
    },
    Case {
        line: b"24  5\n",
        start: 3,
    },
    Case {
        line: b"24\n",
        start: 2,
    },
    Case {
        line: b"24 \n",
        start: 3,
    },
    Case {
        line: b"10 7 100 500\n",
        start: 12,
    },
    Case {
        line: b"24 5 6\n",
        start: 4,
    },
    Case {
        line: b"13 1 1 1 2 1 4 1200 7\n",
        start: 19,
    },
    Case {
        line: b"24 -5\n",
        start: 3,
    },
    Case {
        line: b"24 +5\n",
        start: 3,
    },
    Case {
        line: b"24\t5\n",
        start: 2,
    },
    Case {
        line: b"24 5\t\n",
        start: 4,
    },
    Case {
        line: b"24 5\r\n",
        start: 4,
    },
    Case {
        line: b"24 5.0\n",
        start: 4,
    },
    Case {
        line: b"24 1,000\n",
        start: 4,
    },
    Case {
        line: b"24 \xb2\n",
        start: 3,
    },
    Case {
        line: b"\xef\xbb\xbf28\n",
        start: 0,
    },
    Case {
        line: b"24 5\xff\n",
        start: 4,
    },
    Case {
        line: b"32 0\0\n",
        start: 4,
    },
    Case {
        line: b"13 99999999 99999999 99999999 99999999 99999999 99999999 99999999\nx",
        start: 66,
    },
    Case {
        line: b"13 99999999 99999999 99999999 99999999 99999999 99999999 999999999\n",
        start: 65,
    },
];

const FILLED: [Case; 28] = [
    Case {
        line: b"",
        start: 0,
    },
    Case {
        line: b"28\n",
        start: 2,
    },
    Case {
        line: b"24 5\n",
        start: 4,
    },
    Case {
        line: b"9",
        start: 1,
    },
    Case {
        line: b"99",
        start: 2,
    },
    Case {
        line: b"99\n",
        start: 2,
    },
    Case {
        line: b"98 : 0 0\n",
        start: 1,
    },
    Case {
        line: b"99 1 : 2 0\n",
        start: 3,
    },
    Case {
        line: b"99 : 2\n",
        start: 6,
    },
    Case {
        line: b"99 : 2 0",
        start: 8,
    },
    Case {
        line: b"28: 0 0\n",
        start: 2,
    },
    Case {
        line: b"28 :0 0\n",
        start: 4,
    },
    Case {
        line: b"28 :  0 0\n",
        start: 5,
    },
    Case {
        line: b"28 : 00 0\n",
        start: 6,
    },
    Case {
        line: b"28 : 0  0\n",
        start: 7,
    },
    Case {
        line: b"28 : 0 0 \n",
        start: 8,
    },
    Case {
        line: b"28 : 0 0 0\n",
        start: 8,
    },
    Case {
        line: b"28 : 0 0\r\n",
        start: 8,
    },
    Case {
        line: b"28 : 123456789 0\n",
        start: 13,
    },
    Case {
        line: b"28 : 0 123456789\n",
        start: 15,
    },
    Case {
        line: b"28 : 0 0\n\n",
        start: 9,
    },
    Case {
        line: b"24 : 0 0\n",
        start: 3,
    },
    Case {
        line: b"24 5 0 0\n",
        start: 5,
    },
    Case {
        line: b"24 5 : 0\n",
        start: 8,
    },
    Case {
        line: b"14 1 : 0 0\n",
        start: 1,
    },
    Case {
        line: b"28\t: 0 0\n",
        start: 2,
    },
    Case {
        line: b"28 \xff\n",
        start: 3,
    },
    Case {
        line: b"13 99999999 99999999 99999999 99999999 99999999 99999999 99999999 : 99999999 99999999\nx",
        start: 86,
    },
];

const STATEMENT: [Case; 12] = [
    Case {
        line: b"",
        start: 0,
    },
    Case {
        line: b"\n",
        start: 0,
    },
    Case {
        line: b" 1 2\n",
        start: 0,
    },
    Case {
        line: b"1,2\n",
        start: 1,
    },
    Case {
        line: b"01 2 3 4 5 6 7 8 9 10\n",
        start: 1,
    },
    Case {
        line: b"1  2\n",
        start: 2,
    },
    Case {
        line: b"1 2 3 4 5 6 7 8 9\n",
        start: 17,
    },
    Case {
        line: b"1 2 3 4 5 6 7 8 9 10 11\n",
        start: 20,
    },
    Case {
        line: b"1 2 3 4 5 6 7 8 9 10",
        start: 20,
    },
    Case {
        line: b"1 2 3 4 5 6 7 8 9 10\n\n",
        start: 21,
    },
    Case {
        line: b"12345678901234567 2 3 4 5 6 7 8 9 10\n",
        start: 16,
    },
    Case {
        line: b"9999999999999999 9999999999999999 9999999999999999 9999999999999999 9999999999999999 9999999999999999 9999999999999999 9999999999999999 9999999999999999 9999999999999999\nx",
        start: 170,
    },
];

#[test]
fn input_starts(rt: HostRuntime) -> Result<(), Fail> {
    for case in &INPUT {
        let Err(fault) = read_input(case.line) else {
            return Err(Fail::new("a faulty input line was read"));
        };
        assert_eq!(rt; fault.start, case.start);
    }
    Ok(())
}

#[test]
fn filled_starts(rt: HostRuntime) -> Result<(), Fail> {
    for case in &FILLED {
        let Err(fault) = read_filled(case.line) else {
            return Err(Fail::new("a faulty filled line was read"));
        };
        assert_eq!(rt; fault.start, case.start);
    }
    Ok(())
}

#[test]
fn statement_starts(rt: HostRuntime) -> Result<(), Fail> {
    for case in &STATEMENT {
        let Err(fault) = read_statement(case.line) else {
            return Err(Fail::new("a faulty statement line was read"));
        };
        assert_eq!(rt; fault.start, case.start);
    }
    Ok(())
}
