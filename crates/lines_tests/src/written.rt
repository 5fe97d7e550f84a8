// Lines read and written.
use draws::Reply;
use lines::{
    Line, Row, Sort, StatementLine, Text, fill, fill_faulty, find, number, read_filled, read_input,
    read_statement, rewrite, write_faulty, write_input_numbers, write_numbers, write_statement,
};
use std::test::Fail;

const INPUT: [&[u8]; 22] = [
    b"10 7 100 500 3\n",
    b"11 5 2\n",
    b"12 1 4500 130\n",
    b"13 1 1 1 2 1 4 1200\n",
    b"15 3 2\n",
    b"16 3 7\n",
    b"17 3 1 2\n",
    b"19 1 2 1 2 10\n",
    b"20 1 1 5\n",
    b"21 1\n",
    b"22 0 1 1 250\n",
    b"23 1 1 3\n",
    b"24 0\n",
    b"25 1 300\n",
    b"26 1 300\n",
    b"27\n",
    b"28\n",
    b"29 99999999\n",
    b"30\n",
    b"31\n",
    b"32 101\n",
    b"13 99999999 99999999 99999999 99999999 99999999 99999999 99999999\n",
];

const FILLED: [&[u8]; 6] = [
    b"10 7 100 500 3 : 0 0\n",
    b"13 1 1 1 2 1 4 1200 : 0 1\n",
    b"24 5 : 3 0\n",
    b"28 : 0 0\n",
    b"99 : 2 11\n",
    b"13 99999999 99999999 99999999 99999999 99999999 99999999 99999999 : 99999999 99999999\n",
];

fn answer(number: u32, res: u32) -> Reply {
    Reply {
        number,
        result: res,
    }
}

#[test]
fn input_again(rt: HostRuntime) -> Result<(), Fail> {
    for line in &INPUT {
        let Ok(again) = rewrite(Sort::Input, *line) else {
            return Err(Fail::new("an input line was not read"));
        };
        assert!(rt; again.text.as_bytes() == *line);
        assert!(rt; rewrite(Sort::Filled, *line).is_err());
    }
    Ok(())
}

#[test]
fn filled_again(rt: HostRuntime) -> Result<(), Fail> {
    for line in &FILLED {
        let Ok(again) = rewrite(Sort::Filled, *line) else {
            return Err(Fail::new("a filled line was not read"));
        };
        assert!(rt; again.text.as_bytes() == *line);
        assert!(rt; rewrite(Sort::Input, *line).is_err());
    }
    Ok(())
}

#[test]
fn trade(rt: HostRuntime) -> Result<(), Fail> {
    let text: &[u8] = b"13 1 2 3 4 5 6 1200\n";
    let Ok(
        Line::Trade {
            buyer,
            seller_effect,
            price,
            ..
        },
    ) = read_input(text)
    else {
        return Err(Fail::new("another kind"));
    };
    assert_eq!(rt; number(buyer), Some(2));
    assert_eq!(rt; number(seller_effect), Some(5));
    assert_eq!(rt; number(price), Some(1200));
    let Ok(again) = rewrite(Sort::Input, text) else {
        return Err(Fail::new("no line"));
    };
    assert_eq!(rt; again.kind, 13);
    assert!(rt; again.numbers.as_slice() == [1, 2, 3, 4, 5, 6, 1200].as_slice());
    Ok(())
}

#[test]
fn filled(rt: HostRuntime) -> Result<(), Fail> {
    let text: &[u8] = b"24 5 : 3 70\n";
    let Ok(read) = read_filled(text) else {
        return Err(Fail::new("no line"));
    };
    assert_eq!(rt; read.kind(), 24);
    let Some(Line::FixingPrice { price }) = read.line else {
        return Err(Fail::new("another kind"));
    };
    assert_eq!(rt; number(price), Some(5));
    assert_eq!(rt; number(read.reply), Some(3));
    assert_eq!(rt; number(read.result), Some(70));
    let Ok(again) = rewrite(Sort::Filled, text) else {
        return Err(Fail::new("no line"));
    };
    assert_eq!(rt; again.kind, 24);
    assert!(rt; again.numbers.as_slice() == [5, 3, 70].as_slice());
    Ok(())
}

#[test]
fn filled_of_a_faulty_line(rt: HostRuntime) -> Result<(), Fail> {
    let text: &[u8] = b"99 : 2 66\n";
    let Ok(read) = read_filled(text) else {
        return Err(Fail::new("no line"));
    };
    assert!(rt; read.line.is_none());
    assert_eq!(rt; number(read.result), Some(66));
    let Ok(again) = rewrite(Sort::Filled, text) else {
        return Err(Fail::new("no line"));
    };
    assert_eq!(rt; again.kind, 99);
    assert!(rt; again.numbers.as_slice() == [2, 66].as_slice());
    Ok(())
}

#[test]
fn no_such_line(rt: HostRuntime) {
    assert!(rt; Line::FixingPrice { price: b"05" }.numbers().is_none());
    assert!(rt; write_numbers(Line::Cut.kind(), &[], answer(100_000_000, 0)).is_none());
    assert!(rt; write_numbers(Line::Cut.kind(), &[], answer(0, 100_000_000)).is_none());
    assert!(rt; write_faulty(100_000_000).is_none());
    assert!(rt; write_numbers(14, &[1], answer(0, 0)).is_none());
    assert!(rt; write_numbers(24, &[], answer(0, 0)).is_none());
    assert!(rt; write_numbers(24, &[100_000_000], answer(0, 0)).is_none());
    assert!(rt; write_input_numbers(99, &[]).is_none());
}

#[test]
fn from_numbers(rt: HostRuntime) -> Result<(), Fail> {
    let faulty = write_faulty(66).ok_or("no text")?;
    assert!(rt; faulty.as_bytes() == b"99 : 2 66\n".as_slice());
    let filled = write_numbers(15, &[3, 99_999_999], answer(10, 0)).ok_or("no text")?;
    assert!(rt; filled.as_bytes() == b"15 3 99999999 : 10 0\n".as_slice());
    let input = write_input_numbers(27, &[]).ok_or("no text")?;
    assert!(rt; input.as_bytes() == b"27\n".as_slice());
    Ok(())
}

#[test]
fn numbers_of_a_trade(rt: HostRuntime) -> Result<(), Fail> {
    let Ok(line) = read_input(b"13 1 2 3 4 5 6 1200\n") else {
        return Err(Fail::new("no line"));
    };
    assert_eq!(rt; line.kind(), 13);
    let numbers = line.numbers().ok_or("no numbers")?;
    assert!(rt; numbers.as_slice() == [1, 2, 3, 4, 5, 6, 1200].as_slice());
    let text = write_numbers(13, numbers.as_slice(), answer(0, 9)).ok_or("no text")?;
    assert!(rt; text.as_bytes() == b"13 1 2 3 4 5 6 1200 : 0 9\n".as_slice());
    Ok(())
}

#[test]
fn no_such_answer(rt: HostRuntime) {
    assert!(rt; write_numbers(28, &[], answer(100_000_000, 0)).is_none());
    assert!(rt; write_numbers(28, &[], answer(0, 100_000_000)).is_none());
}

#[test]
fn faulty_from_numbers(rt: HostRuntime) -> Result<(), Fail> {
    let faulty = write_numbers(99, &[], answer(2, 66)).ok_or("no text")?;
    assert!(rt; faulty.as_bytes() == b"99 : 2 66\n".as_slice());
    Ok(())
}

#[test]
fn filled_in_place(rt: HostRuntime) {
    let mut text = Text::new();
    assert!(rt; text.as_bytes() == b"".as_slice());
    fill(&mut text, INPUT[21], answer(99_999_999, 99_999_999));
    assert!(rt; text.as_bytes() == FILLED[5]);
    fill(&mut text, b"15 3 2\n", answer(10, 0));
    assert!(rt; text.as_bytes() == b"15 3 2 : 10 0\n".as_slice());
    fill_faulty(&mut text, 66);
    assert!(rt; text.as_bytes() == b"99 : 2 66\n".as_slice());
    fill(&mut text, b"", answer(0, 1));
    assert!(rt; text.as_bytes() == b" : 0 1\n".as_slice());
    fill(&mut text, &[b'x'; 200], answer(0, 1));
    assert!(rt; text.as_bytes() == [b'x'; 170].as_slice());
}

#[test]
fn fields_are_numbers(rt: HostRuntime) {
    assert_eq!(rt; number(b"0"), Some(0));
    assert_eq!(rt; number(b"99999999"), Some(99_999_999));
    assert_eq!(rt; number(b""), None);
    assert_eq!(rt; number(b"00"), None);
    assert_eq!(rt; number(b"100000000"), None);
    assert_eq!(rt; number(b"1 "), None);
}

#[test]
fn first_row(rt: HostRuntime) {
    let rows = [
        Row { kind: 7, fields: 1 },
        Row { kind: 9, fields: 2 },
        Row { kind: 9, fields: 3 },
    ];
    assert_eq!(rt; find(&rows, 9), Some(1));
    assert_eq!(rt; find(&rows, 8), None);
}

#[test]
fn statement(rt: HostRuntime) -> Result<(), Fail> {
    let text: &[u8] = b"1 2 3 0 10 9999999999999999 0 123456789012 0 10002\n";
    let Ok(line) = read_statement(text) else {
        return Err(Fail::new("no line"));
    };
    assert_eq!(rt; line.contracts, 10);
    assert_eq!(rt; line.shares_received, 9_999_999_999_999_999);
    assert_eq!(rt; line.settlement_day, 10_002);
    let again = write_statement(&line).ok_or("no text")?;
    assert!(rt; again.as_bytes() == text);
    let long = StatementLine {
        money_received: 10_000_000_000_000_000,
        ..line
    };
    assert!(rt; write_statement(&long).is_none());
    Ok(())
}
