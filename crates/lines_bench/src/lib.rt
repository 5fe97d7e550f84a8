// What the benchmark of `lines` calls from outside.
#![tactic(auto)]

use draws::Reply;
use lines::{Line, Text, fill, fill_faulty, number, read_input};

// A sum over the bytes in which each counts as often as its place says: the sums of the last bytes, all together.
fn checksum(bytes: &[u8]) -> u64 {
    let (sum, _) = bytes.iter().rev().fold((0u64, 0u64), |(sum, last), b| {
        let last = last.wrapping_add(u64::from(*b));
        (sum.wrapping_add(last), last)
    });
    sum
}

// The largest number of an archive line.
const LARGEST: u32 = 99_999_999;

// The sum of the numbers of some fields.
fn sum(fields: &[&[u8]]) -> u64 {
    fields.iter().fold(0u64, |sum, field| {
        sum.wrapping_add(number(*field).map_or(0, u64::from))
    })
}

// The sum of the numbers of a line.
fn sum_of(line: &Line<'_>) -> u64 {
    match *line {
        Line::Open {
            book,
            day,
            size,
            block,
        } => sum(&[book, day, size, block]),
        Line::Account {
            participant,
            account_type,
        } => sum(&[participant, account_type]),
        Line::Series {
            right,
            strike,
            expiry,
        } => sum(&[right, strike, expiry]),
        Line::Trade {
            series,
            buyer,
            buyer_effect,
            seller,
            seller_effect,
            quantity,
            price,
        } => sum(&[
            series,
            buyer,
            buyer_effect,
            seller,
            seller_effect,
            quantity,
            price,
        ]),
        Line::TradeTransfer { leg, account } => sum(&[leg, account]),
        Line::GiveUp { leg, participant } => sum(&[leg, participant]),
        Line::TakeUp {
            leg,
            answer,
            account,
        } => sum(&[leg, answer, account]),
        Line::PositionTransfer {
            from,
            to,
            series,
            side,
            quantity,
        } => sum(&[from, to, series, side, quantity]),
        Line::Request {
            account,
            series,
            quantity,
        } => sum(&[account, series, quantity]),
        Line::Reject { request } => sum(&[request]),
        Line::Criterion {
            account,
            right,
            form,
            value,
        } => sum(&[account, right, form, value]),
        Line::Denial {
            account,
            series,
            quantity,
        } => sum(&[account, series, quantity]),
        Line::FixingPrice { price } => sum(&[price]),
        Line::Lodge { account, shares } => sum(&[account, shares]),
        Line::Withdraw { account, shares } => sum(&[account, shares]),
        Line::TapeNumber { number } => sum(&[number]),
        Line::NextDay { day } => sum(&[day]),
        Line::CloseTrading | Line::Cut | Line::Assignment | Line::Statement => 0,
    }
}

// Makes the text the line's filled line, with result `res`, and answers the sum of the line's numbers; none where there
// is no such line.
fn filled(text: &mut Text, line: &[u8], res: u32) -> Option<u64> {
    match read_input(line) {
        Ok(read) => {
            let numbers = sum_of(&read);
            fill(
                text,
                line,
                Reply {
                    number: 0,
                    result: res,
                },
            );
            (res <= LARGEST).then_some(numbers)
        }
        Err(fault) => {
            fill_faulty(text, fault.start);
            Some(0)
        }
    }
}

// Reads every line of the buffer as an input line, writes it filled, and sums up its numbers and what was written.
#[unsafe(no_mangle)]
pub extern "C" fn lines_bench(buffer: &[u8], res: u32) -> u64 {
    let mut text = Text::new();
    let mut all: u64 = 0;
    let mut start = 0;
    while let Some(feed) = buffer[start..].iter().position(|b| *b == b'\n') {
        let end = start + feed + 1;
        if let Some(numbers) = filled(&mut text, &buffer[start..end], res) {
            all = all
                .wrapping_mul(31)
                .wrapping_add(checksum(text.as_bytes()))
                .wrapping_add(numbers);
        }
        start = end;
    }
    all
}
