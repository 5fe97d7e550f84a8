// A statement that has more lines than places. The host has 256, so this one is asked of the book itself.
use book::Book;
use draws::{Reply, Tape};
use ledger::{Opening, Trade};
use settlement::{Line, Method, Role};
use std::test::Fail;

const PLACE: Line = Line {
    series: 9,
    account: 9,
    role: Role::Exerciser,
    method: Method::Other,
    contracts: 9,
    shares_received: 9,
    shares_delivered: 9,
    money_paid: 9,
    money_received: 9,
    settlement_day: 9,
};

const OPENING: Opening = Opening {
    number: 7,
    day: 100,
    size: 100,
    block: 5,
};

const TRADE: Trade = Trade {
    series: 1,
    buyer: 1,
    buyer_effect: 1,
    seller: 1,
    seller_effect: 1,
    quantity: 1,
    price: 1,
};

// One account exercises a contract and is assigned it: two lines.
#[test]
fn places_too_few(rt: HostRuntime) -> Result<(), Fail> {
    let Ok(opened) = Book::open(&OPENING) else {
        return Err(Fail::new("no book"));
    };
    let (mut book, input) = opened;
    assert!(rt; book.account(&input, 11, 4).is_ok());
    assert!(rt; book.series(&input, 1, 50_000, 105).is_ok());
    assert!(rt; book.trade(&input, &TRADE).is_ok());
    assert!(rt; book.request(&input, 1, 1, 1).is_ok());
    let Ok(cut) = book.cut(input) else {
        return Err(Fail::new("no cut"));
    };
    let mut tape = Tape::new(&[0]);
    let Ok((assigned, _)) = book.assign(&mut tape, cut) else {
        return Err(Fail::new("no assignment"));
    };
    let mut one = [PLACE; 1];
    let Err(refusal) = book.statement(&assigned, &mut one) else {
        return Err(Fail::new("a statement in one place"));
    };
    assert_eq!(rt;
        Reply::from(refusal),
        Reply {
            number: 17,
            result: 2,
        }
    );
    assert_eq!(rt; one[0].contracts, 9);
    let mut two = [PLACE; 2];
    assert!(rt; book.statement(&assigned, &mut two).is_ok());
    assert_eq!(rt; (two[0].contracts, two[1].contracts), (1, 1));
    Ok(())
}
