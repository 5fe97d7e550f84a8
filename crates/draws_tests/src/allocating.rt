use allocation::{Unassigned, allocate};
use draws::{Draws, Tape};
use std::process::Abort;

// The list is 0 to 4 of account 1 and 5 to 8 of account 2. From 8 on: one of account 2, two of account 1. Then 3 and 3
// remain; from 4 on: two of account 2, one of account 1. Then 2 and 1 remain; from 2 on: one of account 2.
#[test]
fn worked_example(rt: HostRuntime) {
    let numbers = [8, 4, 2, 9];
    let mut tape = Tape::new(&numbers);
    let mut assigned = [7, 7];
    assert_eq!(rt; allocate(&mut tape, &[5, 4], 7, 3, &mut assigned), Ok(3));
    assert_eq!(rt; assigned, [3, 4]);
    assert_eq!(rt; tape.supply(), 1);
}

#[test]
fn nothing_exercised_draws_nothing(rt: HostRuntime) {
    let mut tape = Tape::new(&[]);
    let mut assigned = [7, 7];
    assert_eq!(rt; allocate(&mut tape, &[5, 4], 0, 1, &mut assigned), Ok(0));
    assert_eq!(rt; assigned, [0, 0]);
}

// Turned back with this cause, nothing assigned and nothing drawn.
fn turned_back(rt: &impl Abort, shorts: &[u32], exercised: u32, block: u32, cause: Unassigned) {
    let numbers = [8, 4];
    let mut tape = Tape::new(&numbers);
    let mut assigned = [7, 7];
    assert_eq!(rt;
        allocate(&mut tape, shorts, exercised, block, &mut assigned),
        Err(cause)
    );
    assert_eq!(rt; assigned, [7, 7]);
    assert_eq!(rt; tape.supply(), 2);
}

#[test]
fn causes(rt: HostRuntime) {
    turned_back(&rt, &[5], 1, 1, Unassigned::PlacesDiffer);
    turned_back(&rt, &[100_000, 1], 1, 1, Unassigned::TooManyShorts);
    turned_back(&rt, &[5, 4], 7, 0, Unassigned::BlockOutOfRange);
    turned_back(&rt, &[5, 4], 7, 1_001, Unassigned::BlockOutOfRange);
    turned_back(&rt, &[5, 4], 10, 1, Unassigned::TooManyExercised);
    turned_back(&rt, &[5, 4], 7, 3, Unassigned::DrawsShort(3));
}

#[test]
fn at_most_64_accounts(rt: HostRuntime) {
    let mut tape = Tape::new(&[0]);
    let mut assigned = [0; 65];
    let found = allocate(&mut tape, &[1; 65], 1, 1, &mut assigned);
    assert_eq!(rt; found, Err(Unassigned::TooManyAccounts));
    assert_eq!(rt;
        allocate(&mut tape, &[1; 64], 1, 1, &mut assigned[0..64]),
        Ok(1)
    );
}
