use draws::{Draws, Generator, Recorder, Refusal, Reply, Tape};

#[test]
fn tape_is_read_from_its_start(rt: HostRuntime) {
    let numbers = [8, 14, 2];
    let mut tape = Tape::new(&numbers);
    assert_eq!(rt; tape.supply(), 3);
    assert_eq!(rt; tape.draw(9), Ok(8));
    assert_eq!(rt; tape.draw(0), Err(Refusal::ZeroBound));
    assert_eq!(rt; tape.supply(), 2);
    assert_eq!(rt; tape.draw(5), Ok(4));
    assert_eq!(rt; tape.draw(1), Ok(0));
    assert_eq!(rt; tape.supply(), 0);
    assert_eq!(rt; tape.draw(1), Err(Refusal::NoSupply));
    assert_eq!(rt; tape.draw(0), Err(Refusal::ZeroBound));
}

// The states from 42 on, by state * 6364136223846793005 + 1442695040888963407 modulo 2^64, have these upper halves:
// 2440530669, 968358053, 1773127077.
#[test]
fn generator_follows_its_rule(rt: HostRuntime) {
    let mut whole = Generator::new(42, 2);
    assert_eq!(rt; whole.draw(4294967295), Ok(2440530669));
    assert_eq!(rt; whole.draw(4294967295), Ok(968358053));
    assert_eq!(rt; whole.draw(4294967295), Err(Refusal::NoSupply));
    let mut parts = Generator::new(42, 3);
    assert_eq!(rt; parts.draw(10), Ok(9));
    assert_eq!(rt; parts.draw(0), Err(Refusal::ZeroBound));
    assert_eq!(rt; parts.draw(100), Ok(53));
    assert_eq!(rt; parts.draw(1000), Ok(77));
    assert_eq!(rt; parts.supply(), 0);
}

// From the largest state the product wraps at once: the upper half of the next state is 3149104977.
#[test]
fn generator_wraps(rt: HostRuntime) {
    let mut source = Generator::new(18446744073709551615, 1);
    assert_eq!(rt; source.draw(4294967295), Ok(3149104977));
}

#[test]
fn recorder_reads_back_what_was_drawn(rt: HostRuntime) {
    let numbers = [8, 14, 2];
    let mut recorder = Recorder::new(Tape::new(&numbers));
    assert_eq!(rt; recorder.supply(), 3);
    assert_eq!(rt; recorder.draw(9), Ok(8));
    assert_eq!(rt; recorder.draw(0), Err(Refusal::ZeroBound));
    assert_eq!(rt; recorder.draw(5), Ok(4));
    let (tape, table) = recorder.into_parts();
    assert_eq!(rt; tape.supply(), 1);
    assert_eq!(rt; table.free(), 254);
    let pairs = table.recorded();
    assert!(rt; pairs.len() == 2);
    assert_eq!(rt; (pairs[0].bound, pairs[0].answer), (9, 8));
    assert_eq!(rt; (pairs[1].bound, pairs[1].answer), (5, 4));
}

#[test]
fn recorder_has_room_for_256(rt: HostRuntime) {
    let mut recorder = Recorder::new(Generator::new(1, 300));
    assert_eq!(rt; recorder.supply(), 256);
    for _ in 0..256 {
        assert!(rt; recorder.draw(7).is_ok());
    }
    assert_eq!(rt; recorder.draw(7), Err(Refusal::NoSupply));
    let (generator, table) = recorder.into_parts();
    assert_eq!(rt; generator.supply(), 44);
    assert_eq!(rt; table.recorded().len(), 256);
}

#[test]
fn refusals_have_their_numbers(rt: HostRuntime) {
    assert_eq!(rt;
        Reply::from(Refusal::ZeroBound),
        Reply {
            number: 3,
            result: 0,
        }
    );
    assert_eq!(rt;
        Reply::from(Refusal::NoSupply),
        Reply {
            number: 16,
            result: 1,
        }
    );
}
