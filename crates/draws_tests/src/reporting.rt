use allocation_text::{INPUT, Order, answer_to, report_of};
use std::alloc::Global;
use std::process::Abort;
use std::test::Fail;

fn shows(rt: &impl Abort, heap: Global, text: &str, shown: &str) -> Result<(), Fail> {
    let order = Order::parse(heap, text)?;
    match report_of(heap, &order) {
        Ok(found) => {
            assert_eq!(rt; found.as_str(), shown);
            Ok(())
        },
        Err(error) => Err(Fail::new(error)),
    }
}

#[test]
fn says_why_it_is_turned_back(rt: HostRuntime) -> Result<(), Fail> {
    let heap = rt.alloc();
    shows(
        &rt,
        heap,
        "shorts 5 4\nexercised 7\nblock 3\ntape 8 4\n",
        "turned back: 3 draws are needed, and 2 are at hand\n",
    )?;
    shows(
        &rt,
        heap,
        "shorts 5 4\nexercised 10\nblock 3\ntape\n",
        "turned back: more contracts exercised than are short\n",
    )?;
    shows(
        &rt,
        heap,
        "shorts 5 4\nexercised 7\nblock 0\ntape\n",
        "turned back: the block is not from 1 to 1,000 contracts\n",
    )?;
    shows(
        &rt,
        heap,
        "shorts 5 4\nexercised 7\nblock 1001\ntape\n",
        "turned back: the block is not from 1 to 1,000 contracts\n",
    )?;
    shows(
        &rt,
        heap,
        "shorts 60000 40001\nexercised 7\nblock 3\ntape\n",
        "turned back: more than 100,000 short contracts\n",
    )
}

#[test]
fn takes_at_most_64_accounts(rt: HostRuntime) -> Result<(), Fail> {
    let heap = rt.alloc();
    let mut shorts = String::from_str(heap, "shorts")?;
    for _ in 0..64 {
        shorts.push_str(" 1")?;
    }
    let order = "\nexercised 65\nblock 3\ntape\n";
    shows(
        &rt,
        heap,
        format!(in heap; "{shorts}{order}")?.as_str(),
        "turned back: more contracts exercised than are short\n",
    )?;
    shows(
        &rt,
        heap,
        format!(in heap; "{shorts} 1{order}")?.as_str(),
        "turned back: more than 64 accounts\n",
    )
}

// An order with nothing exercised, behind a comment that makes it as long as that.
fn of_length(heap: Global, length: u64) -> Result<String, Fail> {
    let order = "\nshorts\nexercised 0\nblock 1\ntape\n";
    let mut text = String::new(heap);
    for _ in (order.len() as u64)..length {
        text.push('#')?;
    }
    text.push_str(order)?;
    Ok(text)
}

#[test]
fn reads_all_of_the_input_or_nothing(rt: HostRuntime) -> Result<(), Fail> {
    let heap = rt.alloc();
    let text = of_length(heap, INPUT)?;
    let report = answer_to(heap, text.as_bytes())?;
    assert!(rt; report.ends_with("draws used: 0\n"));
    let text = of_length(heap, INPUT + 1)?;
    match answer_to(heap, text.as_bytes()) {
        Ok(_) => Err(Fail::new("it was read")),
        Err(error) => {
            assert_eq!(rt;
                format!(in heap; "{error}")?.as_str(),
                "the input is longer than 65,536 bytes"
            );
            Ok(())
        },
    }
}

#[test]
fn records_at_most_256_draws(rt: HostRuntime) -> Result<(), Fail> {
    let heap = rt.alloc();
    let mut text = String::from_str(heap, "shorts 300\nexercised 257\nblock 1\ntape")?;
    for _ in 0..300 {
        text.push_str(" 0")?;
    }
    shows(
        &rt,
        heap,
        text.as_str(),
        "turned back: 257 draws are needed, and 256 are at hand\n",
    )
}
