use allocation_text::Order;
use std::alloc::Global;
use std::process::Abort;
use std::test::Fail;

fn parsed(heap: Global, text: &str) -> anyhow::Result<()> {
    let _order = Order::parse(heap, text)?;
    Ok(())
}

// The text is turned back with these words.
fn refused(rt: &impl Abort, heap: Global, text: &str, why: &str) -> Result<(), Fail> {
    match parsed(heap, text) {
        Ok(()) => Err(Fail::new("it was read")),
        Err(error) => {
            assert_eq!(rt; format!(in heap; "{error}")?.as_str(), why);
            Ok(())
        },
    }
}

#[test]
fn reads_an_order(rt: HostRuntime) -> Result<(), Fail> {
    let text = "# four lines\n\nshorts 5 4\n exercised 7 \nblock 3\ntape\n\n";
    let order = Order::parse(rt.alloc(), text)?;
    assert_eq!(rt; order.shorts.as_slice(), [5, 4].as_slice());
    assert_eq!(rt; order.exercised, 7);
    assert_eq!(rt; order.block, 3);
    assert_eq!(rt; order.tape.len(), 0);
    Ok(())
}

#[test]
fn names_the_line(rt: HostRuntime) -> Result<(), Fail> {
    let heap = rt.alloc();
    refused(&rt, heap, "", "line 1: expected the line 'shorts'")?;
    refused(
        &rt,
        heap,
        "shorts 1\nblock 1\n",
        "line 2: expected the line 'exercised'",
    )?;
    refused(
        &rt,
        heap,
        "shorts\nexercised 1 2\n",
        "line 2: 'exercised' takes one number",
    )?;
    refused(
        &rt,
        heap,
        "shorts\n\n# no\nexercised\n",
        "line 4: 'exercised' takes one number",
    )?;
    refused(
        &rt,
        heap,
        "shorts 1 x\n",
        "line 1: 'x' is no number from 0 to 4,294,967,295",
    )?;
    refused(
        &rt,
        heap,
        "shorts 4294967296\n",
        "line 1: '4294967296' is no number from 0 to 4,294,967,295",
    )?;
    refused(
        &rt,
        heap,
        "shorts\nexercised 0\nblock 1\ntape\ntape\n",
        "line 5: nothing may follow the line 'tape'",
    )
}

#[test]
fn keeps_at_most_1024_numbers(rt: HostRuntime) -> Result<(), Fail> {
    let heap = rt.alloc();
    let mut text = String::from_str(heap, "shorts")?;
    for _ in 0..1_024 {
        text.push_str(" 1")?;
    }
    refused(
        &rt,
        heap,
        text.as_str(),
        "line 2: expected the line 'exercised'",
    )?;
    text.push_str(" 1")?;
    refused(&rt, heap, text.as_str(), "line 1: more than 1,024 numbers")
}

#[test]
fn passes_over_a_line_of_blanks(rt: HostRuntime) -> Result<(), Fail> {
    let heap = rt.alloc();
    let order = Order::parse(
        heap,
        "shorts 5\n   \n \t \nexercised 1\n  # no\nblock 3\ntape 0\n",
    )?;
    assert_eq!(rt; order.shorts.as_slice(), [5].as_slice());
    assert_eq!(rt; order.block, 3);
    refused(
        &rt,
        heap,
        "   \nshorts 5\n  \nblock 3\n",
        "line 4: expected the line 'exercised'",
    )
}
