use crate::input::Order;
use crate::report::report_of;
use anyhow::anyhow;
use std::alloc::Global;
use std::io;
use std::io::Read;

/// The most bytes of input that are read.
pub const INPUT: u64 = 65_536;

/// What is printed of the allocation that the input asks for: draw by draw, or why it was turned back.
///
/// # Errors
///
/// Input that can't be read, that is longer than `INPUT` bytes, or that has a line at fault; and want of memory. Nothing is
/// answered to a part of the input.
pub fn answer_to<R: Read + Drop>(heap: Global, input: R) -> anyhow::Result<String> {
    let text = io::read_to_string(heap, input.take(INPUT + 1))?;
    if text.len() as u64 > INPUT {
        return Err(anyhow!("the input is longer than 65,536 bytes"));
    }
    let order = Order::parse(heap, text.as_str())?;
    report_of(heap, &order)
}
