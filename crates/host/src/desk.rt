ghost use Rattle.std.specs.Prelude.{◌≡◌, Some};
ghost use Rattle.draws.specs.Replies.{replied};
ghost use Rattle.ledger.specs.Replies.{reply_of};
ghost use Rattle.register.specs.Register.{Brief};
ghost use Rattle.host.specs.Numbers.{unread_of};
ghost use Rattle.host.specs.Steps.{call_step};

use crate::places::Places;
use crate::unread::Unread;
use book::{Book, Pass};
use draws::{Draws, Reply, Tape};
use ledger::Refusal;
use register::{Call, Done, Opening, perform};

// Number and result of an answer.
// Kept: neither the result nor the reply is this crate's type, so this is no From.
pub(crate) fn reply_of(answer: Result<u32, Refusal>) -> Reply
    ensures { result ≡ replied reply_of answer }
{
    match answer {
        Ok(result) => Reply { number: 0, result },
        Err(refusal) => refusal.into(),
    }
}

// A book that nothing can be called of, since its pass is let go.
pub(crate) fn idle() -> Book {
    let first = Opening {
        number: 1,
        day: 1,
        size: 1,
        block: 1,
    };
    let Ok((book, _)) = register::open(&first) else {
        unreachable!()
    };
    book
}

// Makes a call of the open book, with the pass that is good then: an assignment reads its numbers from the unread ones,
// a statement is written into the places.
#[tactic(auto, using(crate::proofs::Fitting::written_fits))]
pub(crate) fn make(
    book: &mut Book,
    pass: Pass,
    unread: &mut Unread,
    places: &mut Places,
    call: &Call,
) -> Done
    ensures reply { replied reply_of result.reply ≡ (call_step (book.old.state, pass) (unread_of unread.old) places.old.lines call.now).reply }
    ensures after { record { desk = Some (book.new.state, result.pass); unread = unread_of unread.new; places = places.new.lines } ≡ (call_step (book.old.state, pass) (unread_of unread.old) places.old.lines call.now).after }
    ensures brief { Brief (replied reply_of result.reply) }
{
    let mut source = Tape::new(unread.numbers());
    let done = perform(book, &mut source, &mut places.lines, pass, call);
    let left = source.supply();
    unread.keep_last(left);
    done
}
