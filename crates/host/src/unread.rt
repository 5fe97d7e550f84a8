ghost use Rattle.std.specs.Prelude.{◌≡◌, []};
ghost use Rattle.draws.specs.Replies.{replied};
ghost use Rattle.ledger.specs.Replies.{reply_of};
ghost use Rattle.host.specs.Numbers.{unread_of, number_reply, with_number, last};

use few::Few;
use ledger::Refusal;

// How many numbers are held at most.
const PLACES: usize = 1_024;

// Tape numbers that no assignment has read, the oldest first.
#[derive(Drop)]
pub struct Unread {
    numbers: Few<u32, PLACES>,
}

impl Unread {
    pub(crate) fn new() -> Unread
        ensures { unread_of result ≡ [] }
    {
        Unread {
            numbers: Few::new(0),
        }
    }

    pub(crate) fn numbers(&self) -> &[u32]
        ensures { result.now ≡ unread_of self.now }
    {
        self.numbers.as_slice()
    }

    // Takes one more number, if there is room.
    pub(crate) fn push(&mut self, number: u32) -> Result<u32, Refusal>
        ensures reply { replied reply_of result ≡ number_reply (unread_of self.old) }
        ensures after { unread_of self.new ≡ with_number (unread_of self.old) number }
    {
        self.numbers
            .push(number)
            .map(|()| 0)
            .map_err(|_| Refusal::Full)
    }

    // Keeps the last `left` numbers.
    pub(crate) fn keep_last(&mut self, left: u64)
        ensures { unread_of self.new ≡ last left (unread_of self.old) }
    {
        self.numbers.keep_last(left as usize);
    }
}
