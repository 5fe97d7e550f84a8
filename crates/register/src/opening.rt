ghost use Rattle.std.specs.Prelude.{◌≡◌, [], IfOk};
ghost use Rattle.draws.specs.Replies.{replied};
ghost use Rattle.ledger.specs.Replies.{reply_of};
ghost use Rattle.book.specs.Opened.{opened, open_refusal, open_call};
ghost use Rattle.book.specs.Stages.{result_unless, told};
ghost use Rattle.register.specs.Register.{Brief, Leads};

use book::{Book, InputPass};
use ledger::{Opening, Refusal};

/// Opens a book, with its first pass. The register that has no call yet leads to the book; each call that `perform`
/// makes of it then adds an entry.
///
/// # Errors
/// `OutOfRange`.
#[tactic(auto, using(crate::proofs::BriefLaws::opening_brief, crate::proofs::RegisterLaws::empty_leads))]
pub fn open(o: &Opening) -> Result<(Book, InputPass), Refusal>
    ensures reply { opened result ≡ open_call o.now }
    ensures number { replied reply_of (told (λ b. 0) result) ≡ replied reply_of (result_unless (open_refusal o.now) 0) }
    ensures brief { Brief (replied reply_of (told (λ b. 0) result)) }
    ensures register { IfOk result (λ b. Leads o.now [] b.0.state) }
{
    Book::open(o)
}
