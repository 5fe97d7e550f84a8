ghost use Rattle.std.specs.Prelude.{◌≡◌, [], ◌∷◌};
ghost use Rattle.draws.specs.Checks.{checked};
ghost use Rattle.ledger.specs.declared.refusal.Refusal.TheVariants.{PassMisfit};
ghost use Rattle.book.specs.Calls.{fits, fits_input};
ghost use Rattle.book.specs.Stages.{fits_cut, fits_assigned};

use crate::book::Book;
use crate::pass::{AssignedPass, CutPass, InputPass};
use ledger::{Refusal, Stage};

impl Book {
    // Turns back a pass that is not of the stage that the book is in, of this book and of this day.
    fn admit_at(&self, stage: Stage, number: u32, day: u32) -> Result<(), Refusal>
        ensures { result ≡ checked ((fits stage self.now.state number day, PassMisfit) ∷ []) }
    {
        let state = &self.ledger.state;
        if state.stage == stage && number == state.terms.number && day == state.day {
            Ok(())
        } else {
            Err(Refusal::PassMisfit)
        }
    }

    // Kept: one line each; one function for the three needs a trait with an impl for each pass.
    pub(crate) fn admit(&self, pass: &InputPass) -> Result<(), Refusal>
        ensures { result ≡ checked ((fits_input self.now.state pass.now, PassMisfit) ∷ []) }
    {
        self.admit_at(Stage::Input, pass.number, pass.day)
    }

    pub(crate) fn admit_cut(&self, pass: &CutPass) -> Result<(), Refusal>
        ensures { result ≡ checked ((fits_cut self.now.state pass.now, PassMisfit) ∷ []) }
    {
        self.admit_at(Stage::Cut, pass.number, pass.day)
    }

    pub(crate) fn admit_assigned(&self, pass: &AssignedPass) -> Result<(), Refusal>
        ensures { result ≡ checked ((fits_assigned self.now.state pass.now, PassMisfit) ∷ []) }
    {
        self.admit_at(Stage::Assigned, pass.number, pass.day)
    }
}
