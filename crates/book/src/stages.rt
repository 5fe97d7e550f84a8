ghost use Rattle.std.specs.Prelude.{◌≡◌, length};
ghost use Rattle.draws.specs.Checks.{passed};
ghost use Rattle.draws.specs.Replies.{replied};
ghost use Rattle.ledger.specs.Replies.{reply_of};
ghost use Rattle.settlement.specs.Lines.{written};
ghost use Rattle.dayend.specs.Cutoff.{cut};
ghost use Rattle.dayend.specs.Assignment.{needed, assigning, assigned_state};
ghost use Rattle.dayend.specs.Laws.{DaySettles, AssignmentRests};
ghost use Rattle.dayend.specs.Statement.{places_needed};
ghost use Rattle.dayend.specs.NextDay.{next_day};
ghost use Rattle.book.specs.Stages.{handed, kept_or, result_unless, told, cut_refusal, cut_pass, assignment_refusal, assigned_pass, statement_refusal, lines_written, next_day_refusal, next_pass};

use crate::book::Book;
use crate::pass::{AssignedPass, CutPass, InputPass};
use draws::Draws;
use ledger::Refusal;
use settlement::Line;

impl Book {
    // Why the cut is turned back, if it is.
    fn check_cut(&self, pass: &InputPass) -> Result<(), Refusal>
        ensures { result ≡ passed (cut_refusal self.now.state pass.now) }
    {
        self.admit(pass)?;
        dayend::check_cut(&self.ledger)
    }

    /// Ends the input stage: the pass is used up for a Cut pass, or handed back with the refusal.
    ///
    /// # Errors
    /// `PassMisfit`, `NoFixingPrice`: the first that holds, as for each call below.
    pub fn cut(&mut self, pass: InputPass) -> Result<CutPass, (InputPass, Refusal)>
        ensures reply { result ≡ handed (cut_refusal self.old.state pass) pass (cut_pass pass) }
        ensures number { replied (λ b. reply_of b.1) (told (λ p. 0) result) ≡ replied reply_of (result_unless (cut_refusal self.old.state pass) 0) }
        ensures after { self.new.state ≡ kept_or (cut_refusal self.old.state pass) self.old.state (cut self.old.state) }
    {
        // Kept: the pass goes back beside the refusal, so `?` has no conversion for it.
        if let Err(refusal) = self.check_cut(&pass) {
            return Err((pass, refusal));
        }
        dayend::cut(&mut self.ledger);
        let InputPass { number, day } = pass;
        Ok(CutPass { number, day })
    }

    // Why an assignment is turned back, if it is.
    fn check_assignment<S: Draws>(&self, pass: &CutPass, source: &S) -> Result<(), Refusal>
        ensures { result ≡ passed (assignment_refusal self.now.state pass.now (S.meaning source.now)) }
    {
        self.admit_cut(pass)?;
        dayend::check_assignment(&self.ledger, source)
    }

    /// Exercises what is due and assigns it by draw, and answers the draws used with an Assigned pass, or hands the pass
    /// back with the refusal. What is assigned rests on nothing of the source but its answers to the lists of bounds that
    /// its supply allows.
    ///
    /// # Errors
    /// `PassMisfit`, `DrawsShort` with the draws needed.
    #[tactic(auto, using(dayend::proofs::Laws::day_settles, dayend::proofs::Laws::assignment_rests))]
    pub fn assign<S: Draws>(
        &mut self,
        source: &mut S,
        pass: CutPass,
    ) -> Result<(AssignedPass, u32), (CutPass, Refusal)>
        ensures reply { result ≡ handed (assignment_refusal self.old.state pass (S.meaning source.old)) pass (assigned_pass pass, needed self.old.state) }
        ensures number { replied (λ b. reply_of b.1) (told (λ b. b.1) result) ≡ replied reply_of (result_unless (assignment_refusal self.old.state pass (S.meaning source.old)) (needed self.old.state)) }
        ensures after { self.new.state ≡ kept_or (assignment_refusal self.old.state pass (S.meaning source.old)) self.old.state (assigned_state self.old.state (S.meaning source.old)) }
        ensures source { S.meaning source.new ≡ kept_or (assignment_refusal self.old.state pass (S.meaning source.old)) (S.meaning source.old) (assigning self.old.state (S.meaning source.old)).source }
        ensures settles { DaySettles }
        ensures rests { AssignmentRests }
    {
        // Kept: as in `cut`.
        if let Err(refusal) = self.check_assignment(&pass, source) {
            return Err((pass, refusal));
        }
        let used = dayend::assign(&mut self.ledger, source);
        let CutPass { number, day } = pass;
        Ok((AssignedPass { number, day }, used))
    }

    /// Writes the statement into the list, from its first place on, and answers how many lines it has. Places past it are
    /// untouched.
    ///
    /// # Errors
    /// `PassMisfit`, `StatementShort` with the places needed.
    pub fn statement(&self, pass: &AssignedPass, lines: &mut [Line]) -> Result<u32, Refusal>
        ensures reply { result ≡ result_unless (statement_refusal self.now.state pass.now (length lines.old)) (places_needed self.now.state) }
        ensures number { replied reply_of result ≡ replied reply_of (result_unless (statement_refusal self.now.state pass.now (length lines.old)) (places_needed self.now.state)) }
        ensures lines { lines.new ≡ written lines.old 0 (lines_written self.now.state pass.now (length lines.old)) }
    {
        self.admit_assigned(pass)?;
        dayend::check_statement(&self.ledger, lines.len())?;
        Ok(dayend::write_statement(&self.ledger, lines))
    }

    // Why the next day is turned back, if it is.
    fn check_next_day(&self, pass: &AssignedPass, day: u32) -> Result<(), Refusal>
        ensures { result ≡ passed (next_day_refusal self.now.state pass.now day) }
    {
        self.admit_assigned(pass)?;
        dayend::check_next_day(&self.ledger.state, day)
    }

    /// Begins the next day: the pass is used up for an Input pass of that day, or handed back with the refusal.
    ///
    /// # Errors
    /// `PassMisfit`, `OutOfRange`, `DayNotLater`.
    pub fn next_day(
        &mut self,
        pass: AssignedPass,
        day: u32,
    ) -> Result<InputPass, (AssignedPass, Refusal)>
        ensures reply { result ≡ handed (next_day_refusal self.old.state pass day) pass (next_pass pass day) }
        ensures number { replied (λ b. reply_of b.1) (told (λ p. 0) result) ≡ replied reply_of (result_unless (next_day_refusal self.old.state pass day) 0) }
        ensures after { self.new.state ≡ kept_or (next_day_refusal self.old.state pass day) self.old.state (next_day self.old.state day) }
    {
        // Kept: as in `cut`.
        if let Err(refusal) = self.check_next_day(&pass, day) {
            return Err((pass, refusal));
        }
        dayend::next_day(&mut self.ledger.state, day);
        let AssignedPass { number, day: _ } = pass;
        Ok(InputPass { number, day })
    }
}
