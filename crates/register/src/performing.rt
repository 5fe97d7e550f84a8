// Kept: fields that each call gets (book, source, lines) are parameters: a struct of three borrows would stand in each
// clause with what lies behind them.
ghost use Rattle.std.specs.Prelude.{◌≡◌, List, ◌∷◌, length};
ghost use Rattle.std.specs.List.{AllByRecursion};
ghost use Rattle.book.specs.declared.pass.Pass.TheVariants.{ForInput, ForCut, ForAssigned};
ghost use Rattle.draws.specs.Replies.{replied};
ghost use Rattle.settlement.specs.Lines.{written};
ghost use Rattle.ledger.specs.declared.state.Opening.{Opening};
ghost use Rattle.ledger.specs.Replies.{reply_of};
ghost use Rattle.register.specs.Register.{input_answer, exercise_answer, answer, Brief, Fits, Entry, entry, Leads};
ghost use Rattle.register.specs.Examples.{Examples};
ghost use Rattle.register.specs.Law.{Law};

use crate::calls::{Call, Done, ExerciseCall, InputCall};
use book::{AssignedPass, Book, CutPass, InputPass, Pass};
use draws::Draws;
use ledger::Refusal;
use settlement::Line;

// What a call answers, with the pass that is good after it.
fn answered(pass: Pass, reply: Result<u32, Refusal>) -> Done
    ensures { result ≡ record { pass = pass; reply = reply } }
{
    Done { pass, reply }
}

// A call of the input stage under its pass.
fn input_call(book: &mut Book, pass: &InputPass, call: &InputCall) -> Result<u32, Refusal>
    ensures reply { result ≡ (input_answer book.old.state pass.now call.now).reply }
    ensures after { book.new.state ≡ (input_answer book.old.state pass.now call.now).state }
{
    match call {
        InputCall::AddAccount { participant, code } => book.account(pass, *participant, *code),
        InputCall::ListSeries {
            right,
            strike,
            expiry,
        } => book.series(pass, *right, *strike, *expiry),
        InputCall::BookTrade(t) => book.trade(pass, t),
        InputCall::TransferTrade { leg, account } => book.trade_transfer(pass, *leg, *account),
        InputCall::GiveUpLeg { leg, participant } => book.give_up(pass, *leg, *participant),
        InputCall::TakeUpLeg {
            leg,
            answer,
            account,
        } => book.take_up(pass, *leg, *answer, *account),
        InputCall::TransferPosition(t) => book.position_transfer(pass, t),
    }
}

// A call on requests, criteria, the fixing price or collateral under its pass.
fn exercise_call(book: &mut Book, pass: &InputPass, call: &ExerciseCall) -> Result<u32, Refusal>
    ensures reply { result ≡ (exercise_answer book.old.state pass.now call.now).reply }
    ensures after { book.new.state ≡ (exercise_answer book.old.state pass.now call.now).state }
{
    match call {
        ExerciseCall::RequestExercise {
            account,
            series,
            quantity,
        } => book.request(pass, *account, *series, *quantity),
        ExerciseCall::RejectRequest { request } => book.reject_request(pass, *request),
        ExerciseCall::SetCriterion {
            account,
            right,
            form,
            value,
        } => book.criterion(pass, *account, *right, *form, *value),
        ExerciseCall::DenyExercise {
            account,
            series,
            quantity,
        } => book.deny(pass, *account, *series, *quantity),
        ExerciseCall::FixPrice { price } => book.fixing_price(pass, *price),
        ExerciseCall::LodgeShares { account, shares } => book.lodge(pass, *account, *shares),
        ExerciseCall::WithdrawShares { account, shares } => book.withdraw(pass, *account, *shares),
        ExerciseCall::CloseTrading => book.close_trading(pass),
    }
}

// Any call under an Input pass.
fn under_input<S: Draws>(
    book: &mut Book,
    source: &mut S,
    lines: &mut [Line],
    pass: InputPass,
    call: &Call,
) -> Done
    ensures reply { result.reply ≡ (answer book.old.state (S.meaning source.old) (length lines.old) (ForInput pass) call.now).reply }
    ensures pass { result.pass ≡ (answer book.old.state (S.meaning source.old) (length lines.old) (ForInput pass) call.now).pass }
    ensures book { book.new.state ≡ (answer book.old.state (S.meaning source.old) (length lines.old) (ForInput pass) call.now).state }
    ensures source { S.meaning source.new ≡ (answer book.old.state (S.meaning source.old) (length lines.old) (ForInput pass) call.now).source }
    ensures lines { lines.new ≡ written lines.old 0 (answer book.old.state (S.meaning source.old) (length lines.old) (ForInput pass) call.now).lines }
{
    match call {
        Call::OfInput(c) => {
            let reply = input_call(book, &pass, c);
            answered(Pass::ForInput(pass), reply)
        }
        Call::OfExercise(c) => {
            let reply = exercise_call(book, &pass, c);
            answered(Pass::ForInput(pass), reply)
        }
        Call::CutOff => match book.cut(pass) {
            Ok(next) => answered(Pass::ForCut(next), Ok(0)),
            Err((pass, refusal)) => answered(Pass::ForInput(pass), Err(refusal)),
        },
        _ => answered(Pass::ForInput(pass), Err(Refusal::PassMisfit)),
    }
}

// Any call under a Cut pass.
fn under_cut<S: Draws>(
    book: &mut Book,
    source: &mut S,
    lines: &mut [Line],
    pass: CutPass,
    call: &Call,
) -> Done
    ensures reply { result.reply ≡ (answer book.old.state (S.meaning source.old) (length lines.old) (ForCut pass) call.now).reply }
    ensures pass { result.pass ≡ (answer book.old.state (S.meaning source.old) (length lines.old) (ForCut pass) call.now).pass }
    ensures book { book.new.state ≡ (answer book.old.state (S.meaning source.old) (length lines.old) (ForCut pass) call.now).state }
    ensures source { S.meaning source.new ≡ (answer book.old.state (S.meaning source.old) (length lines.old) (ForCut pass) call.now).source }
    ensures lines { lines.new ≡ written lines.old 0 (answer book.old.state (S.meaning source.old) (length lines.old) (ForCut pass) call.now).lines }
{
    match call {
        Call::Assign => match book.assign(source, pass) {
            Ok((next, used)) => answered(Pass::ForAssigned(next), Ok(used)),
            Err((pass, refusal)) => answered(Pass::ForCut(pass), Err(refusal)),
        },
        _ => answered(Pass::ForCut(pass), Err(Refusal::PassMisfit)),
    }
}

// Any call under an Assigned pass.
fn under_assigned<S: Draws>(
    book: &mut Book,
    source: &mut S,
    lines: &mut [Line],
    pass: AssignedPass,
    call: &Call,
) -> Done
    ensures reply { result.reply ≡ (answer book.old.state (S.meaning source.old) (length lines.old) (ForAssigned pass) call.now).reply }
    ensures pass { result.pass ≡ (answer book.old.state (S.meaning source.old) (length lines.old) (ForAssigned pass) call.now).pass }
    ensures book { book.new.state ≡ (answer book.old.state (S.meaning source.old) (length lines.old) (ForAssigned pass) call.now).state }
    ensures source { S.meaning source.new ≡ (answer book.old.state (S.meaning source.old) (length lines.old) (ForAssigned pass) call.now).source }
    ensures lines { lines.new ≡ written lines.old 0 (answer book.old.state (S.meaning source.old) (length lines.old) (ForAssigned pass) call.now).lines }
{
    match call {
        Call::GiveStatement => {
            let reply = book.statement(&pass, lines);
            answered(Pass::ForAssigned(pass), reply)
        }
        Call::BeginDay(day) => match book.next_day(pass, *day) {
            Ok(next) => answered(Pass::ForInput(next), Ok(0)),
            Err((pass, refusal)) => answered(Pass::ForAssigned(pass), Err(refusal)),
        },
        _ => answered(Pass::ForAssigned(pass), Err(Refusal::PassMisfit)),
    }
}

fn dispatch<S: Draws>(
    book: &mut Book,
    source: &mut S,
    lines: &mut [Line],
    pass: Pass,
    call: &Call,
) -> Done
    ensures reply { result.reply ≡ (answer book.old.state (S.meaning source.old) (length lines.old) pass call.now).reply }
    ensures pass { result.pass ≡ (answer book.old.state (S.meaning source.old) (length lines.old) pass call.now).pass }
    ensures book { book.new.state ≡ (answer book.old.state (S.meaning source.old) (length lines.old) pass call.now).state }
    ensures source { S.meaning source.new ≡ (answer book.old.state (S.meaning source.old) (length lines.old) pass call.now).source }
    ensures lines { lines.new ≡ written lines.old 0 (answer book.old.state (S.meaning source.old) (length lines.old) pass call.now).lines }
{
    match pass {
        Pass::ForInput(p) => under_input(book, source, lines, p, call),
        Pass::ForCut(p) => under_cut(book, source, lines, p, call),
        Pass::ForAssigned(p) => under_assigned(book, source, lines, p, call),
    }
}

/// Makes any call under any pass; an assignment draws from the source, a statement is written into the list from its
/// first place on. A register that leads to the book before leads, with this call's entry, to the book after, and the
/// law holds of every register. A refusal stands in the reply, and leaves book, pass, source and list as they were.
pub fn perform<S: Draws>(
    book: &mut Book,
    source: &mut S,
    lines: &mut [Line],
    pass: Pass,
    call: &Call,
) -> Done
    ensures reply { result.reply ≡ (answer book.old.state (S.meaning source.old) (length lines.old) pass call.now).reply }
    ensures number { replied reply_of result.reply ≡ replied reply_of (answer book.old.state (S.meaning source.old) (length lines.old) pass call.now).reply }
    ensures pass { result.pass ≡ (answer book.old.state (S.meaning source.old) (length lines.old) pass call.now).pass }
    ensures book { book.new.state ≡ (answer book.old.state (S.meaning source.old) (length lines.old) pass call.now).state }
    ensures source { S.meaning source.new ≡ (answer book.old.state (S.meaning source.old) (length lines.old) pass call.now).source }
    ensures lines { lines.new ≡ written lines.old 0 (answer book.old.state (S.meaning source.old) (length lines.old) pass call.now).lines }
    ensures register { (o : Opening) (g : List Entry) → Leads o g book.old.state → Leads o (entry pass call.now (S.meaning source.old) (S.meaning source.new) (length lines.old) (answer book.old.state (S.meaning source.old) (length lines.old) pass call.now).lines result.reply ∷ g) book.new.state }
    ensures brief { Brief (replied reply_of result.reply) }
    ensures fits { AllByRecursion Fits (answer book.old.state (S.meaning source.old) (length lines.old) pass call.now).lines }
    ensures law { Law }
    ensures examples { Examples }
{
    dispatch(book, source, lines, pass, call)
}
