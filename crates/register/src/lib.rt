// Any call of a day book under any pass, the register of such calls, the balance counted from it, and the law that
// holders and writers stay equal whatever is called.
#![tactic(auto)]

mod calls;
mod opening;
mod performing;

pub use calls::{Call, Done, ExerciseCall, InputCall};
pub use ledger::Opening;
pub use opening::open;
pub use performing::perform;
