// Kept: three types of the same fields, so that no call takes another stage's pass; marker types would be three more.
/// The right to the calls of the input stage of one book on one day.
#[derive(Drop)]
pub struct InputPass {
    pub(crate) number: u32,
    pub(crate) day: u32,
}

/// The right to the assignment.
// Kept: as `InputPass`.
#[derive(Drop)]
pub struct CutPass {
    pub(crate) number: u32,
    pub(crate) day: u32,
}

/// The right to statements and to the next day.
// Kept: as `InputPass`.
#[derive(Drop)]
pub struct AssignedPass {
    pub(crate) number: u32,
    pub(crate) day: u32,
}

/// A pass of any stage.
#[derive(Drop)]
pub enum Pass {
    ForInput(InputPass),
    ForCut(CutPass),
    ForAssigned(AssignedPass),
}
