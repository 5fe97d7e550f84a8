// Tests of the draw sources, of the allocation and of its text, worked by hand.
#![tactic(auto)]

#[cfg(test)]
mod allocating;
#[cfg(test)]
mod drawing;
#[cfg(test)]
mod reading;
#[cfg(test)]
mod reporting;
