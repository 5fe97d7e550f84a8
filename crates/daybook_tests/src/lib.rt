// Tests of the day book, worked by hand: several days through its host, and a statement with too few places.
#![tactic(auto)]

#[cfg(test)]
mod days;
#[cfg(test)]
mod places;
