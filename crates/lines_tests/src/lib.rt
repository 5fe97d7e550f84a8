// Tests of `lines`: faulty lines with the length of their longest start, worked out by hand, and lines read and written.
#![tactic(auto)]

#[cfg(test)]
mod faulty;
#[cfg(test)]
mod written;
