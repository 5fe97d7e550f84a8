// Tests of the archive writer over writers and readers that fail, interrupt, and take or give a few bytes at a time.
#![tactic(auto)]

#[cfg(test)]
mod fakes;
#[cfg(test)]
mod pieces;
#[cfg(test)]
mod readers;
#[cfg(test)]
mod rows;
#[cfg(test)]
mod writers;
