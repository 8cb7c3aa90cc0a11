// Trials of the loader, the reading calls and the changes. What they expect is worked out by hand from the rules of a dump.
//
// In the texts a frame reads so:
//   01 Q count v v ..   02 X H   03 d D   04 class number class number w   05
// with a count or class of two digits and every other field of four.
#![tactic(auto)]

#[cfg(test)]
mod accepted;
#[cfg(test)]
mod changes;
#[cfg(test)]
mod figures;
#[cfg(test)]
mod limits;
#[cfg(test)]
mod loads;
#[cfg(test)]
mod refusals;
