// Trials of the books of checks and of the engine, with a kind of book of their own. What they expect is worked out by hand from the rules:
// an assignment gives each flip-flop a domain, the need of a check stands in the row of the domain of its start and the column of that of its
// end, and the period of an assignment is the largest of the floor and all needs.
#![tactic(auto)]

#[cfg(test)]
mod answers;
#[cfg(test)]
mod bindings;
#[cfg(test)]
mod cases;
mod constant;
#[cfg(test)]
mod drafts;
#[cfg(test)]
mod fills;
#[cfg(test)]
mod kinds;
#[cfg(test)]
mod large;

pub use constant::ConstantBook;
