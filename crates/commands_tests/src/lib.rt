// Tests of `commands`, and of the line of a `FileFault`, against docs/COMMANDS.md and docs/REFUSALS.md. What they expect is
// worked out from those pages by hand.
#![tactic(auto)]

#[cfg(test)]
mod cutting;
#[cfg(test)]
mod expect;
#[cfg(test)]
mod faults;
#[cfg(test)]
mod parsing;
#[cfg(test)]
mod replies;
