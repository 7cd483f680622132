// Tests of `rulefile`, `sheets` and `entries` against docs/FORMAT.md and docs/REFUSALS.md. What they expect is worked
// out from those pages by hand.
#![tactic(auto)]

#[cfg(test)]
mod build;
#[cfg(test)]
mod contents;
#[cfg(test)]
mod drafts;
#[cfg(test)]
mod edges;
#[cfg(test)]
mod examples;
#[cfg(test)]
mod expect;
#[cfg(test)]
mod order;
#[cfg(test)]
mod told;
#[cfg(test)]
mod view;
