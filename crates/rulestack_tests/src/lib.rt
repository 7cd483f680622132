// Tests of `sheet_rules`, `ruleset`, `folders` and `rulestack` against docs/MEANING.md. What they expect is worked out
// from that page by hand.
#![tactic(auto)]

#[cfg(test)]
mod algebra;
#[cfg(test)]
mod beside;
#[cfg(test)]
mod build;
#[cfg(test)]
mod clauses;
#[cfg(test)]
mod closures;
#[cfg(test)]
mod each_entry;
#[cfg(test)]
mod expect;
#[cfg(test)]
mod files;
#[cfg(test)]
mod noted;
#[cfg(test)]
mod projections;
#[cfg(test)]
mod steps;
#[cfg(test)]
mod tables;
#[cfg(test)]
mod told;
#[cfg(test)]
mod worked;
