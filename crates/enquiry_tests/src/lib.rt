// Tests of `listing`, `calls`, `enquiry` and `file_enquiry`. What they expect is worked out by hand, or found by asking
// the rule about every build.
#![tactic(auto)]

#[cfg(test)]
mod between;
#[cfg(test)]
mod build;
#[cfg(test)]
mod closing;
#[cfg(test)]
mod every_build;
#[cfg(test)]
mod expect;
#[cfg(test)]
mod noted;
#[cfg(test)]
mod opening;
#[cfg(test)]
mod order;
#[cfg(test)]
mod portions;
#[cfg(test)]
mod recorded;
#[cfg(test)]
mod running;
#[cfg(test)]
mod settled;
#[cfg(test)]
mod steps;
#[cfg(test)]
mod words;
