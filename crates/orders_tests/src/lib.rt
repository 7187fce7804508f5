// Tests of the crate orders. They stand in a crate of their own, so that orders is not proved a second time with them.
#![tactic(auto)]

#[cfg(test)]
mod days;
#[cfg(test)]
mod lines;
