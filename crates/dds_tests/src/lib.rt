// Tests of the crate dds. They stand in a crate of their own, so that dds is not proved a second time with them.
#![tactic(auto)]

#[cfg(test)]
mod expected;
#[cfg(test)]
mod heads;
#[cfg(test)]
mod tests;
