// Tests of the crate loans. They stand in a crate of their own, so that loans is not proved a second time with them.
#![tactic(auto)]

#[cfg(test)]
mod altered;
#[cfg(test)]
mod desk;
#[cfg(test)]
mod ends;
#[cfg(test)]
mod expected;
#[cfg(test)]
mod scripts;
#[cfg(test)]
mod tests;
#[cfg(test)]
mod turned;
