// Tests of the crates, as their users call them.
#![tactic(auto)]

#[cfg(test)]
mod dispatchers;
#[cfg(test)]
mod lines;
#[cfg(test)]
mod lists;
#[cfg(test)]
mod random_lists;
#[cfg(test)]
mod sessions;
#[cfg(test)]
mod tables;
