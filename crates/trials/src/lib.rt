// Trials of the counting device. What each call has to answer is taken from docs/RULES.md.
#![tactic(auto)]

#[cfg(test)]
mod helpers;
#[cfg(test)]
mod invalid;
#[cfg(test)]
mod lives;
#[cfg(test)]
mod obstacles;
#[cfg(test)]
mod writes;
