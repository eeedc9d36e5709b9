//! Tests of what the program does not show of texts and of its edge: calls that only other callers
//! make, printed texts, limits that no text of the examples meets, completion and its order texts, the
//! sample systems, shelves and sinks, items and words. There is no code here.
#![tactic(auto)]

#[cfg(test)]
mod broken;
#[cfg(test)]
mod certifying;
#[cfg(test)]
mod completing;
#[cfg(test)]
mod items;
#[cfg(test)]
mod named_systems;
#[cfg(test)]
mod printed_certificates;
#[cfg(test)]
mod problems;
#[cfg(test)]
mod samples;
#[cfg(test)]
mod shelves;
#[cfg(test)]
mod version_two;
#[cfg(test)]
mod words;
