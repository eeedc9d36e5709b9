//! Tests of terms, systems, steps, reachable terms, unifiers, caps, peaks and orders: calls that only
//! other callers make, and limits that no text of the examples meets. And of the searches and the
//! finders: that each finds something, and that a stop is seen before the first attempt. And of what
//! a call leaves that a pool of terms refuses for want of memory. There is no code here.
//! (tests/beside-plain-prover compares what steps, peaks, pairs, their graph and usable rules lead
//! to, what is found, that there is nothing, and spent budgets with a plain prover, on many
//! systems.)
#![tactic(auto)]

#[cfg(test)]
mod caps;
#[cfg(test)]
mod exploding;
#[cfg(test)]
mod lettered;
#[cfg(test)]
mod loops;
#[cfg(test)]
mod made;
#[cfg(test)]
mod of_orders;
#[cfg(test)]
mod of_peaks;
#[cfg(test)]
mod orders;
#[cfg(test)]
mod peaks;
#[cfg(test)]
mod reaching;
#[cfg(test)]
mod refused;
#[cfg(test)]
mod searches;
#[cfg(test)]
mod spaces;
#[cfg(test)]
mod steps;
#[cfg(test)]
mod stops;
#[cfg(test)]
mod systems;
#[cfg(test)]
mod terms;
#[cfg(test)]
mod texts;
#[cfg(test)]
mod unifying;
