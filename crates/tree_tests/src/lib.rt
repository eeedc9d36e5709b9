//! Tests of the proof tree, beside a plain replay of lists of events, and of several workers on it,
//! each in a thread. And of what a call leaves that the tree refuses for want of memory. There is no
//! code here.
#![tactic(auto)]

#[cfg(test)]
mod calls;
#[cfg(test)]
mod chance;
#[cfg(test)]
mod comparing;
#[cfg(test)]
mod directed;
#[cfg(test)]
mod endings;
#[cfg(test)]
mod events;
#[cfg(test)]
mod gates;
#[cfg(test)]
mod lists;
#[cfg(test)]
mod refused;
#[cfg(test)]
mod replay;
#[cfg(test)]
mod state;
#[cfg(test)]
mod systems;
#[cfg(test)]
mod trial;
#[cfg(test)]
mod workers;
