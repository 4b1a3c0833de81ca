//! Trees of both languages with what the rules of linking say of them, and what linked files call
//! (IEEE 1800-2017, 35.4 and 35.5).
#![tactic(auto)]

#[cfg(test)]
mod agree;
#[cfg(test)]
mod boundary;
#[cfg(test)]
mod items;
#[cfg(test)]
mod linked;
#[cfg(test)]
mod links;
