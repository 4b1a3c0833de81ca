//! Trees of SystemVerilog with what its rules say of them: what each rule refuses, and what checked
//! files tell of instances, names and types (IEEE 1800-2017, 6 to 13, 21, 23, 35).
#![tactic(auto)]

#[cfg(test)]
mod check;
#[cfg(test)]
mod contexts;
#[cfg(test)]
mod design;
#[cfg(test)]
mod facts;
#[cfg(test)]
mod formals;
#[cfg(test)]
mod forms;
#[cfg(test)]
mod inside;
#[cfg(test)]
mod instances;
#[cfg(test)]
mod judge;
#[cfg(test)]
mod lookup;
#[cfg(test)]
mod meanings;
#[cfg(test)]
mod names;
#[cfg(test)]
mod read;
#[cfg(test)]
mod scopes;
#[cfg(test)]
mod shapes;
