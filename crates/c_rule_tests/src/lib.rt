//! Texts of C with what its rules say of them: what each rule refuses, and what checked files tell of
//! functions, objects, names and types (ISO C17, 6.2 to 6.9, 7.21.6).
#![tactic(auto)]

#[cfg(test)]
mod calls;
#[cfg(test)]
mod check;
#[cfg(test)]
mod facts;
#[cfg(test)]
mod forms;
#[cfg(test)]
mod functions;
#[cfg(test)]
mod initial;
#[cfg(test)]
mod judge;
#[cfg(test)]
mod library;
#[cfg(test)]
mod lookup;
#[cfg(test)]
mod meanings;
#[cfg(test)]
mod printf;
#[cfg(test)]
mod program;
#[cfg(test)]
mod read;
#[cfg(test)]
mod typing;
#[cfg(test)]
mod walk;
