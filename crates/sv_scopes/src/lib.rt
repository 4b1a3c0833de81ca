//! The scopes of a design, and the variables in them.
//!
//! A scope is an instance; scopes are numbered from 0 in preorder, tops and children in text order
//! (IEEE 1800-2017, 23.3, 23.6). A scope has its module's variables, each by itself (23.2.2); they
//! are numbered by scope, then in text order. Rules 1 to 3, on modules and instances, are noted while
//! the instances are found. Files count from 0, tokens from 0 in their file. Want of memory is the one
//! other answer.
//! Stated in `specs/`: `Instances` (rules 1 to 3, and the instances of modules), `Homes` (where modules
//! stand), `Scopes` and `Variables`.
#![tactic(auto)]

mod homes;
mod instances;
mod laws;
mod names;
mod scopes;
mod variables;

pub use homes::{Home, homes_of};
pub use instances::listed_instances;
pub use laws::modules_stand;
pub use scopes::{Scope, scopes_of};
pub use variables::{Variable, variables_of};
