//! The modules of a list of files, and the instances of a design.
//!
//! Modules are numbered from 0 over the files in text order. A module's name means the first module
//! of that name in any file (IEEE 1800-2017, 23.2, 23.3). Tops are the modules that none
//! instantiates; the instances of a design are listed in preorder, tops and children in text order,
//! each with its full name (23.3.1, 23.6). Rule 1 refuses a second module of one name, at the name;
//! rule 2 an instance of an unknown module, at the module's name in the instance; rule 3 the 1,001st
//! instance, where its module is named. Rule 2 also refuses an item that stands on a cycle, one whose
//! instance would contain one of the same item again, at the module's name in it. Such items are left
//! out before tops are found and instances listed; an item that only leads to a cycle stays. Files
//! count from 0, tokens from 0 in their file. Want of memory is the one other answer.
//!
//! Where all modules stand behind those that they instantiate, or all before them, items are looked at
//! twice each. Else an item may be searched from alone: then the time is at worst the square of the
//! number of items.
//!
//! Stated in `specs/`: `Modules` (the list, names and rule 1), `Instances` (rule 2 on names, and what
//! each module instantiates), `Cycles` (rule 2 on cycles), `Tops`, and `Preorder` (the instances, rule 3,
//! and how many levels are enough).
#![tactic(auto)]

mod cycles;
mod instances;
mod laws;
mod modules;
mod preorder;
mod tops;

pub use cycles::without_cycles;
pub use instances::{all_children, module_children, note_unknown};
pub use laws::levels_suffice;
pub use modules::{Numbers, Placed, modules_of, numbers_of};
pub use preorder::{Child, Instance, MOST_INSTANCES, instances_of};
pub use tops::tops_of;
