//! Tests that aren't rows of `timefd_test_rows`: of values that no text spells, of memory that is refused, of long
//! texts, and of borrowed values. They have a crate of their own, since a crate with tests is proved twice,
//! with them and without.
#![tactic(auto)]

#[cfg(test)]
mod answers;
#[cfg(test)]
mod borrowed;
#[cfg(test)]
mod builder;
#[cfg(test)]
mod copies;
#[cfg(test)]
mod deprecated;
#[cfg(test)]
mod faults;
#[cfg(test)]
mod items;
#[cfg(test)]
mod joining;
#[cfg(test)]
mod large;
#[cfg(test)]
mod lint_files;
#[cfg(test)]
mod modern;
#[cfg(test)]
mod modifiers;
#[cfg(test)]
mod printed;
#[cfg(test)]
mod refused_copies;
#[cfg(test)]
mod refused_memory;
#[cfg(test)]
mod reservation;
#[cfg(test)]
mod trees;
#[cfg(test)]
mod unspelled;
