//! Tests of tables, of the namespace, of resource descriptors and of routes, over the public calls
//! of their crates alone. They stand in a crate of their own, since a crate with tests is proved
//! twice.
#![tactic(auto)]

#[cfg(test)]
mod dead_externals;
#[cfg(test)]
mod namespace;
#[cfg(test)]
mod paths;
#[cfg(test)]
mod resources;
#[cfg(test)]
mod tables;
#[cfg(test)]
mod writers;
