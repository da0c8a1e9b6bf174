//! Tests of regions and of fields.
#![tactic(auto)]

#[cfg(test)]
mod buffer_fields;
#[cfg(test)]
mod field_sums;
#[cfg(test)]
mod fields;
#[cfg(test)]
mod logs;
#[cfg(test)]
mod refusals;
#[cfg(test)]
mod regions;
