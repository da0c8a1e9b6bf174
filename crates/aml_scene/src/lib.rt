//! Where a method's body stands, and what is done with values where they stand, which evaluators
//! share.
//!
//! Rooms: `scene` is where a body stands, `halt` why a running evaluation ends and how a method
//! does, `steps` its steps; `own` what names mean; `rules` and `interfaces` rules over values;
//! `standing` operands that are left where they stand, `grow` and `index` what changes in place.
#![tactic(auto)]

pub mod grow;
pub mod halt;
pub mod index;
pub mod interfaces;
pub mod own;
pub mod rules;
pub mod scene;
pub mod standing;
pub mod steps;
