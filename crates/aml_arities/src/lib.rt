//! How many arguments names take that tables declare as others' methods (ACPI 6.5, 19.6.46,
//! External).
//!
//! Rooms: `external` has a declaration, `counted` what declarations tell of paths, `answered` what
//! searches find of it.
#![tactic(auto)]

mod answered;
mod counted;
mod external;

pub use answered::Answered;
pub use counted::Counted;
pub use external::External;
