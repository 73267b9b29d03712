//! Profiles: how often each place of an image was counted for one event, and the bytes in which a profile is stored.
//!
//! The bytes are numbers of `var_bytes`, one after the other, and their format is stated in `database_model`.
//! A profile has one spelling, what was written is read again, and bytes that tell no profile are refused at their first
//! bad field.
#![tactic(auto)]

mod laws;
mod profiles;
mod reading;
mod writing;

pub use database_model::ProfileRow;
pub use laws::{
    profile_begins_no_other, profile_spelled_once, profiles_have_spellings, read_rows_rise,
};
pub use profiles::Profile;
pub use reading::read_profile;
pub use var_bytes::FormError as ProfileError;
pub use writing::write_profile;
