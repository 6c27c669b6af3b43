//! Credentials, the evidence that a client gives for them, and the check of the one against the other.
//!
//! **A [`Checked`] keeps in its type that each of its verdicts is the one of the rule of fitting on the
//! look that was checked.** Multifactor logins follow the MySQL 8.0 Reference Manual, "Multifactor
//! Authentication"; an account has one or two passwords for its first factor ("Dual Password Support")
//! and a label for each further factor. Below stand the method crates `native_scramble`, `caching_sha2`
//! and `sha256_crypt`, and `lg_base`.
#![tactic(auto)]

pub mod checking;
pub mod credentials;
pub mod evidence_list;

pub use checking::{Checked, all_fit_on, check, fit_on, fits_password, known_fits};
pub use credentials::{Credential, InForce, Look, Method, PastRecord, Stored};
pub use evidence_list::{Evidence, Evidences, Fit};
