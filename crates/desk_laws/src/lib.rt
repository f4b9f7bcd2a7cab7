//! What holds of requests whatever reads them: a law.
#![tactic(auto)]

mod laws;

pub use laws::request_laws;
