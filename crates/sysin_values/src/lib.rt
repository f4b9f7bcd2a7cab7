//! The values of SYSIN operands.
#![tactic(auto)]

mod criteria;
mod fault;
mod laws;
mod names;
mod outputs;
mod pairs;
mod patterns;
mod place;
mod waiting;
mod words;

pub use criteria::CriteriaList;
pub use fault::ValueFault;
pub use laws::{list_laws, name_laws, other_laws, word_laws};
pub use names::NewNames;
pub use outputs::OutputList;
pub use pairs::PairList;
pub use patterns::PatternList;
pub use place::{PairPlace, WaitPlace};
pub use waiting::WaitNumbers;
pub use words::{dd_name_of, name_of, number_within, pattern_of, prefix_of, serial_of};
