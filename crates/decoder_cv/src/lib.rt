//! The settings of a locomotive decoder: its configuration variables CV1, CV17, CV18 and CV29 (NMRA
//! S-9.2.2), given one by one or in a list of any variables.
//!
//! The tests are in `library_tests/src/test_decoder_cv.rt`.
#![tactic(auto)]

mod cv_fault;
mod cv_pair;
mod cv_set;
pub mod laws;
mod list;

pub use cv_fault::CvFault;
pub use cv_pair::CvPair;
pub use cv_set::CvSet;
pub use laws::{lists_are_sets, long_lists_are_refused, order_is_free, others_have_no_effect};
