//! What a statement says.

use ckd_image::Listed;
use job_lines::Message;

/// Messages in the order in which they are printed.
pub type Messages = Listed<Message>;

/// The messages of a statement, and its condition code: that of the gravest message.
#[derive(Debug, Drop)]
pub struct Report {
    pub messages: Messages,
    pub code: u8,
}
