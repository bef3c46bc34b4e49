//! The input and output of the program: streams of queries and answers, and the files of the
//! folders of a release.
#![tactic(auto)]

mod fault;
mod folder;
mod input;
mod laws;
mod output;
mod output_buffer;
mod system;
mod traversal;

pub use crate::fault::{AnswerFault, IoFault};
pub use crate::folder::FolderSource;
pub use crate::input::{QueryInput, StreamInput};
pub use crate::laws::no_name_is_listed_twice;
pub use crate::output::{AnswerOutput, StreamOutput, write_all};
pub use crate::output_buffer::OutputBuffer;
pub use crate::system::{FolderSystem, Standing, names_at, open_plain_at, standing_at};
