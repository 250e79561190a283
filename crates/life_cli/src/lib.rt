//! The program `life` as a call, `top`: it makes and checks images, and runs scripts over them.
//!
//! `make IMAGE GROUPS BLOCKS RING` makes an image without a file. `check IMAGE` tells whether an image is sound, and else its first damage. `steps IMAGE` reads a script, runs its lines over the image, and writes a line for each.
#![tactic(auto)]

mod checking;
mod ending;
mod form;
mod input;
mod making;
mod output;
mod steps;
mod subset;
mod texts;
mod top_call;
mod words;

pub use checking::{Checked, Numbers, run_check};
pub use ending::Ended;
pub use form::{Form, read_form};
pub use making::run_make;
pub use output::write_whole;
pub use script::Status;
pub use steps::run_steps;
pub use texts::{print_check, print_made};
pub use top_call::top;
