// Bench files: whether one is well made, and what each of its calls describes. Each function equals its definition in specs/.
#![tactic(auto)]

mod buffer;
mod head;
mod part;
mod table;

pub use buffer::lay;
pub use head::{describe, operations, plain};
pub use part::{after, first, word};
pub use table::{body_size, is_size_wrong, is_wrong};
