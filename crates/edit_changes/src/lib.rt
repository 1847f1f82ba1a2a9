//! What an edit does, said once: a decision, which refuses it or names the change that it makes, and what that change does to a drawing.
//!
//! It stands on the definitions of `drawing`. It promises that Step is the decision and
//! then the change, that a decided change has the facts that laws need of it, and that a law which each change keeps holds in
//! every accepted history. No code here runs.
#![tactic(auto)]

mod laws;

pub use laws::{changes_law, ids_law, order_law, plain_law, vertices_law};
