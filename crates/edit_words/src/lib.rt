//! The printed words of edits, answers, rules and parts of rows.
//!
//! It stands on `topo_io` for decimals and on `script_model` for the texts. It promises that what is appended
//! is exactly the definition's text. Whole rows are left to `table_print`.
#![tactic(auto)]

mod edits;
mod replies;
#[cfg(test)]
mod tests;
mod words;

pub use edits::edit_text;
pub use replies::{reply_text, rule_text};
pub use words::{
    push_count_word, push_dart_word, push_element, push_line, push_number_word, push_option_word,
    push_point, push_word,
};
