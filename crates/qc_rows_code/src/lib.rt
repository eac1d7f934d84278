//! Rows on templates, by public calls alone.
#![tactic(auto)]

#[cfg(test)]
mod templates;
