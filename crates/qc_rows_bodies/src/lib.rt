//! Rows on expressions that functions make large or deep, by public calls alone.
#![tactic(auto)]

#[cfg(test)]
mod chains;
#[cfg(test)]
mod made;
