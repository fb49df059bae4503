// Results as words in lent lists.

#![tactic(auto)]

pub mod lists;
pub mod record;
pub mod table;
