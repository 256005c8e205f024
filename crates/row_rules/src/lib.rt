// Whether a type in the table may have a value or a member more, and the size of an array.
#![tactic(auto)]

pub mod member;
pub mod name;
pub mod product;
pub mod value;
