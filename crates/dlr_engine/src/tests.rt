//! What no clause says: that operations are answered, and that an object's history comes out at the end. Expected
//! answers were worked out by hand.
mod asking;
mod binder_rules;
mod cases;
mod each_operation;
mod meeting;
mod meeting_language;
mod pairs;
mod shared_members;
mod sharing;
mod workers;
