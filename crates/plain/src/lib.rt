#![tactic(auto)]

// A second implementation of the library, from its documents alone: naive, on the heap, with no theorem.
// It is an executable model to run beside the first one; nothing is shared between the two.
pub mod lines;
pub mod meeting;
pub mod net;
pub mod runs;
pub mod seams;
pub mod stack;
pub mod texts;
pub mod words;
