// Lines and words of a text: where a line ends, its words, and the numbers and bytes that words write.
#![tactic(auto)]

pub mod lines; // lines.rt: where lines end, and what is not read yet
pub mod words; // words.rt: the words of a line, numbers and bytes
