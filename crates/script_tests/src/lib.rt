//! Worked rows of extracts and of the lines of a script.
#![tactic(auto)]

#[cfg(test)]
mod extract_texts;
#[cfg(test)]
mod extracts;
#[cfg(test)]
mod rows;
#[cfg(test)]
mod script_lines;
