//! Tests of what files of text say: bytes, lists, names and numbers, words and statements, bit fields, the plain types of
//! definitions, and both files of configuration, which are refused and why, and what they define. They stand above these crates, so
//! that none of them is proved a second time for them.
#![tactic(auto)]

#[cfg(test)]
mod bits;
#[cfg(test)]
mod bytes;
#[cfg(test)]
mod decimal;
#[cfg(test)]
mod definition_files;
#[cfg(test)]
mod definition_types;
#[cfg(test)]
mod keys;
#[cfg(test)]
mod letters;
#[cfg(test)]
mod list;
#[cfg(test)]
mod name;
#[cfg(test)]
mod print;
#[cfg(test)]
mod reader;
#[cfg(test)]
mod site_files;
#[cfg(test)]
mod starts;
#[cfg(test)]
mod statement_words;
#[cfg(test)]
mod texts;
#[cfg(test)]
mod whole;
#[cfg(test)]
mod words;
