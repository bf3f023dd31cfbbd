//! Tests of what is read, files of scripts and the words of a call, as far as no answer to whole scripts shows it, which the rows
//! of `script_rows` have. They are a crate of their own, so that no library is proved twice.
#![tactic(auto)]

#[cfg(test)]
mod base;
#[cfg(test)]
mod calls;
#[cfg(test)]
mod interfaces;
#[cfg(test)]
mod parsed_calls;
#[cfg(test)]
mod system_files;
#[cfg(test)]
mod values;
#[cfg(test)]
mod words;
