// Tests of `host_kit` and of the calls of `num_core` with ample memory, in a crate of their own, since a crate with tests is
// proved twice. What a call answers is proved to be the definition's, so a definition that is not the form's, or not the
// standard's, shows as a wrong row.
#![tactic(auto)]

#[cfg(test)]
mod files;
#[cfg(test)]
mod fitting;
#[cfg(test)]
mod forms;
#[cfg(test)]
mod modules;
#[cfg(test)]
mod numbers;
#[cfg(test)]
mod scripts;
#[cfg(test)]
mod texts;
