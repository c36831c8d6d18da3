// Tests of the stages that keep each body as a function, apart from them, since a crate with tests is proved twice.
#![tactic(auto)]

#[cfg(test)]
mod nested;
#[cfg(test)]
mod pipeline;
#[cfg(test)]
mod taking;
