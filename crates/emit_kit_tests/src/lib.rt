// Tests of the builder, apart from it, since a crate with tests is proved twice. What a call makes of the parts and bodies
// is proved; that it finds memory shows here, as does the time that many parts take.
#![tactic(auto)]

#[cfg(test)]
mod calls;
#[cfg(test)]
mod fixture;
#[cfg(test)]
mod many;
#[cfg(test)]
mod whole;
