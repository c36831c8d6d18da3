/// A run: what it shows of the rules, a module, a script, how many turns there are, and what is printed of the events. The
/// lines follow from the standard's rules and were worked out by hand.
pub struct Row {
    pub shows: &'static str,
    pub module: &'static [u8],
    pub script: &'static str,
    pub turns: u64,
    pub printed: &'static str,
}
