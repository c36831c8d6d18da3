// Runs that are given a number of turns: how they are put together, and that more turns only go further.
#![tactic(auto)]
