// Tables of examples for the calls of a rig.
#![tactic(auto)]

#[cfg(test)]
mod tests;
