// What policies name, on lists of ready steps.
#![tactic(auto)]

#[cfg(test)]
mod changing;
#[cfg(test)]
mod naming;
