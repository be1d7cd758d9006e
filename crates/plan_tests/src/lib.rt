// Plans and timetables, on examples.
#![tactic(auto)]

#[cfg(test)]
mod enumerated;
#[cfg(test)]
mod extremes;
#[cfg(test)]
mod planned;
#[cfg(test)]
mod timetables;
#[cfg(test)]
mod worked;
