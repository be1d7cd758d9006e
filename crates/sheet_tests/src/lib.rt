// What sheets and job files do, on examples.
#![tactic(auto)]

#[cfg(test)]
mod drafting;
#[cfg(test)]
mod leasts;
#[cfg(test)]
mod listings;
#[cfg(test)]
mod reading;
#[cfg(test)]
mod records;
#[cfg(test)]
mod sheets;
#[cfg(test)]
mod skewed;
#[cfg(test)]
mod worked;
#[cfg(test)]
mod writing;
