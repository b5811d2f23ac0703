// What the library answers on examples: marks worked by hand, the house table, every refusal at its edges,
// rings that are no fields, and every mark of small fields against brute force.
#![tactic(auto)]

#[cfg(test)]
mod brute;
#[cfg(test)]
mod case;
#[cfg(test)]
mod day;
#[cfg(test)]
mod edges;
#[cfg(test)]
mod house;
#[cfg(test)]
mod own_field;
#[cfg(test)]
mod shown;
#[cfg(test)]
mod unlawful;
#[cfg(test)]
mod worked;
