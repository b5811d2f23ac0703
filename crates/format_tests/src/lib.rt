// Books, tracks and lines at their edges.
#![tactic(auto)]

#[cfg(test)]
mod buffers;
#[cfg(test)]
mod lines;
#[cfg(test)]
mod loading;
#[cfg(test)]
mod parts;
#[cfg(test)]
mod samples;
#[cfg(test)]
mod tracks;
#[cfg(test)]
mod writing;
