//! Tests of straight calls, over plain words: each does what the machine does.
#![tactic(auto)]

#[cfg(test)]
mod actors;
#[cfg(test)]
mod aged;
#[cfg(test)]
mod bodies;
#[cfg(test)]
mod floors;
#[cfg(test)]
mod goings;
#[cfg(test)]
mod margins;
#[cfg(test)]
mod meetings;
#[cfg(test)]
mod plain_lines;
#[cfg(test)]
mod polls;
#[cfg(test)]
mod rivals;
#[cfg(test)]
mod scripts;
#[cfg(test)]
mod sides;
#[cfg(test)]
mod stores;
#[cfg(test)]
mod twins;
#[cfg(test)]
mod wrongs;
