//! Tests that cross the library's crates: whole ranges, lists beside their exact runs, rasters of
//! many sizes, scripts that are read from one device and painted on another, and the values that
//! examples of the docs say.
#![tactic(auto)]

#[cfg(test)]
mod bounds;
#[cfg(test)]
mod callers;
#[cfg(test)]
mod channels;
#[cfg(test)]
mod devices;
#[cfg(test)]
mod exact;
#[cfg(test)]
mod examples;
#[cfg(test)]
mod hues;
#[cfg(test)]
mod kinds;
#[cfg(test)]
mod lists;
#[cfg(test)]
mod no_points;
#[cfg(test)]
mod operators;
#[cfg(test)]
mod pictures;
#[cfg(test)]
mod random_lists;
#[cfg(test)]
mod rasters;
#[cfg(test)]
mod reports;
#[cfg(test)]
mod sizes;
#[cfg(test)]
mod tables;
