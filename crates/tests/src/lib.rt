// The layers by example. The tests stand in a crate of their own, over what the others make public:
// beside the code each crate would be proved once more, with its tests.
#![tactic(auto)]

#[cfg(test)]
mod boards;
#[cfg(test)]
mod bytes;
#[cfg(test)]
mod desks;
#[cfg(test)]
mod ends;
#[cfg(test)]
mod joined;
#[cfg(test)]
mod lent;
#[cfg(test)]
mod lines;
#[cfg(test)]
mod served;
#[cfg(test)]
mod ways;
