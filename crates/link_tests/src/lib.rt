//! Worked sessions of a link, event by event, connections that are lost at each byte, peers that keep no rule, and refused memory: tests that
//! call what anybody can call.
#![tactic(auto)]

#[cfg(test)]
mod acts;
#[cfg(test)]
mod asserts;
#[cfg(test)]
mod deferred;
#[cfg(test)]
mod deferred_tests;
#[cfg(test)]
mod ends;
#[cfg(test)]
mod hostile;
#[cfg(test)]
mod idle_tests;
#[cfg(test)]
mod limit_tests;
#[cfg(test)]
mod loss_tests;
#[cfg(test)]
mod losses;
#[cfg(test)]
mod machine_a;
#[cfg(test)]
mod memory;
#[cfg(test)]
mod sessions;
#[cfg(test)]
mod spinning;
#[cfg(test)]
mod spinning_tests;
#[cfg(test)]
mod told;
#[cfg(test)]
mod worked;
#[cfg(test)]
mod worked_tests;
