// Tests of the sheet, its calls and refusals; and small networks and sheets compared with a plain enumeration of their sets and states.
#![tactic(auto)]

#[cfg(test)]
mod agreement;
#[cfg(test)]
mod calls;
#[cfg(test)]
mod cases;
#[cfg(test)]
mod changes;
#[cfg(test)]
mod draws;
#[cfg(test)]
mod enumeration;
#[cfg(test)]
mod every_goal;
#[cfg(test)]
mod families;
#[cfg(test)]
mod goal_refusals;
#[cfg(test)]
mod layouts;
#[cfg(test)]
mod opening;
#[cfg(test)]
mod pieces;
#[cfg(test)]
mod possible;
#[cfg(test)]
mod refusals;
#[cfg(test)]
mod sheets;
#[cfg(test)]
mod three_depots;
#[cfg(test)]
mod unchanged;
