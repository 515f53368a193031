// What each command does, by its byte. The definitions are in specs/.
#![tactic(auto)]

pub mod blocks;
mod commands;
