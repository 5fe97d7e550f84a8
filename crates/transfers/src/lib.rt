// What moves legs and positions between accounts: the checks of each call and what it does.
#![tactic(auto)]

mod moves;

pub use moves::{
    Rebooking, check_give_up, check_position, check_take_up, check_transfer, give_up,
    move_position, take_up, transfer,
};
