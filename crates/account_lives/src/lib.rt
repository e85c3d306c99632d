//! An account's life: all that it was asked and answered, from the making of its file on. Laws speak
//! of it (`account_laws`), and files, rounds and the server keep it going.
#![tactic(auto)]

ghost use Rattle.account_lives.specs.Lives.{LivesGoOn, LivesLeaveOne};

/// Law: a life goes on, as what leads on from what a life left is more of that life. And a life
/// leaves one room and one set of devices. By this a life goes on over restarts.
#[tactic(auto, using(crate::proofs::LifeLemmas::lives_go_on, crate::proofs::LifeLemmas::lives_leave_one))]
pub fn lives_go_on()
    ensures on { LivesGoOn }
    ensures one { LivesLeaveOne }
{}
