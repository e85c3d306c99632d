//! Laws on an operator's lines: grants, and what they set of devices. Nobody calls them at run
//! time; docs/PROMISES.md lists them.

ghost use Rattle.account_laws.specs.DeviceLines.{AccountsSetNoDevice, RatesSetOneRate, TurnsSetOneFlag};
ghost use Rattle.account_laws.specs.MonthsGrantedOnce.{GrantsSentAgain, MonthsGrantedOnce, NoMonthTwice};

/// Law: a month is granted once. Each later grant of it, of the same pages or of others, changes
/// nothing, whatever stood between, and is told that the month has these pages already, or has
/// others. So is a grant that is sent again.
#[tactic(auto, using(crate::proofs::GrantedMonths::months_granted_once, crate::proofs::GrantedMonths::grants_sent_again))]
pub fn months_are_granted_once()
    ensures once { MonthsGrantedOnce }
    ensures again { GrantsSentAgain }
    ensures none_twice { NoMonthTwice }
{}

/// Law: a line on a device turns that device on or off, or sets its rate. It changes nothing of
/// another device, nor of an account; and no event of an account changes anything of a device.
#[tactic(auto, using(crate::proofs::DeviceLinesSet::turns_set_one_flag, crate::proofs::DeviceLinesSet::rates_set_one_rate, crate::proofs::DeviceLinesSet::accounts_set_no_device))]
pub fn devices_are_set_by_their_lines()
    ensures flags { TurnsSetOneFlag }
    ensures rates { RatesSetOneRate }
    ensures accounts { AccountsSetNoDevice }
{}
