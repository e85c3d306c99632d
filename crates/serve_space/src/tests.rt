//! Tests of the spare file on a real file: filled, given up, lent, found again.

use crate::Spare;
use std::fs::{self, File, Files};
use std::os::unix::fs::MetadataExt;
use std::process::Abort;
use std::test::Fail;

// A call costs a test's proof less than a macro, behind which all that is open is closed.
fn expect(rt: &impl Abort, is_so: bool) {
    assert!(rt; is_so);
}

fn expect_takes(rt: &impl Abort, spare: &Spare, bytes: usize) {
    assert_eq!(rt; spare.takes(), bytes);
}

fn expect_length<R: Abort + Files<File = File>>(rt: &R, bytes: u64) -> Result<(), Fail> {
    assert_eq!(rt; fs::metadata(rt, "spare")?.len(), bytes);
    Ok(())
}

#[test]
fn none_takes_any_request(rt: HostRuntime) -> Result<(), Fail> {
    let mut spare = Spare::none();
    expect(&rt, !spare.mend());
    expect_takes(&rt, &spare, usize::MAX);
    expect(&rt, !spare.give_up(1));
    Ok(())
}

#[test]
fn is_filled_and_given_up(rt: HostRuntime) -> Result<(), Fail> {
    let mut spare = Spare::open(&rt, "spare")?;
    expect_length(&rt, 37_748_736)?;
    expect_takes(&rt, &spare, 17_301_504);
    expect(&rt, spare.give_up(1_000_000));
    expect_length(&rt, 36_748_736)?;
    expect(&rt, spare.give_up(usize::MAX));
    expect(&rt, !spare.give_up(1));
    expect_takes(&rt, &spare, 0);
    expect_length(&rt, 0)?;
    // What is written then begins at the start again, with no hole before it.
    expect(&rt, spare.mend());
    expect_length(&rt, 65_536)?;
    expect(&rt, fs::metadata(&rt, "spare")?.blocks() >= 128);
    spare.fill();
    expect_takes(&rt, &spare, 17_301_504);
    Ok(())
}

#[test]
fn keeps_what_stands_there(rt: HostRuntime) -> Result<(), Fail> {
    let first = Spare::open(&rt, "spare")?;
    drop(first);
    let second = Spare::open(&rt, "spare")?;
    expect_length(&rt, 37_748_736)?;
    expect_takes(&rt, &second, 17_301_504);
    Ok(())
}

#[test]
fn is_lent_where_as_much_is_left(rt: HostRuntime) -> Result<(), Fail> {
    let mut spare = Spare::open(&rt, "spare")?;
    expect(&rt, !spare.lend(35_127_296, usize::MAX));
    expect(&rt, spare.lend(1_000_000, 100_000));
    expect_takes(&rt, &spare, 17_251_504);
    expect(&rt, spare.lend(1_000_000, usize::MAX));
    expect_takes(&rt, &spare, 237_856);
    expect(&rt, !spare.lend(1_000_000, 1));
    Ok(())
}

#[test]
fn takes_more_for_jobs_that_ended(rt: HostRuntime) -> Result<(), Fail> {
    let mut spare = Spare::open(&rt, "spare")?;
    spare.ended();
    expect_takes(&rt, &spare, 36_438_016);
    spare.took();
    expect_takes(&rt, &spare, 17_301_504);
    spare.ended();
    expect(&rt, spare.give_up(1));
    expect_takes(&rt, &spare, 17_301_503);
    Ok(())
}
