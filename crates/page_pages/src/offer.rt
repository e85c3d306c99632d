//! What a job that waits costs, whether its owner is offered to release it, and what helps where
//! too little is left.

ghost use Rattle.std.specs.Prelude.{◌≡◌, ◌++◌, codes, OnOk, IfSome, find};
ghost use Rattle.account_rules.specs.Quota.{exceeds};
ghost use Rattle.page_markup.specs.Parts.{html};
ghost use Rattle.page_pages.specs.Offers.{advice, advice_at, advice_between, advice_of, cheaper_advice, cheapest, dearest, is_at_least, is_at_most, is_cheapest, is_dearest, need, no_price, none_affordable, offer, one_price, price, price_cell, price_start, prices, prices_at, prices_in, ready_at, ready_sentence, short_advice, two_prices, why};

use crate::phase::{Phase, sentence};
use crate::reason::put_quota;
use crate::texts::{
    AT_DEVICE, ENOUGH_FOR, IS_READY, IS_READY_ELSEWHERE, IS_READY_LATER, IS_SHORT, LITTLE_FOR,
    LITTLE_FOR_ALL, NOT_KNOWN, UNITS_NEEDED_BY_JOB,
};
use account_rules::{Device, ENOUGH_LEFT, Standing};
use page_markup::{Piece, put_all};
use std::alloc::AllocError;

/// What prices and offers hang on.
#[derive(Clone, Copy)]
pub struct Terms {
    /// Units of the quota that are left, which may be fewer than none.
    pub left: i64,
    /// The first device of those that are on where a page counts least, and where it counts most.
    pub cheapest: Option<Device>,
    pub dearest: Option<Device>,
}

/// Gives the first device of those that are on where a page counts least.
pub(crate) fn cheapest(devices: &[Device]) -> Option<Device>
    ensures { result ≡ cheapest devices.now }
{
    devices
        .iter()
        .find(|device| is_cheapest(devices, device))
        .copied()
}

/// Gives the first device of those that are on where a page counts most.
pub(crate) fn dearest(devices: &[Device]) -> Option<Device>
    ensures { result ≡ dearest devices.now }
{
    devices
        .iter()
        .find(|device| is_dearest(devices, device))
        .copied()
}

fn is_cheapest(devices: &[Device], it: &Device) -> bool
    ensures { result ≡ is_cheapest devices.now it.now }
{
    it.on && devices.iter().all(|other| is_at_most(it, other))
}

/// Whether a page counts no more on the first than on the other, if that is on.
fn is_at_most(it: &Device, other: &Device) -> bool
    ensures { result ≡ is_at_most it.now other.now }
{
    !other.on || it.rate <= other.rate
}

fn is_dearest(devices: &[Device], it: &Device) -> bool
    ensures { result ≡ is_dearest devices.now it.now }
{
    it.on && devices.iter().all(|other| is_at_least(it, other))
}

/// Whether a page counts no less on the first than on the other, if that is on.
fn is_at_least(it: &Device, other: &Device) -> bool
    ensures { result ≡ is_at_least it.now other.now }
{
    !other.on || other.rate <= it.rate
}

/// Gives the units that a release at this rate reserves, and 0 where the pages are not known.
fn need(s: &Standing, rate: u32) -> u128
    ensures { result ≡ need s.now rate }
{
    s.impressions as u128 * s.copies as u128 * rate as u128
}

/// Gives these units too, but 0 where the limits allow no release so many.
fn price(s: &Standing, rate: u32) -> u64
    ensures { result ≡ price s.now rate }
{
    let need = need(s, rate);
    if need > ENOUGH_LEFT as u128 {
        return 0;
    }
    need as u64
}

/// Whether a release at this rate needs more units than are left.
fn exceeds(need: u128, left: i64) -> bool
    ensures { result ≡ exceeds need left }
{
    left < 0 || (left as u128) < need
}

/// Gives the units that the owner's release reserves, if so many are left.
pub(crate) fn offer(left: i64, s: &Standing) -> Option<u64>
    ensures { result ≡ offer left s.now }
{
    let need = need(s, 1);
    if exceeds(need, left) {
        return None;
    }
    Some(need as u64)
}

/// Appends the cell with what the job costs.
#[tactic(auto, using(std::proofs::Common::append_assoc), unfolding(crate::specs::Offers::price_cell))]
pub(crate) fn put_price_cell(
    out: &mut Vec<u8>,
    phase: Phase,
    terms: &Terms,
    s: &Standing,
) -> Result<(), AllocError>
    ensures { OnOk result (out.new.items ≡ out.old.items ++ price_cell phase terms.now s.now) }
{
    put_price_start(out)?;
    put_prices_in(out, phase, terms, s)?;
    out.extend_from_slice(b"</td>\n")
}

/// Appends the prices of a job that is held, or what one that is released has reserved.
fn put_prices_in(
    out: &mut Vec<u8>,
    phase: Phase,
    terms: &Terms,
    s: &Standing,
) -> Result<(), AllocError>
    ensures { OnOk result (out.new.items ≡ out.old.items ++ prices_in phase terms.now s.now) }
{
    match phase {
        Phase::Incomplete | Phase::Locked | Phase::Uncounted | Phase::Ready => {
            put_prices_at(out, s, &terms.cheapest, &terms.dearest)
        }
        _ => put_one_price(out, s.reserved),
    }
}

/// Appends the prices at these devices, or of the owner's release where none is on.
fn put_prices_at(
    out: &mut Vec<u8>,
    s: &Standing,
    cheap: &Option<Device>,
    dear: &Option<Device>,
) -> Result<(), AllocError>
    ensures { OnOk result (out.new.items ≡ out.old.items ++ prices_at s.now cheap.now dear.now) }
{
    let owners = price(s, 1);
    match cheap {
        None => put_prices(out, owners, b"", owners, b""),
        Some(cheap) => match dear {
            None => put_prices(out, owners, b"", owners, b""),
            Some(dear) => put_prices(
                out,
                price(s, cheap.rate),
                cheap.name.bytes(),
                price(s, dear.rate),
                dear.name.bytes(),
            ),
        },
    }
}

/// Appends one figure where the two agree, else both, each with its device.
fn put_prices<'a>(
    out: &mut Vec<u8>,
    least: u64,
    cheap: &'a [u8],
    most: u64,
    dear: &'a [u8],
) -> Result<(), AllocError>
    ensures { OnOk result
        (out.new.items ≡ out.old.items ++ prices least cheap.now most dear.now) }
{
    if least == 0 || most == 0 {
        return put_no_price(out);
    }
    if least == most {
        return put_one_price(out, least);
    }
    put_two_prices(out, least, cheap, most, dear)
}

/// Gives the sentence that explains how the job stands. Of one that its owner could release it tells
/// whether that would go through, and where it would be printed.
pub(crate) fn why(phase: Phase, terms: &Terms, s: &Standing) -> &'static str
    ensures { result.now ≡ why phase terms.now s.now }
{
    match phase {
        Phase::Ready => ready_sentence(offer(terms.left, s), &terms.cheapest),
        _ => sentence(phase),
    }
}

fn ready_sentence(offered: Option<u64>, cheap: &Option<Device>) -> &'static str
    ensures { result.now ≡ ready_sentence offered cheap.now }
{
    match offered {
        None => IS_SHORT,
        Some(_) => ready_at(cheap),
    }
}

fn ready_at(cheap: &Option<Device>) -> &'static str
    ensures { result.now ≡ ready_at cheap.now }
{
    match cheap {
        None => IS_READY_LATER,
        Some(cheap) => {
            if cheap.rate == 1 {
                IS_READY
            } else {
                IS_READY_ELSEWHERE
            }
        }
    }
}

/// Appends what helps where too little is left to release the job somewhere.
pub(crate) fn put_advice(
    out: &mut Vec<u8>,
    phase: Phase,
    terms: &Terms,
    s: &Standing,
) -> Result<(), AllocError>
    ensures { OnOk result (out.new.items ≡ out.old.items ++ advice phase terms.now s.now) }
{
    match phase {
        Phase::Ready | Phase::Locked => put_advice_of(out, terms, s),
        _ => Ok(()),
    }
}

fn put_advice_of(out: &mut Vec<u8>, terms: &Terms, s: &Standing) -> Result<(), AllocError>
    ensures { OnOk result (out.new.items ≡ out.old.items ++ advice_of terms.now s.now) }
{
    if s.impressions == 0 {
        return Ok(());
    }
    if exceeds(need(s, 1), terms.left) {
        return put_short_advice(out, price(s, 1), terms.left);
    }
    put_advice_at(out, terms.left, s, &terms.cheapest, &terms.dearest)
}

/// Appends how many units are needed and left, and what helps.
#[tactic(auto, using(std::proofs::Common::append_assoc), unfolding(crate::specs::Offers::short_advice))]
fn put_short_advice(out: &mut Vec<u8>, units: u64, left: i64) -> Result<(), AllocError>
    ensures { OnOk result (out.new.items ≡ out.old.items ++ short_advice units left) }
{
    out.extend_from_slice(b" ")?;
    put_quota(out, units, left)
}

fn put_advice_at(
    out: &mut Vec<u8>,
    left: i64,
    s: &Standing,
    cheap: &Option<Device>,
    dear: &Option<Device>,
) -> Result<(), AllocError>
    ensures { OnOk result
        (out.new.items ≡ out.old.items ++ advice_at left s.now cheap.now dear.now) }
{
    match cheap {
        None => Ok(()),
        Some(cheap) => match dear {
            None => Ok(()),
            Some(dear) => put_advice_between(out, left, s, cheap, dear),
        },
    }
}

/// Appends for which of these devices too little is left, if for any.
fn put_advice_between(
    out: &mut Vec<u8>,
    left: i64,
    s: &Standing,
    cheap: &Device,
    dear: &Device,
) -> Result<(), AllocError>
    ensures { OnOk result
        (out.new.items ≡ out.old.items ++ advice_between left s.now cheap.now dear.now) }
{
    if exceeds(need(s, cheap.rate), left) {
        return put_none_affordable(out);
    }
    if exceeds(need(s, dear.rate), left) {
        return put_cheaper_advice(out, cheap.name.bytes(), dear.name.bytes());
    }
    Ok(())
}

fn put_price_start(out: &mut Vec<u8>) -> Result<(), AllocError>
    ensures { OnOk result (out.new.items ≡ out.old.items ++ html price_start) }
{
    put_all(
        out,
        &[
            Piece::Mark("<td class=\"count\" data-label=\""),
            Piece::Mark(UNITS_NEEDED_BY_JOB),
            Piece::Mark("\">"),
        ],
    )
}

fn put_one_price(out: &mut Vec<u8>, units: u64) -> Result<(), AllocError>
    ensures { OnOk result (out.new.items ≡ out.old.items ++ html (one_price units)) }
{
    put_all(out, &[Piece::Number(units)])
}

fn put_no_price(out: &mut Vec<u8>) -> Result<(), AllocError>
    ensures { OnOk result (out.new.items ≡ out.old.items ++ html no_price) }
{
    put_all(out, &[Piece::Mark(NOT_KNOWN)])
}

fn put_two_prices<'a>(
    out: &mut Vec<u8>,
    least: u64,
    cheap: &'a [u8],
    most: u64,
    dear: &'a [u8],
) -> Result<(), AllocError>
    ensures { OnOk result
        (out.new.items ≡ out.old.items ++ html (two_prices least cheap.now most dear.now)) }
{
    put_all(
        out,
        &[
            Piece::Number(least),
            Piece::Mark("<small>"),
            Piece::Mark(AT_DEVICE),
            Piece::Text(cheap),
            Piece::Mark("</small>"),
            Piece::Number(most),
            Piece::Mark("<small>"),
            Piece::Mark(AT_DEVICE),
            Piece::Text(dear),
            Piece::Mark("</small>"),
        ],
    )
}

fn put_none_affordable(out: &mut Vec<u8>) -> Result<(), AllocError>
    ensures { OnOk result (out.new.items ≡ out.old.items ++ html none_affordable) }
{
    put_all(out, &[Piece::Mark(LITTLE_FOR_ALL)])
}

fn put_cheaper_advice<'a>(
    out: &mut Vec<u8>,
    cheap: &'a [u8],
    dear: &'a [u8],
) -> Result<(), AllocError>
    ensures { OnOk result
        (out.new.items ≡ out.old.items ++ html (cheaper_advice cheap.now dear.now)) }
{
    put_all(
        out,
        &[
            Piece::Mark(LITTLE_FOR),
            Piece::Text(dear),
            Piece::Mark(ENOUGH_FOR),
            Piece::Text(cheap),
            Piece::Mark("."),
        ],
    )
}
